// The entries of a symbol table and of an indirect table.
ghost use Rattle.std.specs.Prelude.{◌≡◌, ◌≤◌, ◌+◌, length, IfOk};
ghost use Rattle.macho_image.specs.Nlists as spec;

use dsc_base::{NoMemory, get_u16, get_u32, get_u64};
use std::alloc::Global;
use std::marker::Model;

/// The size of an entry of a symbol table.
const NLIST: usize = 16;

/// The size of an entry of an indirect table.
const INDEX: usize = 4;

/// The fields of an `nlist_64`.
#[derive(Drop)]
pub(crate) struct Entry {
    pub strx: u32,
    pub kind: u8,
    pub section: u8,
    pub desc: u16,
    pub value: u64,
}

impl Model for Entry {
    ghost use Rattle.macho_image.specs.Nlists.{Nlist};

    ghost Value = { Nlist };

    ghost view = { λ e. record { strx = e.strx; kind = e.kind; section = e.section; desc = e.desc; value = e.value } };
}

#[tactic(auto, unfolding(macho_image::specs::Nlists::nlist_at))]
fn entry_at(bytes: &[u8], at: usize) -> Entry
    requires { at + 16 ≤ length bytes.now }
    ensures { result ≡ spec.nlist_at bytes.now at }
{
    Entry {
        strx: get_u32(bytes, at),
        kind: bytes[at + 4],
        section: bytes[at + 5],
        desc: get_u16(bytes, at + 6),
        value: get_u64(bytes, at + 8),
    }
}

/// The entries of a symbol table.
pub(crate) fn read_entries(alloc: Global, bytes: &[u8]) -> Result<Vec<Entry>, NoMemory>
    ensures { IfOk result (λ v. v.items ≡ spec.nlists_of bytes.now) }
{
    let count = bytes.len() / NLIST;
    let mut entries = Vec::with_capacity(alloc, count)?;
    for k in 0..count {
        entries.push(entry_at(bytes, NLIST * k))?;
    }
    Ok(entries)
}

/// The indices of an indirect table.
pub(crate) fn read_indices(alloc: Global, bytes: &[u8]) -> Result<Vec<u32>, NoMemory>
    ensures { IfOk result (λ v. v.items ≡ spec.indirect_of bytes.now) }
{
    let count = bytes.len() / INDEX;
    let mut indices = Vec::with_capacity(alloc, count)?;
    for k in 0..count {
        indices.push(get_u32(bytes, INDEX * k))?;
    }
    Ok(indices)
}
