// The numbers that the entries of a symbol table have where its stabs are left out.
ghost use Rattle.std.specs.Prelude.{◌≡◌, ◌≤◌, ◌<◌, ◌+◌, false, length, map, take, drop, count_by, slice_get, slice_index, IfOk, All};
ghost use Rattle.macho_image.specs.Nlists.{is_flag, is_kept};
ghost use Rattle.macho_image.specs.TableRules.{is_symbol};
ghost use Rattle.nlist_table.specs.Kept.{EachGroup};
ghost use Rattle.nlist_table.specs.Symbols as spec;

use crate::entry::Entry;
use crate::kind::is_stab;
use dsc_base::NoMemory;
use std::alloc::Global;

/// Stands in an indirect table in place of an index, as does INDIRECT_SYMBOL_LOCAL, the bit above it.
const INDIRECT_SYMBOL_ABS: u32 = 0x4000_0000;

/// Whether an entry of an indirect table is no index: it has one of the two highest bits.
pub(crate) fn is_flag(index: u32) -> bool
    ensures { result ≡ is_flag index }
{
    index >= INDIRECT_SYMBOL_ABS
}

/// Entries of a symbol table, and for each of them and for their end the number of those before it that
/// are kept.
#[derive(Drop)]
pub(crate) struct Numbering<'e> {
    pub entries: &'e [Entry],
    before: Vec<usize>,
    ghost counted: { before.items ≡ spec.indices_of entries.now },
}

fn count_kept(alloc: Global, entries: &[Entry]) -> Result<Vec<usize>, NoMemory>
    ensures { IfOk result (λ v. v.items ≡ spec.indices_of entries.now) }
{
    let mut before = Vec::new(alloc);
    let mut kept = 0;
    before.push(kept)?;
    for entry in entries {
        if !is_stab(entry.kind) {
            kept += 1;
        }
        before.push(kept)?;
    }
    Ok(before)
}

impl<'e> Numbering<'e> {
    pub(crate) fn new(alloc: Global, entries: &'e [Entry]) -> Result<Numbering<'e>, NoMemory>
        ensures { IfOk result (λ n. n.entries.now ≡ entries.entry.now) }
    {
        let before = count_kept(alloc, entries)?;
        Ok(Numbering { entries, before })
    }

    /// Whether there is an entry with this index and it is kept.
    pub(crate) fn keeps(&self, index: u32) -> bool
        ensures { result ≡ is_symbol (slice_get self.now.entries.now index) }
    {
        match self.entries.get(index as usize) {
            Some(entry) => !is_stab(entry.kind),
            None => false,
        }
    }

    /// What an entry of an indirect table becomes.
    fn renumber(&self, index: u32) -> u32
        requires { is_flag index ≡ false → index < length self.now.entries.now }
        ensures { result ≡ spec.renumbered self.now.entries.now index }
    {
        if is_flag(index) {
            index
        } else {
            self.before[index as usize] as u32
        }
    }

    /// What an indirect table becomes.
    pub(crate) fn renumber_all(&self, alloc: Global, indices: &[u32]) -> Result<Vec<u32>, NoMemory>
        requires { All (λ index. is_flag index ≡ false → index < length self.now.entries.now) indices.now }
        ensures { IfOk result (λ v. v.items ≡ map (spec.renumbered self.now.entries.now) indices.now) }
    {
        let mut renumbered = Vec::with_capacity(alloc, indices.len())?;
        for index in indices {
            renumbered.push(self.renumber(*index))?;
        }
        Ok(renumbered)
    }

    /// The first index and the count that a group becomes.
    fn regroup(&self, index: u32, count: u32) -> (u32, u32)
        requires { index + count ≤ length self.now.entries.now }
        ensures index { result.0 ≡ spec.kept_before self.now.entries.now index }
        ensures count { result.1 ≡ count_by is_kept (take count (drop index self.now.entries.now)) }
    {
        let from = index as usize;
        let first = self.before[from];
        let behind = self.before[from + count as usize];
        (first as u32, (behind - first) as u32)
    }

    /// What the three groups become.
    pub(crate) fn regroup_all(&self, groups: [u32; 6]) -> [u32; 6]
        requires { EachGroup (λ k. slice_index groups k + slice_index groups (k + 1) ≤ length self.now.entries.now) }
        ensures { result ≡ spec.kept_groups self.now.entries.now groups }
    {
        let local = self.regroup(groups[0], groups[1]);
        let external = self.regroup(groups[2], groups[3]);
        let undefined = self.regroup(groups[4], groups[5]);
        [
            local.0,
            local.1,
            external.0,
            external.1,
            undefined.0,
            undefined.1,
        ]
    }
}
