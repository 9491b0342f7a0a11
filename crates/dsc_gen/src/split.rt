// Split-segment information of deltas from the text's section to the data's.
ghost use Rattle.std.specs.Prelude.{◌≡◌, ◌≤◌, ◌+◌, ◌∷◌, ◌++◌, take, drop, length, IfOk, OnOk};
ghost use Rattle.dsc_base.specs.Uleb.{uleb_bytes};
ghost use Rattle.dsc_gen.specs.Split as spec;

use dsc_base::{NoMemory, put_uleb};
use std::alloc::Global;

/// The first byte of split-segment information, version 2.
const FORMAT: u8 = 0x7F;

/// One list of references, from section 1 to section 2.
const FROM_TEXT_TO_DATA: [u8; 3] = [1, 1, 2];

/// How many groups a place has.
const ONE_GROUP: u8 = 1;

/// The kind of references of four bytes with a sign.
const DELTA_32: u8 = 3;

/// A delta: the offset in the data's section to which it leads, and the offset in the text's section where
/// it stands.
#[derive(Clone, Copy, Debug, PartialEq, Eq, PartialOrd, Ord)]
pub(crate) struct Delta {
    pub to: u32,
    pub from: u32,
}

/// The deltas, in the order of their numbers.
fn deltas(alloc: Global, size: u32, targets: &[u32]) -> Result<Vec<Delta>, NoMemory>
    requires size { 4096 ≤ size }
    requires few { length targets.now ≤ 65_536 }
    ensures { IfOk result (λ v. v.items ≡ spec.deltas_from size 0 targets.now) }
{
    let mut deltas = Vec::with_capacity(alloc, targets.len())?;
    for (i, word) in targets.iter().enumerate() {
        deltas.push(Delta {
            to: word % size,
            from: 16 * i as u32,
        })?;
    }
    Ok(deltas)
}

/// The deltas by where they lead to, and then by where they stand.
fn sorted_deltas(alloc: Global, size: u32, targets: &[u32]) -> Result<Vec<Delta>, NoMemory>
    requires size { 4096 ≤ size }
    requires few { length targets.now ≤ 65_536 }
    ensures { IfOk result (λ v. v.items ≡ spec.in_order (spec.deltas_from size 0 targets.now)) }
{
    let mut deltas = deltas(alloc, size, targets)?;
    deltas.sort()?;
    Ok(deltas)
}

/// How many of these deltas lead to a place, up to the first that doesn't.
fn same_len(to: u32, deltas: &[Delta]) -> usize
    ensures within { result ≤ length deltas.now }
    ensures len { result ≡ spec.same_len to deltas.now }
{
    for (i, delta) in deltas.iter().enumerate() {
        if delta.to != to {
            return i;
        }
    }
    deltas.len()
}

/// How many places the deltas lead to, which are sorted by them.
fn group_count(deltas: &[Delta]) -> u64
    ensures { result ≡ length (spec.groups_of deltas.now) }
{
    let mut count = 0;
    let mut rest = deltas;
    while let [first, ..] = rest {
        let (_, behind) = rest.split_at(same_len(first.to, rest));
        count += 1;
        rest = behind;
    }
    count
}

/// Appends where deltas stand, each by how far it lies behind the one before it.
fn put_rises(out: &mut Vec<u8>, deltas: &[Delta]) -> Result<(), NoMemory>
    ensures { OnOk result (out.new.items ≡ out.old.items ++ spec.rises_from 0 deltas.now) }
{
    let mut last = 0;
    for delta in deltas {
        put_uleb(out, u64::from(delta.from.saturating_sub(last)))?;
        last = delta.from;
    }
    Ok(())
}

/// Appends the group of deltas to one place, by how far that lies behind the last one.
fn put_group(out: &mut Vec<u8>, step: u32, deltas: &[Delta]) -> Result<(), NoMemory>
    ensures { OnOk result (out.new.items ≡ out.old.items ++ (uleb_bytes step ++ (1 ∷ 3 ∷ (uleb_bytes (length deltas.now) ++ spec.rises_from 0 deltas.now)))) }
{
    put_uleb(out, u64::from(step))?;
    out.extend_from_slice(&[ONE_GROUP, DELTA_32])?;
    put_uleb(out, deltas.len() as u64)?;
    put_rises(out, deltas)
}

/// Appends the groups of deltas, which are sorted.
fn put_groups(out: &mut Vec<u8>, deltas: &[Delta]) -> Result<(), NoMemory>
    ensures { OnOk result (out.new.items ≡ out.old.items ++ spec.groups_bytes 0 (spec.groups_of deltas.now)) }
{
    let mut last = 0;
    let mut rest = deltas;
    while let [first, ..] = rest {
        let (group, behind) = rest.split_at(same_len(first.to, rest));
        put_group(out, first.to.saturating_sub(last), group)?;
        last = first.to;
        rest = behind;
    }
    Ok(())
}

/// The split-segment information of deltas to places in the data that these words decide, where segments
/// have `size` bytes.
#[tactic(auto, unfolding(crate::specs::Split::split_stream))]
pub(crate) fn split_stream(alloc: Global, size: u32, targets: &[u32]) -> Result<Vec<u8>, NoMemory>
    requires size { 4096 ≤ size }
    requires few { length targets.now ≤ 65_536 }
    ensures { IfOk result (λ v. v.items ≡ spec.split_stream size targets.now) }
{
    let deltas = sorted_deltas(alloc, size, targets)?;
    stream_of(alloc, &deltas)
}

/// The split-segment information of sorted deltas.
fn stream_of(alloc: Global, deltas: &[Delta]) -> Result<Vec<u8>, NoMemory>
    ensures { IfOk result (λ v. v.items ≡ spec.stream_of (spec.groups_of deltas.now)) }
{
    let mut out = Vec::new(alloc);
    out.push(FORMAT)?;
    if deltas.is_empty() {
        out.push(0)?;
        return Ok(out);
    }
    out.extend_from_slice(&FROM_TEXT_TO_DATA)?;
    put_uleb(&mut out, group_count(deltas))?;
    put_groups(&mut out, deltas)?;
    Ok(out)
}
