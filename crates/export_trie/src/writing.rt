// Writes a trie: nodes in preorder, each with room for the offsets of its children until they are known.
ghost use Rattle.std.specs.Prelude.{◌≡◌, ◌<◌, ◌≤◌, ◌++◌, ◌+◌, ◌^◌, ◌∷◌, ◌-◌, [], List, take, drop, reverse, length, slice_index, OnOk, IfOk, All, nat_eq, MatchOption, None};
ghost use Rattle.std.specs.List.{prefix_len, common_prefix_len};
ghost use Rattle.export_trie.specs.Writing.{trie_bytes, IsWritable, target_bytes, terminal_bytes, own_terminal, goes_with, same_edge, other_edges, shared_len};
ghost use Rattle.export_trie.specs.Order.{renamed_len, trie_break};
ghost use Rattle.export_trie.specs.Exports.{exports_of};
ghost use Rattle.dsc_base.specs.Limits.{name_limit};
ghost use Rattle.dsc_base.specs.Uleb.{uleb4_bytes};
ghost use Rattle.export_trie.specs.Planning.{Plan, IsReady, ArePlanned, IsGroup, IsHeld, IsOpenNode, IsNextNode, HasNumber, put_over};
ghost use Rattle.export_trie.specs.declared.export.Export.{Export};

use crate::children::turn_from;
use crate::export::{Export, Target};
use dsc_base::{NoMemory, put_uleb, uleb_len, uleb4};
use std::alloc::Global;
use std::marker::Model;

/// How many bytes `put_target` appends.
#[tactic(auto, unfolding(crate::specs::Writing::target_bytes))]
pub(crate) fn target_len(target: &Target) -> u64
    requires { renamed_len target.now ≤ name_limit }
    ensures len { result ≡ length (target_bytes target.now) }
    ensures few { result ≤ name_limit + 16 }
{
    match target {
        Target::Offset(value) | Target::Absolute(value) => uleb_len(*value) as u64,
        Target::Reexport { ordinal, name } => {
            uleb_len(*ordinal) as u64 + name.as_slice().len() as u64 + 1
        }
    }
}

#[tactic(auto, unfolding(crate::specs::Writing::target_bytes))]
fn put_target(out: &mut Vec<u8>, target: &Target) -> Result<(), NoMemory>
    ensures { OnOk result (out.new.items ≡ out.old.items ++ target_bytes target.now) }
{
    match target {
        Target::Offset(value) | Target::Absolute(value) => put_uleb(out, *value)?,
        Target::Reexport { ordinal, name } => {
            put_uleb(out, *ordinal)?;
            out.extend_from_slice(name.as_slice())?;
            out.push(0)?;
        }
    }
    Ok(())
}

/// The terminal of a node whose name has `depth` bytes, or that it has none.
#[tactic(auto, unfolding(crate::specs::Writing::terminal_bytes))]
fn put_terminal(out: &mut Vec<u8>, depth: usize, first: &Export) -> Result<(), NoMemory>
    requires { renamed_len first.now.target ≤ name_limit }
    ensures { OnOk result (out.new.items ≡ out.old.items ++ terminal_bytes (own_terminal depth first.now)) }
{
    if first.name.as_slice().len() != depth {
        out.push(0)?;
        return Ok(());
    }
    let flags = u64::from(first.flags);
    put_uleb(out, uleb_len(flags) as u64 + target_len(&first.target))?;
    put_uleb(out, flags)?;
    put_target(out, &first.target)?;
    Ok(())
}

/// How many of the exports have the same byte at `depth` as the first one.
fn same_edge_len(depth: usize, first: &Export, exports: &[Export]) -> usize
    requires first { depth < length first.now.name }
    requires others { All (λ export. depth < length export.name) exports.now }
    ensures len { result ≡ prefix_len (goes_with depth first.now) exports.now }
    ensures byte { slice_index first.now.name depth < 256 }
{
    let byte = first.name.as_slice()[depth];
    for (count, export) in exports.iter().enumerate() {
        if export.name.as_slice()[depth] != byte {
            return count;
        }
    }
    exports.len()
}

/// How many bytes two names have in common at their fronts.
fn common_len(a: &[u8], b: &[u8]) -> usize
    ensures { result ≡ common_prefix_len nat_eq a.now b.now }
{
    for (len, byte) in a.iter().enumerate() {
        if len >= b.len() || b[len] != *byte {
            return len;
        }
    }
    a.len()
}

/// A node that is still to be written: the exports whose names begin with its name, which has `depth` bytes,
/// and the place of its offset among its parent's edges.
#[derive(Drop)]
struct Planned<'a> {
    exports: &'a [Export],
    depth: usize,
    hole: usize,
}

impl<'a> Model for Planned<'a> {
    ghost use Rattle.export_trie.specs.Planning.{Plan};

    ghost Value = { Plan };

    ghost view = { λ p. record { exports = p.exports.now; depth = p.depth; hole = p.hole } };
}

/// How many bytes all names of the group have in common, which is what the first and the last have, since
/// names rise. All have `depth` bytes in common.
fn group_len(depth: usize, first: &Export, others: &[Export]) -> usize
    requires { IsReady depth (first.now ∷ others.now) }
    ensures { result ≡ shared_len first.now.name others.now }
{
    let name = first.name.as_slice();
    match others {
        [] => name.len(),
        [.., last] => common_from(depth, name, last.name.as_slice()),
    }
}

/// How many bytes two names have in common, which begin with the same `depth` bytes.
fn common_from(depth: usize, a: &[u8], b: &[u8]) -> usize
    requires first { depth ≤ length a.now }
    requires second { depth ≤ length b.now }
    requires same { take depth a.now ≡ take depth b.now }
    ensures { result ≡ common_prefix_len nat_eq a.now b.now }
{
    depth + common_len(&a[depth..], &b[depth..])
}

/// The edge of these names from `depth` to `len`, and room for the offset of its node.
fn put_edge(out: &mut Vec<u8>, depth: usize, len: usize, first: &Export) -> Result<(), NoMemory>
    requires order { depth ≤ len }
    requires within { len ≤ length first.now.name }
    ensures { OnOk result (out.new.items ≡ out.old.items ++ (drop depth (take len first.now.name) ++ (0 ∷ 0 ∷ 0 ∷ 0 ∷ 0 ∷ []))) }
{
    out.extend_from_slice(&first.name.as_slice()[depth..len])?;
    out.extend_from_slice(&[0; 5])?;
    Ok(())
}

/// Exports whose names have `len` bytes in common, and those behind them.
#[derive(Clone, Copy)]
pub(crate) struct Group<'a> {
    first: &'a Export,
    pub(crate) exports: &'a [Export],
    pub(crate) len: usize,
    pub(crate) rest: &'a [Export],
}

/// The first exports that have the same byte at `depth`.
pub(crate) fn next_group<'a>(depth: usize, exports: &'a [Export]) -> Option<Group<'a>>
    requires { IsReady depth exports.now }
    ensures { MatchOption result (exports.entry.now ≡ []) (λ group. IsGroup depth exports.entry.now group.first.now group.exports.now group.rest.now group.len) }
{
    let [first, others @ ..] = exports else {
        return None;
    };
    let same = same_edge_len(depth, first, others);
    let len = group_len(depth, first, &others[..same]);
    let (group, rest) = exports.split_at(same + 1);
    Some(Group {
        first,
        exports: group,
        len,
        rest,
    })
}

/// The edge of a group, and the plan of its node.
fn put_group<'a>(
    out: &mut Vec<u8>,
    pending: &mut Vec<Planned<'a>>,
    depth: usize,
    group: &Group<'a>,
) -> Result<(), NoMemory>
    requires order { depth ≤ group.now.len }
    requires within { group.now.len ≤ length group.now.first.now.name }
    ensures edge { OnOk result (out.new.items ≡ out.old.items ++ (drop depth (take group.now.len group.now.first.now.name) ++ (0 ∷ 0 ∷ 0 ∷ 0 ∷ 0 ∷ []))) }
    ensures plan { OnOk result (pending.new.items ≡ pending.old.items ++ (record { exports = group.now.exports.now; depth = group.now.len; hole = length out.old.items + (group.now.len - depth) + 1 } ∷ [])) }
{
    put_edge(out, depth, group.len, group.first)?;
    pending.push(Planned {
        exports: group.exports,
        depth: group.len,
        hole: out.len() - 4,
    })?;
    Ok(())
}

/// The count of a node's children and their edges; the children come onto `pending`, the first one on top.
fn put_edges<'a>(
    out: &mut Vec<u8>,
    pending: &mut Vec<Planned<'a>>,
    depth: usize,
    exports: &'a [Export],
) -> Result<(), NoMemory>
    requires { IsReady depth exports.now }
    ensures { OnOk result (ArePlanned depth exports.entry.now out.old.items out.new.items (reverse pending.old.items) (reverse pending.new.items)) }
{
    let base = pending.len();
    let count_at = out.len();
    out.push(0)?;
    let mut count = 0u8;
    let mut rest = exports;
    while let Some(group) = next_group(depth, rest) {
        put_group(out, pending, depth, &group)?;
        count += 1;
        rest = group.rest;
    }
    out[count_at] = count;
    turn_from(pending, base);
    Ok(())
}

/// A node with room for the offsets of its children, which are planned.
fn put_node<'a>(
    out: &mut Vec<u8>,
    pending: &mut Vec<Planned<'a>>,
    depth: usize,
    exports: &'a [Export],
) -> Result<(), NoMemory>
    requires { IsHeld depth exports.now }
    ensures { OnOk result (IsOpenNode depth exports.entry.now out.old.items out.new.items (reverse pending.old.items) (reverse pending.new.items)) }
{
    let [first, others @ ..] = exports else {
        return Ok(());
    };
    put_terminal(out, depth, first)?;
    let below = if first.name.as_slice().len() == depth {
        others
    } else {
        exports
    };
    put_edges(out, pending, depth, below)
}

/// Writes a node that was planned, and its place among its parent's edges.
fn put_next<'a>(
    out: &mut Vec<u8>,
    pending: &mut Vec<Planned<'a>>,
    next: &Planned<'a>,
) -> Result<(), NoMemory>
    requires inside { next.now.hole + 4 ≤ length out.old.items }
    requires small { length out.old.items < 2 ^ 28 }
    requires held { IsHeld next.now.depth next.now.exports }
    ensures { OnOk result (IsNextNode next.now out.old.items out.new.items (reverse pending.old.items) (reverse pending.new.items)) }
{
    fill_offset(out, next.hole);
    put_node(out, pending, next.depth, next.exports)
}

/// Writes the place of the node that comes next where its parent has room for it.
fn fill_offset(out: &mut Vec<u8>, hole: usize)
    requires inside { hole + 4 ≤ length out.old.items }
    requires small { length out.old.items < 2 ^ 28 }
    ensures { out.new.items ≡ put_over hole (uleb4_bytes (length out.old.items)) out.old.items }
{
    let offset = uleb4(out.len() as u32);
    put_piece(out, hole, &offset);
}

/// Writes the piece over the bytes from `at`.
fn put_piece(bytes: &mut [u8], at: usize, piece: &[u8])
    requires { at + length piece.now ≤ length bytes.old }
    ensures { bytes.new ≡ put_over at piece.now bytes.old }
{
    bytes[at..at + piece.len()].copy_from_slice(piece);
}

/// The number of a target, which is one of 64 bits.
fn number_of(target: &Target) -> u64
    ensures { HasNumber target.now }
{
    match target {
        Target::Offset(value) | Target::Absolute(value) => *value,
        Target::Reexport { ordinal, .. } => *ordinal,
    }
}

/// All numbers of exports are of 64 bits, since each is read.
fn read_numbers(exports: &[Export])
    ensures { All (λ export. HasNumber export.target) exports.now }
{
    for export in exports {
        number_of(&export.target);
    }
}

/// The trie of these exports, in the format that `read_trie` has: nodes in preorder with the longest common
/// edges, offsets of children in four bytes, all other numbers as short as they can be. No bytes for no
/// exports.
///
/// The names rise strictly, and neither they nor the names that re-exports have have a byte 0. The flags
/// break no rule and fit their targets: 0x08 goes with `Reexport`, the kind 2 with `Absolute`. No name is
/// longer than `NAME_LIMIT`, and the exports keep within `RECORD_LIMIT` and `EXPORT_NAMES_LIMIT`.
///
/// `NoMemory` says that memory ran out.
pub fn write_trie(alloc: Global, exports: &[Export]) -> Result<Vec<u8>, NoMemory>
    requires { IsWritable exports.now }
    ensures bytes { IfOk result (λ bytes. bytes.items ≡ trie_bytes exports.now) }
    // It is accepted, and its exports are these.
    ensures accepted { IfOk result (λ bytes. trie_break bytes.items ≡ None) }
    ensures read_back { IfOk result (λ bytes. exports_of bytes.items ≡ exports.now) }
{
    read_numbers(exports);
    let mut out = Vec::new(alloc);
    if exports.is_empty() {
        return Ok(out);
    }
    let mut pending = Vec::new(alloc);
    put_node(&mut out, &mut pending, 0, exports)?;
    while let Some(next) = pending.pop() {
        put_next(&mut out, &mut pending, &next)?;
    }
    Ok(out)
}
