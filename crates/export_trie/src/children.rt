// The children of a node, and the nodes that are still to come.
ghost use Rattle.std.specs.Prelude.{◌≡◌, ◌<◌, ◌≤◌, ◌+◌, ◌++◌, ◌∷◌, ℕ, List, [], length, take, drop, map, slice_index, IfOk, OnOk, reverse};
ghost use Rattle.export_trie.specs.Nodes.{child_at, edges_at, children_at};
ghost use Rattle.export_trie.specs.Reading.{Reads, Gives, Marks, Pend, pend};

use crate::node::{ReadFault, read_number, read_text};
use dsc_base::Rule;
use std::marker::Model;

/// A node that is still to come. Its name is the first `prefix` bytes of the name at hand and then `edge`.
#[derive(Drop)]
pub(crate) struct Pending<'a> {
    pub(crate) prefix: usize,
    pub(crate) edge: &'a [u8],
    pub(crate) offset: usize,
}

impl<'a> Model for Pending<'a> {
    ghost use Rattle.export_trie.specs.Reading.{Pend};

    ghost Value = { Pend };

    ghost view = { λ p. record { prefix = p.prefix; edge = p.edge.now; offset = p.offset } };
}

/// An edge and the offset of its node.
#[derive(Clone, Copy)]
pub(crate) struct Child<'a> {
    pub(crate) edge: &'a [u8],
    pub(crate) offset: usize,
}

/// The child at the front of the bytes, in a trie of `total` bytes; `seen` tells which bytes edges of this
/// node began with before.
#[tactic(auto, unfolding(crate::specs::Nodes::child_at))]
fn read_child<'a>(
    total: usize,
    seen: &[bool],
    bytes: &'a [u8],
) -> Result<(Child<'a>, &'a [u8]), Rule>
    requires { length seen.now ≡ 256 }
    ensures read { (firsts : List ℕ) → Marks seen.now firsts → Reads (λ p. ((p.0.edge.now, p.0.offset), p.1.now)) result (child_at total firsts bytes.now) }
    ensures some { IfOk result (λ p. 0 < length p.0.edge.now) }
    ensures inside { IfOk result (λ p. p.0.offset < total) }
    ensures byte { IfOk result (λ p. slice_index p.0.edge.now 0 < 256) }
{
    let (edge, rest) = read_text(bytes)?;
    if edge.is_empty() {
        return Err(Rule::TrieBadNode);
    }
    if seen[edge[0] as usize] {
        return Err(Rule::TrieSiblingsClash);
    }
    let (offset, rest) = read_number(rest)?;
    if offset >= total as u64 {
        return Err(Rule::TrieEnded);
    }
    let offset = offset as usize;
    Ok((Child { edge, offset }, rest))
}

/// Puts the nodes of the children at the front of the bytes onto `pending`, the first child on top. `prefix`
/// is the length of the name that leads to their parent.
#[tactic(auto, unfolding(crate::specs::Nodes::edges_at))]
pub(crate) fn push_children<'a>(
    total: usize,
    prefix: usize,
    bytes: &'a [u8],
    pending: &mut Vec<Pending<'a>>,
) -> Result<(), ReadFault>
    ensures pushed { Gives (λ _ children. reverse pending.new.items ≡ map (pend prefix) children ++ reverse pending.old.items) result (edges_at total bytes.now) }
    ensures few { OnOk result (length pending.new.items ≤ length pending.old.items + 255) }
{
    match bytes {
        [] => Err(ReadFault::Broken(Rule::TrieEnded)),
        [count, rest @ ..] => push_counted(total, prefix, *count, rest, pending),
    }
}

fn push_counted<'a>(
    total: usize,
    prefix: usize,
    count: u8,
    bytes: &'a [u8],
    pending: &mut Vec<Pending<'a>>,
) -> Result<(), ReadFault>
    ensures pushed { Gives (λ _ children. reverse pending.new.items ≡ map (pend prefix) children ++ reverse pending.old.items) result (children_at total count [] bytes.now) }
    ensures few { OnOk result (length pending.new.items ≡ length pending.old.items + count) }
{
    let base = pending.len();
    let mut seen = [false; 256];
    let mut rest = bytes;
    for _ in 0..count {
        let (child, after) = read_child(total, &seen, rest)?;
        seen[child.edge[0] as usize] = true;
        pending.push(Pending {
            prefix,
            edge: child.edge,
            offset: child.offset,
        })?;
        rest = after;
    }
    turn_from(pending, base);
    Ok(())
}

/// Turns the order of all but the first `base`.
pub(crate) fn turn_from<T>(pending: &mut Vec<T>, base: usize)
    requires { base ≤ length pending.old.items }
    ensures turned { pending.new.items ≡ take base pending.old.items ++ reverse (drop base pending.old.items) }
    ensures len { length pending.new.items ≡ length pending.old.items }
{
    pending[base..].reverse();
}
