// How long a trie is, node by node, with none written.
ghost use Rattle.std.specs.Prelude.{◌≡◌, ◌<◌, ◌≤◌, ◌+◌, ◌^◌, ◌∷◌, List, length, sum_by, IfOk};
ghost use Rattle.dsc_base.specs.Limits.{name_limit};
ghost use Rattle.export_trie.specs.Order.{renamed_len};
ghost use Rattle.export_trie.specs.Writing.{IsWritable, trie_bytes, terminal_bytes, own_terminal, edges_len};
ghost use Rattle.export_trie.specs.Planning.{IsReady, IsHeld, AreShort, grown};
ghost use Rattle.export_trie.specs.Measuring.{Part, part_len, AllHeld, AreMeasured, IsNodeMeasured};

use crate::export::Export;
use crate::writing::{next_group, target_len};
use dsc_base::{NoMemory, uleb_len};
use std::alloc::Global;
use std::marker::Model;

/// A node that is still to be measured: the exports whose names begin with its name, which has `depth` bytes.
#[derive(Drop)]
struct Measured<'a> {
    exports: &'a [Export],
    depth: usize,
}

impl<'a> Model for Measured<'a> {
    ghost use Rattle.export_trie.specs.Measuring.{Part};

    ghost Value = { Part };

    ghost view = { λ m. record { exports = m.exports.now; depth = m.depth } };
}

/// How long the terminal is of a node whose name has `depth` bytes, or the size of a node that has none.
#[tactic(auto, unfolding(crate::specs::Writing::terminal_bytes))]
fn terminal_len(depth: usize, first: &Export) -> u64
    requires { renamed_len first.now.target ≤ name_limit }
    ensures { result ≡ length (terminal_bytes (own_terminal depth first.now)) }
{
    if first.name.as_slice().len() != depth {
        return 1;
    }
    let flags = u64::from(first.flags);
    let size = uleb_len(flags) as u64 + target_len(&first.target);
    uleb_len(size) as u64 + size
}

/// How long a node's edges are, with the offsets of the children, which come onto `pending`.
fn measure_edges<'a>(
    pending: &mut Vec<Measured<'a>>,
    depth: usize,
    exports: &'a [Export],
) -> Result<u64, NoMemory>
    requires ready { IsReady depth exports.now }
    requires short { AreShort exports.now }
    requires held { AllHeld pending.old.items }
    requires small { edges_len (grown depth exports.now) < 2 ^ 28 }
    ensures { IfOk result (λ len. AreMeasured depth exports.entry.now len pending.old.items pending.new.items) }
{
    let mut len = 0u64;
    let mut rest = exports;
    while let Some(group) = next_group(depth, rest) {
        len += (group.len - depth) as u64 + 5;
        pending.push(Measured {
            exports: group.exports,
            depth: group.len,
        })?;
        rest = group.rest;
    }
    Ok(len)
}

/// How long a node is; its children come onto `pending`.
fn measure_node<'a>(
    pending: &mut Vec<Measured<'a>>,
    depth: usize,
    exports: &'a [Export],
) -> Result<u64, NoMemory>
    requires node { IsHeld depth exports.now }
    requires held { AllHeld pending.old.items }
    requires small { part_len (record { exports = exports.now; depth = depth }) < 2 ^ 28 }
    ensures { IfOk result (λ len. IsNodeMeasured (record { exports = exports.entry.now; depth = depth }) len pending.old.items pending.new.items) }
{
    let [first, others @ ..] = exports else {
        return Ok(0);
    };
    let below = if first.name.as_slice().len() == depth {
        others
    } else {
        exports
    };
    let terminal = terminal_len(depth, first);
    let edges = measure_edges(pending, depth, below)?;
    Ok(terminal + 1 + edges)
}

/// How many bytes `write_trie` gives of these exports, under the same conditions. It takes memory for a list
/// of nodes alone, and none for the trie.
///
/// `NoMemory` says that memory ran out.
pub fn trie_len(alloc: Global, exports: &[Export]) -> Result<u64, NoMemory>
    requires { IsWritable exports.now }
    ensures { IfOk result (λ len. len ≡ length (trie_bytes exports.now)) }
{
    if exports.is_empty() {
        return Ok(0);
    }
    let mut pending = Vec::new(alloc);
    let mut len = measure_node(&mut pending, 0, exports)?;
    while let Some(next) = pending.pop() {
        len += measure_node(&mut pending, next.depth, next.exports)?;
    }
    Ok(len)
}
