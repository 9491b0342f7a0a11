// One export of a trie that is known to be sound, by the one path that its name leads along.
ghost use Rattle.std.specs.Prelude.{◌≡◌, ◌≤◌, ℕ, List, length, None, Some, Ok, Option};
ghost use Rattle.export_trie.specs.Nodes.{Terminal, Child, head_at, children_at, node_at};
ghost use Rattle.export_trie.specs.Order.{trie_break};
ghost use Rattle.export_trie.specs.Exports.{exports_of};
ghost use Rattle.export_trie.specs.Finding.{target_found, target_named, IsTargetOf, Follows, step_of, rest_of, target_of};

use crate::export::{Entry, Found};
use crate::node::{read_head, read_number, read_text};

/// The bytes after a node's terminal, which begin with the count of its children.
#[tactic(auto, unfolding(crate::specs::Nodes::head_at))]
fn after_head(bytes: &[u8]) -> Option<&[u8]>
    ensures { (terminal : Option Terminal) (rest : List ℕ) → head_at bytes.now ≡ Ok (terminal, rest) → rest_of result ≡ Some rest }
{
    let Ok((size, rest)) = read_number(bytes) else {
        return None;
    };
    if size > rest.len() as u64 {
        return None;
    }
    Some(&rest[size as usize..])
}

/// The node of the edge that begins the name, among the children at the front of the bytes, and what follows
/// that edge in the name.
fn follow_edge<'n>(count: u8, bytes: &[u8], name: &'n [u8]) -> Option<(usize, &'n [u8])>
    ensures { (total : ℕ) (firsts : List ℕ) (children : List Child) → children_at total count firsts bytes.now ≡ Ok children → Follows children name.entry.now (step_of result) }
{
    let mut rest = bytes;
    for _ in 0..count {
        let Ok((edge, after)) = read_text(rest) else {
            return None;
        };
        let Ok((offset, after)) = read_number(after) else {
            return None;
        };
        if let Some(left) = name.strip_prefix(edge) {
            return Some((offset as usize, left));
        }
        rest = after;
    }
    None
}

/// The same among the children of the node at `at`.
fn follow<'n>(bytes: &[u8], at: usize, name: &'n [u8]) -> Option<(usize, &'n [u8])>
    requires { at ≤ length bytes.now }
    ensures { (terminal : Option Terminal) (children : List Child) → node_at bytes.now at ≡ Ok (terminal, children) → Follows children name.entry.now (step_of result) }
{
    let Some(rest) = after_head(&bytes[at..]) else {
        return None;
    };
    match rest {
        [] => None,
        [count, children @ ..] => follow_edge(*count, children, name),
    }
}

/// What the terminal of the node at `at` has.
#[tactic(auto, unfolding(crate::specs::Nodes::node_at))]
fn entry_at<'a>(bytes: &'a [u8], at: usize) -> Found<'a>
    requires { at ≤ length bytes.now }
    ensures { (terminal : Option Terminal) (children : List Child) → node_at bytes.entry.now at ≡ Ok (terminal, children) → target_found result ≡ target_of terminal }
{
    let Ok((Some(terminal), _)) = read_head(&bytes[at..]) else {
        return Found::Absent;
    };
    match terminal.target {
        Entry::Offset(value) => Found::Offset(value),
        Entry::Absolute(value) => Found::Absolute(value),
        Entry::Reexport { ordinal, name } => Found::Reexport { ordinal, name },
    }
}

/// What the trie has of the name: the entry of `read_trie`'s list with this name, or `Absent` exactly where
/// that list lacks it. The trie must be one that `read_trie` accepts. Takes no memory.
pub fn find<'a>(bytes: &'a [u8], name: &[u8]) -> Found<'a>
    requires { trie_break bytes.now ≡ None }
    // By the paths of the trie, and by its list.
    ensures path { IsTargetOf bytes.entry.now name.now (target_found result) }
    ensures entry { target_found result ≡ target_named (exports_of bytes.entry.now) name.now }
{
    if bytes.is_empty() {
        return Found::Absent;
    }
    let mut at = 0;
    let mut rest = name;
    while !rest.is_empty() {
        let Some((next, left)) = follow(bytes, at, rest) else {
            return Found::Absent;
        };
        at = next;
        rest = left;
    }
    entry_at(bytes, at)
}
