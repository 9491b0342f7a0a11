// A whole trie: its nodes in the order in which they are read, and its exports by name.
ghost use Rattle.std.specs.Prelude.{ℕ, List, ◌≡◌, ◌<◌, ◌≤◌, ◌∷◌, ◌+◌, false, length, reverse, sum_by, None, IfOk, OnOk, IfErr};
ghost use Rattle.export_trie.specs.Order.{trie_break, names_len, renamed_len, too_many};
ghost use Rattle.export_trie.specs.declared.export.Export.{Export};
ghost use Rattle.export_trie.specs.Writing.{IsWritable};
ghost use Rattle.dsc_base.specs.Limits.{name_limit};
ghost use Rattle.dsc_base.specs.Refusals.{IsRefusal, Refuses};
ghost use Rattle.export_trie.specs.Exports.{exports_of};
ghost use Rattle.export_trie.specs.Paths.{AreExports};
ghost use Rattle.export_trie.specs.Finding.{target_in};
ghost use Rattle.export_trie.specs.Reading.{Enters, Keeps, Opens, Stands, weight, IsWalked, fault_at, some_terminal_in};

use crate::children::{Pending, push_children};
use crate::export::{Entry, Export, Target};
use crate::node::{ReadFault, Terminal, read_head};
use dsc_base::{EXPORT_NAMES_LIMIT, Fault, NAME_LIMIT, Name, NoMemory, RECORD_LIMIT, Rule, Site};
use std::alloc::Global;

/// Marks the node and puts its name in place of the name at hand.
fn enter(next: &Pending<'_>, marks: &mut Vec<bool>, name: &mut Vec<u8>) -> Result<(), ReadFault>
    requires inside { next.now.offset < length marks.old.items }
    requires prefix { next.now.prefix ≤ length name.old.items }
    requires short { length name.old.items ≤ name_limit }
    ensures { Enters next.now marks.old.items marks.new.items name.old.items name.new.items result }
{
    if marks[next.offset] {
        return Err(ReadFault::Broken(Rule::TrieNodeTwice));
    }
    marks[next.offset] = true;
    if next.edge.len() > NAME_LIMIT - next.prefix {
        return Err(ReadFault::Broken(Rule::TrieBadNode));
    }
    name.truncate(next.prefix);
    name.extend_from_slice(next.edge)?;
    Ok(())
}

/// How many bytes a re-export's own name there has.
fn renamed_len(target: &Entry<'_>) -> u64
    ensures { result ≡ renamed_len (target_in target.now) }
{
    match target {
        Entry::Reexport { name, .. } => name.len() as u64,
        _ => 0,
    }
}

/// Where an export leads, with a name of its own.
fn target_from(alloc: Global, entry: Entry<'_>) -> Result<Target, NoMemory>
    ensures { IfOk result (λ target. target ≡ target_in entry.entry) }
{
    Ok(match entry {
        Entry::Offset(value) => Target::Offset(value),
        Entry::Absolute(value) => Target::Absolute(value),
        Entry::Reexport { ordinal, name } => Target::Reexport {
            ordinal,
            name: Name::from_slice(alloc, name)?,
        },
    })
}

/// Keeps the terminal, if there is one, as an export of this name; `size` counts the bytes of all names.
#[tactic(auto, unfolding(crate::specs::Order::too_many))]
fn keep(
    alloc: Global,
    name: &[u8],
    terminal: Option<Terminal<'_>>,
    exports: &mut Vec<Export>,
    size: &mut u64,
) -> Result<(), ReadFault>
    requires sized { size.old ≡ sum_by names_len exports.old.items }
    requires few { too_many exports.old.items ≡ false }
    ensures { Keeps name.now (some_terminal_in terminal.entry) exports.old.items exports.new.items size.new result }
{
    let Some(terminal) = terminal else {
        return Ok(());
    };
    let added = name.len() as u64 + renamed_len(&terminal.target);
    if exports.len() >= RECORD_LIMIT || added > EXPORT_NAMES_LIMIT - *size {
        return Err(ReadFault::Broken(Rule::TrieTooManyNames));
    }
    let export = Export {
        name: Name::from_slice(alloc, name)?,
        flags: terminal.flags,
        target: target_from(alloc, terminal.target)?,
    };
    exports.push(export)?;
    *size += added;
    Ok(())
}

/// Reads a node whole: its export is kept, and its children are to come.
#[tactic(auto, unfolding(crate::specs::Order::opened))]
fn open_node<'a>(
    alloc: Global,
    bytes: &'a [u8],
    offset: usize,
    name: &[u8],
    exports: &mut Vec<Export>,
    size: &mut u64,
    pending: &mut Vec<Pending<'a>>,
) -> Result<(), ReadFault>
    requires inside { offset < length bytes.now }
    requires sized { size.old ≡ sum_by names_len exports.old.items }
    requires few { too_many exports.old.items ≡ false }
    ensures opens { Opens bytes.now (name.now, offset) exports.old.items exports.new.items size.new (reverse pending.old.items) (reverse pending.new.items) result }
    ensures few { OnOk result (length pending.new.items ≤ length pending.old.items + 255) }
{
    let (terminal, rest) = read_head(&bytes[offset..])?;
    keep(alloc, name, terminal, exports, size)?;
    push_children(bytes.len(), name.len(), rest, pending)
}

/// What is at hand while a trie is read: which nodes were reached, the name of the last one, the nodes that
/// are still to come (the next one on top), the exports so far and the bytes of their names.
#[derive(Drop)]
struct Walk<'a> {
    bytes: &'a [u8],
    marks: Vec<bool>,
    name: Vec<u8>,
    pending: Vec<Pending<'a>>,
    exports: Vec<Export>,
    size: u64,
}

impl<'a> Walk<'a> {
    /// Visits the node that was taken from the top of `pending`.
    fn visit(&mut self, alloc: Global, next: &Pending<'a>) -> Result<(), ReadFault>
        requires stands { Stands self.old.bytes.now self.old.marks.items self.old.name.items (next.now ∷ reverse self.old.pending.items) self.old.exports.items self.old.size }
        ensures bytes { self.new.bytes ≡ self.old.bytes }
        ensures stands { OnOk result (Stands self.old.bytes.now self.new.marks.items self.new.name.items (reverse self.new.pending.items) self.new.exports.items self.new.size) }
        ensures fault { IfErr result (λ fault. IsRefusal (trie_break self.old.bytes.now) (fault_at next.now.offset fault)) }
        ensures falls { OnOk result (weight self.new.marks.items self.new.pending.items < weight self.old.marks.items self.old.pending.items) }
    {
        enter(next, &mut self.marks, &mut self.name)?;
        open_node(
            alloc,
            self.bytes,
            next.offset,
            &self.name,
            &mut self.exports,
            &mut self.size,
            &mut self.pending,
        )
    }
}

/// Visits all nodes. The exports stand in the order of the visits.
fn walk_all(alloc: Global, bytes: &[u8]) -> Result<Vec<Export>, Fault>
    ensures walked { IfOk result (λ exports. IsWalked bytes.now exports.items) }
    ensures accepted { OnOk result (trie_break bytes.now ≡ None) }
    ensures fault { IfErr result (IsRefusal (trie_break bytes.now)) }
{
    let mut walk = start(alloc, bytes)?;
    while let Some(next) = walk.pending.pop() {
        if let Err(fault) = walk.visit(alloc, &next) {
            return Err(fault.at(next.offset));
        }
    }
    Ok(walk.exports)
}

/// Before the first visit, of the node at 0 if the trie has any bytes.
fn start<'a>(alloc: Global, bytes: &'a [u8]) -> Result<Walk<'a>, NoMemory>
    ensures bytes { IfOk result (λ walk. walk.bytes.now ≡ bytes.entry.now) }
    ensures stands { IfOk result (λ walk. Stands bytes.entry.now walk.marks.items walk.name.items (reverse walk.pending.items) walk.exports.items walk.size) }
{
    let mut pending = Vec::new(alloc);
    if !bytes.is_empty() {
        pending.push(Pending {
            prefix: 0,
            edge: &[],
            offset: 0,
        })?;
    }
    Ok(Walk {
        bytes,
        marks: vec![in alloc; false; bytes.len()]?,
        name: Vec::new(alloc),
        pending,
        exports: Vec::new(alloc),
        size: 0,
    })
}

/// All exports of a trie, in bytewise order of their names; none where it has no bytes. The format is that of
/// the export information of `LC_DYLD_INFO` in Apple's `mach-o/loader.h` (`EXPORT_SYMBOL_FLAGS_*`).
///
/// A node is read whole and then its children in spelled order. `Broken` has the first rule that is broken,
/// and the offset in the trie of the node that breaks it:
///
/// - `TrieBadUleb`: a number has no end, or more than 64 bits.
/// - `TrieEnded`: the node ends past the trie, or a child begins past it.
/// - `TrieNodeTwice`: the node is reached a second time.
/// - `TrieSiblingsClash`: two edges begin with the same byte.
/// - `TrieBadFlags`: the flags have a bit above 0x10, or a kind that is none or doesn't go with 0x08.
/// - `TrieResolver`: the flags have 0x10, a stub and its resolver.
/// - `TrieBadNode`: what is read of a terminal is longer than the terminal, an edge is empty, or a name has
///   more than `NAME_LIMIT` bytes.
/// - `TrieTooManyNames`: there are more than `RECORD_LIMIT` exports, or their names and the names that
///   re-exports have there come to more than `EXPORT_NAMES_LIMIT` bytes.
///
/// `Memory` says that memory ran out.
pub fn read_trie(alloc: Global, bytes: &[u8]) -> Result<Vec<Export>, Fault>
    // By the trie's tree, and by its paths.
    ensures exports { IfOk result (λ exports. exports.items ≡ exports_of bytes.now) }
    ensures paths { IfOk result (λ exports. AreExports bytes.now exports.items) }
    ensures writable { IfOk result (λ exports. IsWritable exports.items) }
    ensures refuses { Refuses (trie_break bytes.now) result }
{
    let mut exports = walk_all(alloc, bytes)?;
    exports.sort_by(|a, b| a.name.cmp(&b.name))?;
    Ok(exports)
}
