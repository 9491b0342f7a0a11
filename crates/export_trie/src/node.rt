// One node of a trie: its terminal and its children, or the first rule that it breaks.
ghost use Rattle.std.specs.Prelude.{◌≡◌, ◌<◌, ◌≤◌, ◌^◌, ◌+◌, ℕ, List, length, IfOk, if◌then◌else◌, Result, Ok, Err};
ghost use Rattle.export_trie.specs.declared.node.ReadFault.TheVariants as faults;
ghost use Rattle.dsc_base.specs.declared.rule.Rule.TheVariants.{TrieBadFlags, TrieResolver};
ghost use Rattle.export_trie.specs.Nodes.{number_at, text_at, target_at, terminal_at, head_at, child_at, are_bad_flags, is_resolver};
ghost use Rattle.export_trie.specs.Finding.{target_in};
ghost use Rattle.export_trie.specs.Reading.{Reads, fault_at, Marks, terminal_in, some_terminal_in};

use crate::export::Entry;
use dsc_base::{Fault, NAME_LIMIT, NoMemory, Rule, Site, read_uleb};
use memchr::memchr;
use std::alloc::{AllocError, AllocFailed};

/// The bits of an export's flags: the kind, and two flags.
const KIND_MASK: u64 = 0x03;

const REEXPORT: u64 = 0x08;

const STUB_AND_RESOLVER: u64 = 0x10;

/// The kind of a value that is the same at every address, and a number that is no kind.
const ABSOLUTE: u64 = 2;

const NO_KIND: u64 = 3;

/// What stands at a node that ends a name.
#[derive(Clone, Copy)]
pub(crate) struct Terminal<'a> {
    pub(crate) flags: u8,
    pub(crate) target: Entry<'a>,
}

/// Why a node was not read.
#[derive(Clone, Copy)]
pub(crate) enum ReadFault {
    Broken(Rule),
    Memory,
}

impl ReadFault {
    /// The fault of the node at this offset.
    pub(crate) fn at(self, offset: usize) -> Fault
        ensures { result ≡ fault_at offset self }
    {
        match self {
            ReadFault::Broken(rule) => Fault::Broken(Site {
                rule,
                at: offset as u64,
            }),
            ReadFault::Memory => Fault::Memory,
        }
    }
}

impl From<Rule> for ReadFault {
    ghost from_gives = { λ rule e. e ≡ faults.Broken rule };

    fn from(rule: Rule) -> Self {
        ReadFault::Broken(rule)
    }
}

impl From<NoMemory> for ReadFault {
    ghost from_gives = { λ _ e. e ≡ faults.Memory };

    fn from(_: NoMemory) -> Self {
        ReadFault::Memory
    }
}

impl From<AllocError> for ReadFault {
    ghost from_gives = { λ _ e. e ≡ faults.Memory };

    fn from(_: AllocError) -> Self {
        ReadFault::Memory
    }
}

impl<T: Drop> From<AllocFailed<T>> for ReadFault {
    ghost from_gives = { λ _ e. e ≡ faults.Memory };

    fn from(_: AllocFailed<T>) -> Self {
        ReadFault::Memory
    }
}

/// A variable-length number, and the bytes after it.
#[tactic(auto, unfolding(crate::specs::Nodes::number_at))]
pub(crate) fn read_number(bytes: &[u8]) -> Result<(u64, &[u8]), Rule>
    ensures read { Reads (λ p. (p.0, p.1.now)) result (number_at bytes.now) }
    ensures shorter { IfOk result (λ p. length p.1.now ≤ length bytes.now) }
{
    match read_uleb(bytes, 0) {
        Ok((value, end)) => Ok((value, &bytes[end..])),
        Err(_) => Err(Rule::TrieBadUleb),
    }
}

/// A text up to its byte 0, and the bytes after that.
pub(crate) fn read_text(bytes: &[u8]) -> Result<(&[u8], &[u8]), Rule>
    ensures read { Reads (λ p. (p.0.now, p.1.now)) result (text_at bytes.now) }
    ensures shorter { IfOk result (λ p. length p.1.now ≤ length bytes.now) }
{
    match memchr(0, bytes) {
        Some(len) => Ok((&bytes[..len], &bytes[len + 1..])),
        None => Err(Rule::TrieEnded),
    }
}

/// The flags as they are kept, or the rule that they break.
fn kept_flags(flags: u64) -> Result<u8, Rule>
    ensures { Reads (λ kept. kept) result (if are_bad_flags flags then Err TrieBadFlags else (if is_resolver flags then Err TrieResolver else Ok flags)) }
{
    let kind = flags & KIND_MASK;
    if flags >= 32 || kind == NO_KIND || flags & REEXPORT != 0 && kind != 0 {
        return Err(Rule::TrieBadFlags);
    }
    if flags & STUB_AND_RESOLVER != 0 {
        return Err(Rule::TrieResolver);
    }
    Ok(flags as u8)
}

/// Where an export with these flags leads, and the bytes after that.
#[tactic(auto, unfolding(crate::specs::Nodes::target_at))]
fn read_entry(flags: u64, bytes: &[u8]) -> Result<(Entry<'_>, &[u8]), Rule>
    ensures read { Reads (λ p. (target_in p.0, p.1.now)) result (target_at flags bytes.now) }
    ensures shorter { IfOk result (λ p. length p.1.now ≤ length bytes.now) }
{
    let (value, rest) = read_number(bytes)?;
    if flags & REEXPORT == 0 {
        let entry = if flags & KIND_MASK == ABSOLUTE {
            Entry::Absolute(value)
        } else {
            Entry::Offset(value)
        };
        return Ok((entry, rest));
    }
    let (name, rest) = read_text(rest)?;
    if name.len() > NAME_LIMIT {
        return Err(Rule::TrieBadNode);
    }
    let entry = Entry::Reexport {
        ordinal: value,
        name,
    };
    Ok((entry, rest))
}

/// The terminal of this size at the front of the bytes.
#[tactic(auto, unfolding(crate::specs::Nodes::terminal_at))]
fn read_terminal(size: usize, bytes: &[u8]) -> Result<Terminal<'_>, Rule>
    ensures { Reads terminal_in result (terminal_at size bytes.now) }
{
    let (number, rest) = read_number(bytes)?;
    let flags = kept_flags(number)?;
    let (target, rest) = read_entry(number, rest)?;
    if bytes.len() - rest.len() > size {
        return Err(Rule::TrieBadNode);
    }
    Ok(Terminal { flags, target })
}

/// The terminal at the front of a node, if it has one, and the bytes after it, which begin with the count
/// of its children.
#[tactic(auto, unfolding(crate::specs::Nodes::head_at))]
pub(crate) fn read_head(bytes: &[u8]) -> Result<(Option<Terminal<'_>>, &[u8]), Rule>
    ensures { Reads (λ p. (some_terminal_in p.0, p.1.now)) result (head_at bytes.now) }
{
    let (size, rest) = read_number(bytes)?;
    if size > rest.len() as u64 {
        return Err(Rule::TrieEnded);
    }
    if size == 0 {
        return Ok((None, rest));
    }
    let size = size as usize;
    let terminal = read_terminal(size, rest)?;
    Ok((Some(terminal), &rest[size..]))
}
