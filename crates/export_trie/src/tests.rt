// Rows of tries by hand: what is refused and where, and what is read, found and written.
ghost use Rattle.std.specs.Prelude.{◌≡◌};

use crate::{Entry, Found, NameIndex, Steps, find, read_trie, trie_len, write_trie};
use dsc_base::{Fault, Rule};
use std::alloc::Global;
use std::marker::Brand;
use std::process::Abort;
use std::sync::ledger::{Blank, Ledger};
use std::test::Fail;

/// A trie that is accepted, what it has of a name, and the trie that is written of its exports.
#[derive(Clone, Copy)]
struct Row<'r> {
    trie: &'r [u8],
    name: &'r [u8],
    found: Found<'r>,
    written: &'r [u8],
}

fn entry_in(found: Found<'_>) -> Option<Entry<'_>> {
    match found {
        Found::Offset(value) => Some(Entry::Offset(value)),
        Found::Absolute(value) => Some(Entry::Absolute(value)),
        Found::Reexport { ordinal, name } => Some(Entry::Reexport { ordinal, name }),
        Found::Absent => None,
    }
}

fn is_shared<T: Send + Sync>(_value: &T) {}

fn accepted<L: Ledger>(
    rt: &impl Abort,
    alloc: Global,
    steps: &mut Steps<L>,
    row: Row<'_>,
) -> Result<(), Fail> {
    let Row {
        trie,
        name,
        found,
        written,
    } = row;
    let Ok(exports) = read_trie(alloc, trie) else {
        assert!(rt; false, "refused, or no memory, in {trie:?}");
        return Ok(());
    };
    assert!(rt; find(trie, name) == found, "in {trie:?}");
    let mut index = NameIndex::new(alloc);
    is_shared(&index);
    index.add(trie)?;
    let probed = index.probe(0, name, steps);
    assert!(rt; probed == entry_in(found), "in {trie:?}");
    assert!(rt;
        trie_len(alloc, &exports)? == written.len() as u64,
        "of {trie:?}"
    );
    assert!(rt;
        write_trie(alloc, &exports)?.as_slice() == written,
        "of {trie:?}"
    );
    Ok(())
}

/// The trie is refused by this rule at this node.
fn refused(rt: &impl Abort, alloc: Global, bytes: &[u8], rule: Rule, at: u64) {
    match read_trie(alloc, bytes) {
        Err(Fault::Broken(site)) => {
            assert_eq!(rt; site.rule, rule, "in {bytes:?}");
            assert_eq!(rt; site.at, at, "in {bytes:?}");
        }
        _ => assert!(rt; false, "accepted, or no memory, in {bytes:?}"),
    }
}

fn all_accepted<L: Ledger>(rt: &impl Abort, alloc: Global, blank: Blank) -> Result<(), Fail>
    requires name { blank.name ≡ L.name }
    requires parts { blank.parts ≡ L.parts }
    requires one { blank.parts ≡ 1 }
{
    let regular = b"\x00\x01_f\x00\x89\x80\x80\x00\x03\x00\x80\x0a\x00";
    let absolute = b"\x00\x01_k\x00\x89\x80\x80\x00\x03\x02\xb4\x24\x00";
    let two =
        b"\x00\x01_\x00\x88\x80\x80\x00\x00\x02f\x00\x96\x80\x80\x00g\x00\x9b\x80\x80\x00\x03\x00\x80\x0a\x00\x03\x00\x80\x0c\x00";
    let rows: [(&[u8], &[u8], Found<'_>, &[u8]); 9] = [
        (regular, b"_f", Found::Offset(0x500), regular),
        (regular, b"_", Found::Absent, regular),
        (regular, b"_fx", Found::Absent, regular),
        (absolute, b"_k", Found::Absolute(0x1234), absolute),
        (two, b"_f", Found::Offset(0x500), two),
        (two, b"_g", Found::Offset(0x600), two),
        (two, b"_", Found::Absent, two),
        (
            b"\x00\x01_r\x00\x06\x05\x08\x01_x\x00\x00",
            b"_r",
            Found::Reexport {
                ordinal: 1,
                name: b"_x",
            },
            b"\x00\x01_r\x00\x89\x80\x80\x00\x05\x08\x01_x\x00\x00",
        ),
        (b"", b"_r", Found::Absent, b""),
    ];
    let mut steps = Steps::<L>::new(blank);
    for (trie, name, found, written) in rows {
        let row = Row {
            trie,
            name,
            found,
            written,
        };
        accepted(rt, alloc, &mut steps, row)?;
    }
    Ok(())
}

#[test]
fn tries(rt: HostRuntime) -> Result<(), Fail> {
    let alloc = rt.alloc();
    let broken: [(&[u8], Rule, u64); 13] = [
        (b"\x00\x01_f\x00\x00", Rule::TrieNodeTwice, 0),
        (b"\x00\x01_\x00\x09", Rule::TrieEnded, 0),
        (b"\x00\x01_\x00\x05\x00\x01a\x00\x40", Rule::TrieEnded, 5),
        (b"\x80", Rule::TrieBadUleb, 0),
        (b"\x05\x00", Rule::TrieEnded, 0),
        (b"\x00", Rule::TrieEnded, 0),
        (b"\x00\x01_", Rule::TrieEnded, 0),
        (b"\x00\x01\x00\x05\x00\x00", Rule::TrieBadNode, 0),
        (
            b"\x00\x02_\x00\x09_a\x00\x09\x00\x00",
            Rule::TrieSiblingsClash,
            0,
        ),
        (b"\x02\x20\x00\x00", Rule::TrieBadFlags, 0),
        (b"\x02\x10\x00\x00", Rule::TrieResolver, 0),
        (b"\x01\x00\x05\x00", Rule::TrieBadNode, 0),
        (b"\x00\x01_\x00\x05\x02\x20\x00\x00", Rule::TrieBadFlags, 5),
    ];
    for (bytes, rule, at) in broken {
        refused(&rt, alloc, bytes, rule, at);
    }
    all_accepted::<Brand>(&rt, alloc, Blank::new(1))
}
