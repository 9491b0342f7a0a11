// What `check` tells of a cache and files: rows by hand.
use super::sets::{Patches, set_bytes, two_dylibs};
use super::{LargeStore, run_line};
use crate::Status;
use dsc_base::{MemStore, Store};
use std::alloc::Global;
use std::process::Abort;
use std::test::Fail;
use std::thread::Threads;

/// What is set in the cache of A, the words behind, how the run ends and what it prints.
#[derive(Drop, Clone, Copy)]
pub(super) struct Checked<'a> {
    pub(super) cache: Patches<'a>,
    pub(super) line: &'a str,
    pub(super) status: Status,
    pub(super) out: &'a str,
    pub(super) err: &'a str,
}

const CHECKED: [Checked<'static>; 8] = [
    Checked {
        cache: &[],
        line: "check d A",
        status: Status::Done,
        out: "agrees: 1 images\n",
        err: "",
    },
    Checked {
        cache: &[],
        line: "check d B",
        status: Status::Differs,
        out: "differs: image 0 path\n",
        err: "",
    },
    Checked {
        cache: &[],
        line: "check d A B",
        status: Status::Differs,
        out: "differs: images found 1 wanted 2\n",
        err: "",
    },
    // the page of the data has no chain
    Checked {
        cache: &[(0x3028, b"\0\x40")],
        line: "check d A",
        status: Status::Differs,
        out: "differs: image 0 section 2 offset 0x10 found number 0x7fff20002020 wanted address 0x7fff20002020\n",
        err: "",
    },
    // the word leads out of its page
    Checked {
        cache: &[(0x2016, b"\xFF\xFF")],
        line: "check d A",
        status: Status::Differs,
        out: "broken: 210 ChainLeavesPage image 0 at 0x10\n",
        err: "",
    },
    // what is no cache is found behind the files' rules, and files are read behind the cache
    Checked {
        cache: &[(0x0, b"D")],
        line: "check d A",
        status: Status::Differs,
        out: "broken: 202 NotCache image 0 at 0x0\n",
        err: "",
    },
    Checked {
        cache: &[(0x0, b"D")],
        line: "check d A A",
        status: Status::Refused,
        out: "",
        err: "dsc: refused 121 DuplicateName image 1 at 0x0\n",
    },
    Checked {
        cache: &[(0x0, b"D")],
        line: "check d A E",
        status: Status::ReadFault,
        out: "",
        err: "dsc: cannot read input 2\n",
    },
];

/// A and B, and as d the cache of A, in which bytes are set.
fn with_cache<R: Threads + Sync>(
    rt: &R,
    alloc: Global,
    patches: Patches<'_>,
) -> Result<MemStore, Fail> {
    let mut store = two_dylibs(alloc, &[], &[])?;
    run_line(rt, alloc, "build c A", &mut store, 99, 99)?;
    let mut cache = store.get(alloc, "c", 0x5000)?;
    set_bytes(&mut cache, patches);
    store.insert("d", cache)?;
    Ok(store)
}

/// A run of the row ends and prints as it says.
pub(super) fn is_checked<R: Threads + Sync + Abort>(
    rt: &R,
    alloc: Global,
    row: &Checked<'_>,
) -> Result<(), Fail> {
    let mut store = with_cache(rt, alloc, row.cache)?;
    let answer = run_line(rt, alloc, row.line, &mut store, 99, 99)?;
    assert_eq!(rt; answer.out.bytes(), row.out.as_bytes());
    assert_eq!(rt; answer.err.bytes(), row.err.as_bytes());
    assert_eq!(rt; answer.status, row.status);
    Ok(())
}

#[test]
fn a_cache_is_checked_against_files(rt: HostRuntime) -> Result<(), Fail> {
    let alloc = rt.alloc();
    for row in CHECKED {
        is_checked(&rt, alloc, &row)?;
    }
    // one that is too large is told, and ends the run
    let mut store = LargeStore {
        empty_files: 0,
        get_faults: 0,
    };
    let answer = run_line(&rt, alloc, "check c A", &mut store, 99, 99)?;
    assert_eq!(rt;
        answer.out.bytes(),
        b"broken: 201 CacheTooLarge image 0 at 0x80000000\n".as_slice()
    );
    assert_eq!(rt; answer.status, Status::Differs);
    Ok(())
}
