// What `extract` makes of a cache: rows by hand.
use super::checks::{Checked, is_checked};
use super::sets::{BINDS_F, EXPORTS_F, NEEDS_B, Patches, has_bytes, two_dylibs};
use super::{LargeStore, run_line, run_words};
use crate::Status;
use dsc_base::{MemStore, Store};
use std::alloc::Global;
use std::process::Abort;
use std::test::Fail;
use std::thread::Threads;

const EXTRACTED: [Checked<'static>; 8] = [
    Checked {
        cache: &[],
        line: "extract d out",
        status: Status::Done,
        out: "extracted 1 images\n",
        err: "",
    },
    Checked {
        cache: &[],
        line: "extract --image /a.dylib d out",
        status: Status::Done,
        out: "extracted 1 images\n",
        err: "",
    },
    Checked {
        cache: &[],
        line: "extract --image /z d out",
        status: Status::Refused,
        out: "",
        err: "dsc: no such image\n",
    },
    Checked {
        cache: &[],
        line: "extract d --image= out",
        status: Status::Refused,
        out: "",
        err: "dsc: no such image\n",
    },
    // the word leads out of its page; what is found goes before the image that isn't there
    Checked {
        cache: &[(0x2016, b"\xFF\xFF")],
        line: "extract d out",
        status: Status::Refused,
        out: "",
        err: "dsc: cache broken 210 ChainLeavesPage image 0 at 0x10\n",
    },
    Checked {
        cache: &[(0x2016, b"\xFF\xFF")],
        line: "extract --image /z d out",
        status: Status::Refused,
        out: "",
        err: "dsc: cache broken 210 ChainLeavesPage image 0 at 0x10\n",
    },
    // the word leads out of its image
    Checked {
        cache: &[(0x2010, b"\0\x10\0\x30")],
        line: "extract d out",
        status: Status::Refused,
        out: "",
        err: "dsc: cache broken 220 ForeignPointer image 0 at 0x10\n",
    },
    Checked {
        cache: &[(0x0, b"D")],
        line: "extract d out",
        status: Status::Refused,
        out: "",
        err: "dsc: cache broken 202 NotCache image 0 at 0x0\n",
    },
];

/// The file of A by itself: where text, data and linkedit are, the linkedit's place and size in the file, the
/// pointer, and its rebase.
const ALONE: Patches<'static> = &[
    (0x38, b"\0\x10\0\x20\xFF\x7F\0\0"),
    (0xD0, b"\0\x20\0\x20\xFF\x7F\0\0"),
    (0x168, b"\0\0\0\0\0\x60\0\0"),
    (0x178, b"\0\x20\0\0\0\0\0\0\x09\0\0\0\0\0\0\0"),
    (0x1010, b"\x20\x20\0\x20\xFF\x7F\0\0"),
    (0x2000, b"\x11\x21\x10\x51\0"),
];

/// The file of A beside B, to whose export its lazy pointer is bound: no rebase, and the lazy stream.
const BOUND: Patches<'static> = &[
    (0x1CC, b"\0\0\0\0"),
    (0x1E0, b"\0\x20\0\0\x09\0\0\0"),
    (0x1010, b"\0\x25\0\x20\xFF\x7F\0\0"),
    (0x2000, b"\x71\x10\x11\x40_f\0\x90\0"),
];

/// The file of the image with data is put at its path behind the prefix, also where that is the cache's own name.
fn one_is_extracted<R: Threads + Sync + Abort>(rt: &R, alloc: Global) -> Result<(), Fail> {
    let mut store = two_dylibs(alloc, &[], &[])?;
    run_line(rt, alloc, "build /a.dylib A", &mut store, 99, 99)?;
    run_line(rt, alloc, "extract /a.dylib out", &mut store, 99, 99)?;
    let file = store.get(alloc, "out/a.dylib", 0x2009)?;
    assert_eq!(rt; file.len(), 0x2009);
    has_bytes(rt, &file, ALONE);
    let words = ["extract", "/a.dylib", ""];
    let answer = run_words(rt, alloc, &words, &mut store, 99, 99)?;
    assert_eq!(rt; answer.status, Status::Done);
    assert_eq!(rt; store.file("/a.dylib"), Some(file.as_slice()));
    Ok(())
}

/// Those of two images, where the put of the second one's fails after some bytes, and where it doesn't.
fn two_are_extracted<R: Threads + Sync + Abort>(rt: &R, alloc: Global) -> Result<(), Fail> {
    let mut store = two_dylibs(alloc, &[NEEDS_B, BINDS_F], EXPORTS_F)?;
    run_line(rt, alloc, "build c A B", &mut store, 99, 99)?;
    store.fail_at(2, 100)?;
    let answer = run_line(rt, alloc, "extract c out", &mut store, 99, 99)?;
    assert_eq!(rt; answer.status, Status::WriteFault);
    assert_eq!(rt; answer.out.bytes(), b"".as_slice());
    assert_eq!(rt; store.file("out/b.dylib").map(<[u8]>::len), Some(100));
    let file = store.get(alloc, "out/a.dylib", 0x3000)?;
    has_bytes(rt, &file, BOUND);
    let answer = run_line(rt, alloc, "extract c out", &mut store, 99, 99)?;
    assert_eq!(rt; answer.out.bytes(), b"extracted 2 images\n".as_slice());
    assert_eq!(rt; store.file("out/a.dylib"), Some(file.as_slice()));
    Ok(())
}

#[test]
fn images_are_extracted(rt: HostRuntime) -> Result<(), Fail> {
    let alloc = rt.alloc();
    for row in EXTRACTED {
        is_checked(&rt, alloc, &row)?;
    }
    one_is_extracted(&rt, alloc)?;
    two_are_extracted(&rt, alloc)?;
    // a cache that is too large ends the run
    let mut store = LargeStore {
        empty_files: 0,
        get_faults: 0,
    };
    let answer = run_line(&rt, alloc, "extract c out", &mut store, 99, 99)?;
    assert_eq!(rt;
        answer.err.bytes(),
        b"dsc: cache broken 201 CacheTooLarge image 0 at 0x80000000\n".as_slice()
    );
    assert_eq!(rt; answer.status, Status::Refused);
    Ok(())
}
