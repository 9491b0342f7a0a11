// Dylibs that export, bind and refer to each other, and what their cache has: rows by hand.
use super::run_line;
use crate::tests::dylibs::data_dylib;
use dsc_base::{MemStore, Store};
use std::alloc::Global;
use std::process::Abort;
use std::test::Fail;
use std::thread::Threads;

/// Bytes that are set in a file, each with their place.
pub(super) type Patches<'a> = &'a [(usize, &'a [u8])];

// ---- commands, in the dylib with data: the first dependency, streams of LC_DYLD_INFO_ONLY, and split-segment
// information

pub(super) const NEEDS_B: Patches<'static> = &[
    (0x10, b"\x07"),
    (0x14, b"\x08\x02"),
    (0x200, b"\x0C\0\0\0\x28\0\0\0\x18\0\0\0"),
    (0x218, b"/b.dylib"),
];

const NEEDS_Z: Patches<'static> = &[
    (0x10, b"\x07"),
    (0x14, b"\x08\x02"),
    (0x200, b"\x0C\0\0\0\x28\0\0\0\x18\0\0\0"),
    (0x218, b"/z.dylib"),
];

const NEEDS_Z_WEAKLY: Patches<'static> = &[
    (0x10, b"\x07"),
    (0x14, b"\x08\x02"),
    (0x200, b"\x18\0\0\x80\x28\0\0\0\x18\0\0\0"),
    (0x218, b"/z.dylib"),
];

/// `_f` at 0x500, `_d` at 0x1010, and `_k` with the value 0x1234.
pub(super) const EXPORTS_F: Patches<'static> = &[
    (0x1E8, b"\x10\x20\0\0\x0B\0\0\0"),
    (0x2010, b"\0\x01_f\0\x06\x03\0\x80\x0A\0"),
];

const EXPORTS_D: Patches<'static> = &[
    (0x1E8, b"\x10\x20\0\0\x0B\0\0\0"),
    (0x2010, b"\0\x01_d\0\x06\x03\0\x90\x20\0"),
];

const EXPORTS_K: Patches<'static> = &[
    (0x1E8, b"\x10\x20\0\0\x0B\0\0\0"),
    (0x2010, b"\0\x01_k\0\x06\x03\x02\xB4\x24\0"),
];

/// A lazy pointer at 0x10 of the data, bound to `_f` of the first dependency; the same, and a second one at 0x18.
pub(super) const BINDS_F: Patches<'static> = &[
    (0x1E0, b"\x10\x20\0\0\x09\0\0\0"),
    (0x1010, b"\x40\x04"),
    (0x2010, b"\x71\x10\x11\x40_f\0\x90\0"),
];

const BINDS_F_TWICE: Patches<'static> = &[
    (0x1E0, b"\x10\x20\0\0\x11\0\0\0"),
    (0x1010, b"\x40\x04"),
    (0x2010, b"\x71\x10\x11\x40_f\0\x90\0\x71\x18\x40_f\0\x90\0"),
];

const BINDS_ACROSS_A_REBASE: Patches<'static> = &[
    (0x1E0, b"\x10\x20\0\0\x09\0\0\0"),
    (0x2010, b"\x71\x14\x11\x40_f\0\x90\0"),
];

/// A pointer at 0x18 of the data, bound to `_g`, weakly or not, and to one byte before `_k`.
const BINDS_G_WEAKLY: Patches<'static> = &[
    (0x1D0, b"\x10\x20\0\0\x0A\0\0\0"),
    (0x2010, b"\x11\x41_g\0\x51\x71\x18\x90\0"),
];

const BINDS_G: Patches<'static> = &[
    (0x1D0, b"\x10\x20\0\0\x0A\0\0\0"),
    (0x2010, b"\x11\x40_g\0\x51\x71\x18\x90\0"),
];

const BINDS_BEFORE_K: Patches<'static> = &[
    (0x1D0, b"\x10\x20\0\0\x0B\0\0\0"),
    (0x2010, b"\x11\x40_k\0\x60\x7F\x71\x18\x90\0"),
];

/// A difference of 4 bytes at 0x800 to 0x10 of the data, alone and with one of 8 bytes behind it; an offset from
/// the header; and a pointer to the end of a text section of 0xC00 bytes.
const DELTA: Patches<'static> = &[
    (0x1FC, b"\x0B"),
    (0x2008, b"\x7F\x01\x01\x02\x01\x10\x01\x03\x01\x80\x08"),
];

const TWO_KINDS: Patches<'static> = &[
    (0x1FC, b"\x0F"),
    (0x800, b"\x0C\x08\0\0\0\0\0\0\0\x08"),
    (
        0x2008,
        b"\x7F\x01\x01\x02\x01\x10\x02\x03\x01\x80\x08\x04\x01\x88\x08",
    ),
];

const IMAGE_OFFSET: Patches<'static> = &[
    (0x1FC, b"\x0B"),
    (0x800, b"\x10\x10"),
    (0x2008, b"\x7F\x01\x01\x02\x01\x10\x01\x0C\x01\x80\x08"),
];

const POINTS_TO_THE_END: Patches<'static> = &[
    (0x90, b"\0\x0C"),
    (0x1FC, b"\x0B"),
    (0x1010, b"\0\x10"),
    (0x2008, b"\x7F\x01\x02\x01\x01\x80\x18\x01\x02\x01\x10"),
];

const POINTS_WITHOUT_A_REBASE: Patches<'static> = &[
    (0x1FC, b"\x0A"),
    (0x2008, b"\x7F\x01\x02\x01\x01\x10\x01\x02\x01\x18"),
];

// ---- what is built: what is set in A and in B, the words, the line that is printed, and bytes of the cache
#[derive(Drop, Clone, Copy)]
struct Built<'a> {
    a: &'a [Patches<'a>],
    b: Patches<'a>,
    line: &'a str,
    out: &'a str,
    bytes: Patches<'a>,
}

const BUILT: [Built<'static>; 10] = [
    // an export moves with its segment
    Built {
        a: &[],
        b: EXPORTS_D,
        line: "build c A B",
        out: "built 2 images, span 0x7000\n",
        bytes: &[(0x6000, b"\0\x01_d\0\x89\x80\x80\0\x03\0\x90\x40\0")],
    },
    // a weak dependency may be missing
    Built {
        a: &[NEEDS_Z_WEAKLY],
        b: &[],
        line: "build c A",
        out: "built 1 images, span 0x5000\n",
        bytes: &[],
    },
    // differences and an offset, by where both ends go
    Built {
        a: &[DELTA, &[(0x800, b"\x0C\x08")]],
        b: &[],
        line: "build c A B",
        out: "built 2 images, span 0x7000\n",
        bytes: &[(0x1800, b"\x0C\x18\0\0")],
    },
    Built {
        a: &[TWO_KINDS],
        b: &[],
        line: "build c A B",
        out: "built 2 images, span 0x7000\n",
        bytes: &[(0x1800, b"\x0C\x18\0\0\0\0\0\0\0\x18\0\0\0\0\0\0")],
    },
    Built {
        a: &[IMAGE_OFFSET],
        b: &[],
        line: "build c A B",
        out: "built 2 images, span 0x7000\n",
        bytes: &[(0x1800, b"\x10\x20\0\0")],
    },
    // a pointer that is recorded as one into the text stays at its end
    Built {
        a: &[POINTS_TO_THE_END],
        b: &[],
        line: "build c A B",
        out: "built 2 images, span 0x7000\n",
        bytes: &[(0x3010, b"\0\x20\0\x20\xFF\x7F\0\0")],
    },
    // lazy pointers lead to the export, on a chain; the streams are in the linkedit
    Built {
        a: &[NEEDS_B, BINDS_F],
        b: EXPORTS_F,
        line: "build c A B",
        out: "built 2 images, span 0x7000\n",
        bytes: &[
            (0x3010, b"\0\x25\0\x20\xFF\x7F\0\0"),
            (0x4010, b"\x20\x40\0\x20\xFF\x7F\0\0"),
            (0x6000, b"\x71\x10\x11\x40_f\0\x90\0"),
            (0x6010, b"\0\x01_f\0\x89\x80\x80\0\x03\0\x80\x0A\0"),
        ],
    },
    Built {
        a: &[NEEDS_B, BINDS_F_TWICE],
        b: EXPORTS_F,
        line: "build c A B",
        out: "built 2 images, span 0x7000\n",
        bytes: &[(
            0x3010,
            b"\0\x25\0\x20\xFF\x7F\x02\0\0\x25\0\x20\xFF\x7F\0\0",
        )],
    },
    // an absent weak symbol is 0, and an absolute one its value, on no chain
    Built {
        a: &[NEEDS_B, BINDS_G_WEAKLY],
        b: &[],
        line: "build c A B",
        out: "built 2 images, span 0x7000\n",
        bytes: &[(0x3010, b"\x20\x30\0\x20\xFF\x7F\0\0\0\0\0\0\0\0\0\0")],
    },
    Built {
        a: &[NEEDS_B, BINDS_BEFORE_K],
        b: EXPORTS_K,
        line: "build c A B",
        out: "built 2 images, span 0x7000\n",
        bytes: &[(0x3010, b"\x20\x30\0\x20\xFF\x7F\0\0\x33\x12\0\0\0\0\0\0")],
    },
];

/// What is set in A, and the rule that it breaks, beside a B that exports nothing.
const BROKEN: [(&[Patches<'static>], &str); 7] = [
    (
        &[&[
            (0x1E8, b"\x10\x20\0\0\x06\0\0\0"),
            (0x2010, b"\0\x01_f\0\0"),
        ]],
        "93 TrieNodeTwice image 0 at 0x0",
    ),
    (&[&[(0x1F0, b"\x1D")]], "101 NoSplitInfo image 0 at 0x0"),
    (
        &[POINTS_WITHOUT_A_REBASE],
        "107 SplitPointerNotRebased image 0 at 0x9",
    ),
    (
        &[NEEDS_B, BINDS_ACROSS_A_REBASE],
        "82 WordsOverlap image 0 at 0x1010",
    ),
    (&[NEEDS_Z], "123 MissingDependency image 0 at 0x1"),
    (&[NEEDS_B, BINDS_G], "133 UnresolvedSymbol image 0 at 0x0"),
    (
        &[DELTA, &[(0x800, b"\xFF\xFF\xFF\x7F")]],
        "151 DeltaOutOfRange image 0 at 0x0",
    ),
];

/// Sets the bytes where they lie inside.
pub(super) fn set_bytes(file: &mut [u8], patches: Patches<'_>) {
    for (at, bytes) in patches {
        if *at <= file.len() && file.len() - *at >= bytes.len() {
            file[*at..*at + bytes.len()].copy_from_slice(bytes);
        }
    }
}

/// These bytes stand in the cache.
pub(super) fn has_bytes<R: Abort>(rt: &R, cache: &[u8], wanted: Patches<'_>) {
    for (at, bytes) in wanted {
        let found = cache.get(*at..at.saturating_add(bytes.len()));
        assert_eq!(rt; found, Some(*bytes), "at {at:x}");
    }
}

/// A store with A, in which bytes are set, and B.
pub(super) fn two_dylibs(
    alloc: Global,
    own: &[Patches<'_>],
    other: Patches<'_>,
) -> Result<MemStore, Fail> {
    let mut store = MemStore::new(alloc);
    let mut first = data_dylib(alloc, 0x1000)?;
    for patches in own {
        set_bytes(&mut first, *patches);
    }
    store.insert("A", first)?;
    let mut second = data_dylib(alloc, 0x1000)?;
    set_bytes(&mut second, &[(0x1B0, b"/b.dylib")]);
    set_bytes(&mut second, other);
    store.insert("B", second)?;
    Ok(store)
}

#[test]
fn dylibs_that_name_each_other_are_built(rt: HostRuntime) -> Result<(), Fail> {
    let alloc = rt.alloc();
    for row in BUILT {
        let mut store = two_dylibs(alloc, row.a, row.b)?;
        let answer = run_line(&rt, alloc, row.line, &mut store, 99, 99)?;
        assert_eq!(rt; answer.err.bytes(), b"".as_slice());
        assert_eq!(rt; answer.out.bytes(), row.out.as_bytes());
        let cache = store.get(alloc, "c", 0x7000)?;
        has_bytes(&rt, &cache, row.bytes);
    }
    for (own, want) in BROKEN {
        let mut store = two_dylibs(alloc, own, &[])?;
        let answer = run_line(&rt, alloc, "build c A B", &mut store, 99, 99)?;
        let text = format!(in alloc; "dsc: refused {want}\n")?;
        assert_eq!(rt; answer.err.bytes(), text.as_bytes());
        assert_eq!(rt; store.file("c"), None, "{want}");
    }
    Ok(())
}
