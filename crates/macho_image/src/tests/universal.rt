// Which part of a file is picked, of files made by a few numbers each.

use crate::pick_slice;
use sample_dylibs::bytes_with;
use std::test::*;

/// The magic of a universal file and of a dylib, and the two processors, as little-endian numbers of the
/// bytes that stand there.
const FAT: u32 = 0xbeba_feca;

const DYLIB: u32 = 0xfeed_facf;

const I386: u32 = 0x0700_0000;

const X86_64: u32 = 0x0700_0001;

/// A file's numbers of four bytes, each with its place, and its length; and what is picked: the number of
/// the rule that is broken, or 0, and the place and the length of the slice.
const FILES: [(&[(usize, u32)], usize, (u16, u64, u64)); 14] = [
    // another file, whole
    (&[(0, DYLIB)], 0x40, (0, 0, 0x40)),
    (&[(0, DYLIB)], 32, (0, 0, 32)),
    (&[(0, DYLIB)], 31, (3, 0, 0)),
    (&[], 0, (3, 0, 0)),
    (&[(0, 0xfeed_face)], 0x40, (3, 0, 0)),
    (&[(0, FAT)], 31, (3, 0, 0)),
    // an entry for i386 and then one for x86_64
    (
        &[
            (0, FAT),
            (4, 0x0200_0000),
            (8, I386),
            (16, 0x4000_0000),
            (20, 0x4000_0000),
            (28, X86_64),
            (36, 0x8000_0000),
            (40, 0x3000_0000),
            (0x80, DYLIB),
        ],
        0x100,
        (0, 0x80, 0x30),
    ),
    // two for x86_64
    (
        &[
            (0, FAT),
            (4, 0x0200_0000),
            (8, X86_64),
            (16, 0x4000_0000),
            (20, 0x4000_0000),
            (28, X86_64),
            (36, 0x8000_0000),
            (40, 0x3000_0000),
            (0x40, DYLIB),
        ],
        0x100,
        (0, 0x40, 0x40),
    ),
    // one for i386 alone
    (
        &[
            (0, FAT),
            (4, 0x0100_0000),
            (8, I386),
            (16, 0x4000_0000),
            (20, 0x4000_0000),
            (0x40, DYLIB),
        ],
        0x100,
        (4, 0, 0),
    ),
    // a table that ends past the file
    (
        &[
            (0, FAT),
            (4, 0x0d00_0000),
            (8, X86_64),
            (16, 0x4000_0000),
            (20, 0x4000_0000),
            (0x40, DYLIB),
        ],
        0x100,
        (4, 0, 0),
    ),
    // parts that end with the file, and past it
    (
        &[
            (0, FAT),
            (4, 0x0100_0000),
            (8, X86_64),
            (16, 0x4000_0000),
            (20, 0xc000_0000),
            (0x40, DYLIB),
        ],
        0x100,
        (0, 0x40, 0xc0),
    ),
    (
        &[
            (0, FAT),
            (4, 0x0100_0000),
            (8, X86_64),
            (16, 0x4000_0000),
            (20, 0xc100_0000),
            (0x40, DYLIB),
        ],
        0x100,
        (4, 0, 0),
    ),
    // a part with another magic, and one that is too short
    (
        &[
            (0, FAT),
            (4, 0x0100_0000),
            (8, X86_64),
            (16, 0x4000_0000),
            (20, 0x4000_0000),
            (0x40, FAT),
        ],
        0x100,
        (3, 0, 0),
    ),
    (
        &[
            (0, FAT),
            (4, 0x0100_0000),
            (8, X86_64),
            (16, 0x4000_0000),
            (20, 0x1f00_0000),
            (0x40, DYLIB),
        ],
        0x100,
        (3, 0, 0),
    ),
];

fn picked(file: &[u8]) -> (u16, u64, u64) {
    match pick_slice(file) {
        Ok(slice) => (0, slice.at, slice.len),
        Err(site) => (site.rule.number(), site.at, 0),
    }
}

#[test]
fn slices(rt: HostRuntime) -> Result<(), Fail> {
    let alloc = rt.alloc();
    for (numbers, len, slice) in FILES {
        let file = bytes_with(alloc, len, numbers)?;
        assert_eq!(rt; picked(&file), slice, "{len} bytes, {slice:?}");
    }
    Ok(())
}
