// A cache of one dylib, made by hand, against the dylib and others.
use crate::{Difference, Seen, Verdict, check};
use dsc_base::SetFault;
use sample_dylibs::{bytes_with, data_dylib, put_numbers};
use std::alloc::Global;
use std::test::*;

const SIZE: usize = 0x5000;

/// The numbers of four bytes in the cache, each with its place; all others are 0.
const CACHE: [(usize, u32); 97] = [
    // "dyld_v1  x86_64", the mapping table and the image table with their counts
    (0x0, 0x646c7964),
    (0x4, 0x2031765f),
    (0x8, 0x36387820),
    (0xc, 0x34365f),
    (0x10, 0xf8),
    (0x14, 3),
    (0x18, 0x158),
    (0x1c, 1),
    // slide information and the greatest slide
    (0x38, 0x3000),
    (0x40, 0x2a),
    (0xf0, 0xdfdfb000),
    // the mappings
    (0xf8, 0x20000000),
    (0xfc, 0x7fff),
    (0x100, 0x2000),
    (0x110, 5),
    (0x114, 5),
    (0x118, 0x20002000),
    (0x11c, 0x7fff),
    (0x120, 0x1000),
    (0x128, 0x2000),
    (0x130, 3),
    (0x134, 3),
    (0x138, 0x20003000),
    (0x13c, 0x7fff),
    (0x140, 0x2000),
    (0x148, 0x3000),
    (0x150, 1),
    (0x154, 1),
    // the image and its path, "/a.dylib"
    (0x158, 0x20001000),
    (0x15c, 0x7fff),
    (0x170, 0x178),
    (0x178, 0x642e612f),
    (0x17c, 0x62696c79),
    // its header, `__TEXT` and `__text`
    (0x1000, 0xfeedfacf),
    (0x1004, 0x1000007),
    (0x1008, 3),
    (0x100c, 6),
    (0x1010, 5),
    (0x1014, 0x1d0),
    (0x1018, 0x80000080),
    (0x1020, 0x19),
    (0x1024, 0x98),
    (0x1028, 0x45545f5f),
    (0x102c, 0x5458),
    (0x1038, 0x20001000),
    (0x103c, 0x7fff),
    (0x1040, 0x1000),
    (0x1048, 0x1000),
    (0x1050, 0x1000),
    (0x1058, 5),
    (0x105c, 5),
    (0x1060, 1),
    (0x1068, 0x65745f5f),
    (0x106c, 0x7478),
    (0x1088, 0x20001400),
    (0x108c, 0x7fff),
    (0x1090, 0x800),
    (0x1098, 0x1400),
    // `__DATA` and `__data`
    (0x10b8, 0x19),
    (0x10bc, 0x98),
    (0x10c0, 0x41445f5f),
    (0x10c4, 0x4154),
    (0x10d0, 0x20002000),
    (0x10d4, 0x7fff),
    (0x10d8, 0x1000),
    (0x10e0, 0x2000),
    (0x10e8, 0x1000),
    (0x10f0, 3),
    (0x10f4, 3),
    (0x10f8, 1),
    (0x1100, 0x61645f5f),
    (0x1104, 0x6174),
    (0x1120, 0x20002000),
    (0x1124, 0x7fff),
    (0x1128, 0x1000),
    (0x1130, 0x2000),
    // `__LINKEDIT`, LC_ID_DYLIB and LC_DYLD_INFO_ONLY
    (0x1150, 0x19),
    (0x1154, 0x48),
    (0x1158, 0x494c5f5f),
    (0x115c, 0x44454b4e),
    (0x1160, 0x5449),
    (0x1168, 0x20004000),
    (0x116c, 0x7fff),
    (0x1170, 0x1000),
    (0x1178, 0x4000),
    (0x1180, 0x1000),
    (0x1188, 1),
    (0x118c, 1),
    (0x1198, 0xd),
    (0x119c, 0x28),
    (0x11a0, 0x18),
    (0x11b0, 0x642e612f),
    (0x11b4, 0x62696c79),
    (0x11c0, 0x80000022),
    (0x11c4, 0x30),
    // the word, which leads 0x20 bytes into `__DATA`
    (0x2010, 0x20002020),
    (0x2014, 0x7fff),
];

/// Slide information: version 2, pages of 4096 bytes, one start and no extras, the mask, and the start.
const SLIDES: [(usize, u32); 7] = [
    (0x3000, 2),
    (0x3004, 0x1000),
    (0x3008, 40),
    (0x300c, 1),
    (0x3010, 42),
    (0x301c, 0xffff0000),
    (0x3028, 4),
];

/// What makes the dylib another one, "/b.dylib".
const OTHER: &[(usize, u32)] = &[(0x1b0, 0x642e622f)];

/// What makes its word at 0x1018 bound to a symbol of "/z.dylib", which may be missing, and so the number 0.
const WEAK: &[(usize, u32)] = &[
    (0x10, 0x7),
    (0x14, 0x208),
    (0x1d0, 0x2010),
    (0x1d4, 0xa),
    // LC_LOAD_WEAK_DYLIB
    (0x200, 0x80000018),
    (0x204, 0x28),
    (0x208, 0x18),
    (0x218, 0x642e7a2f),
    (0x21c, 0x62696c79),
    // ordinal 1, `_g`, weak, a pointer, 0x18 bytes into segment 1, one bind
    (0x2010, 0x675f4111),
    (0x2014, 0x18715100),
    (0x2018, 0x90),
];

/// What makes the four bytes at 0x800 a difference to `__data`.
const DELTA: &[(usize, u32)] = &[
    (0x800, 0x80c),
    (0x1fc, 0xb),
    (0x2008, 0x201017f),
    (0x200c, 0x3011001),
    (0x2010, 0x88001),
];

/// What makes it export `_b` 0x800 bytes into `__DATA`.
const EXPORT: &[(usize, u32)] = &[
    (0x1e8, 0x2010),
    (0x1ec, 0xb),
    (0x2010, 0x625f0100),
    (0x2014, 0x30600),
    (0x2018, 0x3080),
];

/// What is told, but for names and exports.
#[derive(Clone, Copy, Debug, PartialEq, Eq)]
enum Told {
    Agrees,
    Images(u32, u32),
    Path(u32),
    Shape(u32, u32, u128, u128),
    Bytes(u32, u32, u64, Seen, Seen),
    Export(u32, u32),
    Broken(u16, u32, u64),
    Refused(u16, u32, u64),
    Memory,
}

use Seen::{Address, Number};

/// Edits of the cache, the files by what they are besides the dylib, and what is told.
const CASES: [(&[(usize, u32)], &[&[(usize, u32)]], Told); 26] = [
    // the dylib itself, another one, and one more
    (&[], &[&[]], Told::Agrees),
    (&[], &[OTHER], Told::Path(0)),
    (&[], &[&[], OTHER], Told::Images(1, 2)),
    // the word on no chain, and with another address
    (
        &[(0x3028, 0x4000)],
        &[&[]],
        Told::Bytes(0, 2, 0x10, Number(0x7fff20002020), Address(0x7fff20002020)),
    ),
    (
        &[(0x2010, 0x20002024)],
        &[&[]],
        Told::Bytes(0, 2, 0x10, Address(0x7fff20002024), Address(0x7fff20002020)),
    ),
    // its chain leaves the page; no cache at all
    (&[(0x2014, 0xffff7fff)], &[&[]], Told::Broken(210, 0, 0x10)),
    (&[(0x0, 0)], &[OTHER], Told::Broken(202, 0, 0)),
    // another byte, alone and before a word that differs
    (
        &[(0x1500, 1)],
        &[&[]],
        Told::Bytes(0, 1, 0x100, Number(1), Number(0)),
    ),
    (
        &[(0x1500, 0x100), (0x3028, 0x4000)],
        &[&[]],
        Told::Bytes(0, 1, 0x101, Number(1), Number(0)),
    ),
    // a byte in no section
    (&[(0x1d00, 1)], &[&[]], Told::Agrees),
    // a word that slides elsewhere, and one that has four bytes of the file's word
    (
        &[(0x2014, 0x47fff), (0x2020, 0x20002000), (0x2024, 0x7fff)],
        &[&[]],
        Told::Bytes(0, 2, 0x20, Address(0x7fff20002000), Number(0)),
    ),
    (
        &[(0x3028, 3), (0x200c, 0x20002000), (0x2010, 0x2020)],
        &[&[]],
        Told::Bytes(0, 2, 0xc, Address(0x202020002000), Number(0x102000000000)),
    ),
    // a section that is longer, and one with another name
    (&[(0x1090, 0x808)], &[&[]], Told::Shape(0, 7, 0x808, 0x800)),
    (
        &[(0x1104, 0x6274)],
        &[&[]],
        Told::Shape(
            0,
            12,
            0x5f5f64617462_00000000000000000000,
            0x5f5f64617461_00000000000000000000,
        ),
    ),
    // a word that is a number: that number, another one, and an address
    (&[], &[WEAK], Told::Agrees),
    (
        &[(0x2018, 5)],
        &[WEAK],
        Told::Bytes(0, 2, 0x18, Number(5), Number(0)),
    ),
    (
        &[(0x2014, 0x27fff), (0x2018, 0x20002000), (0x201c, 0x7fff)],
        &[WEAK],
        Told::Bytes(0, 2, 0x18, Address(0x7fff20002000), Number(0)),
    ),
    // a difference: the same, another one, and one below zero
    (&[(0x1800, 0x80c)], &[DELTA], Told::Agrees),
    (
        &[(0x1800, 0x80d)],
        &[DELTA],
        Told::Bytes(0, 1, 0x400, Number(0x80d), Number(0x80c)),
    ),
    (
        &[(0x1800, 0xffffffff)],
        &[DELTA],
        Told::Bytes(0, 1, 0x400, Number(0xffffffffffffffff), Number(0x80c)),
    ),
    // an export that is missing, the same one, another offset, and a byte before it
    (&[], &[EXPORT], Told::Export(0, 0)),
    (
        &[
            (0x11e8, 0x4000),
            (0x11ec, 0xb),
            (0x4000, 0x625f0100),
            (0x4004, 0x30600),
            (0x4008, 0x3080),
        ],
        &[EXPORT],
        Told::Agrees,
    ),
    (
        &[
            (0x11e8, 0x4000),
            (0x11ec, 0xb),
            (0x4000, 0x625f0100),
            (0x4004, 0x30600),
            (0x4008, 0x3081),
        ],
        &[EXPORT],
        Told::Export(0, 0),
    ),
    (
        &[(0x1bfc, 1)],
        &[EXPORT],
        Told::Bytes(0, 1, 0x7fc, Number(1), Number(0)),
    ),
    // files that break a rule go before what is wrong with the cache
    (
        &[(0x0, 0)],
        &[&[(0x1f0, 0x80000034)]],
        Told::Refused(7, 0, 0x1f0),
    ),
    (&[], &[&[], &[]], Told::Refused(121, 1, 0)),
];

fn told_of(difference: &Difference) -> Told {
    match difference {
        Difference::Images { found, wanted } => Told::Images(*found, *wanted),
        Difference::Path { image, .. } => Told::Path(*image),
        Difference::Shape {
            image,
            part,
            found,
            wanted,
        } => Told::Shape(*image, *part, *found, *wanted),
        Difference::Bytes {
            image,
            section,
            offset,
            found,
            wanted,
        } => Told::Bytes(*image, *section, *offset, *found, *wanted),
        Difference::Export { image, index, .. } => Told::Export(*image, *index),
    }
}

fn shown(answer: &Result<Verdict, SetFault>) -> Told {
    match answer {
        Ok(Verdict::Agrees) => Told::Agrees,
        Ok(Verdict::Differs(difference)) => told_of(difference),
        Ok(Verdict::Broken(finding)) => {
            Told::Broken(finding.kind.number(), finding.image, finding.at)
        }
        Err(SetFault::Broken(broken)) => {
            Told::Refused(broken.rule.number(), broken.image, broken.at)
        }
        Err(SetFault::Memory) => Told::Memory,
    }
}

fn cache_with(alloc: Global, edits: &[(usize, u32)]) -> Result<Vec<u8>, Fail> {
    let mut cache = bytes_with(alloc, SIZE, &CACHE)?;
    put_numbers(&mut cache, &SLIDES);
    put_numbers(&mut cache, edits);
    Ok(cache)
}

fn files_with(alloc: Global, files: &[&[(usize, u32)]]) -> Result<Vec<Vec<u8>>, Fail> {
    let mut all = Vec::new(alloc);
    for edits in files {
        let mut file = data_dylib(alloc, 0x2040)?;
        put_numbers(&mut file, edits);
        all.push(file)?;
    }
    Ok(all)
}

fn answer_to(
    alloc: Global,
    edits: &[(usize, u32)],
    files: &[&[(usize, u32)]],
) -> Result<Result<Verdict, SetFault>, Fail> {
    let cache = cache_with(alloc, edits)?;
    let files = files_with(alloc, files)?;
    if files.len() > 4096 {
        return Err("few files")?;
    }
    Ok(check(alloc, &cache, &files))
}

#[test]
fn checks(rt: HostRuntime) -> Result<(), Fail> {
    let alloc = rt.alloc();
    for (number, (edits, files, wanted)) in CASES.iter().enumerate() {
        let answer = answer_to(alloc, edits, files)?;
        assert_eq!(rt; shown(&answer), *wanted, "case {number}");
    }
    Ok(())
}
