// A cache of two images, made by hand: read, and with the changes that are found.
mod rows;

use super::*;
use dsc_base::{ViewFault, put_u32, read_u64};
use std::alloc::Global;
use std::test::*;

const SIZE: usize = 0x6000;

/// The numbers of four bytes in the file, each with its place; all others are 0.
const NUMBERS: [(usize, u32); 107] = [
    // "dyld_v1  x86_64", the mapping table and the image table with their counts
    (0x0, 0x646c7964),
    (0x4, 0x2031765f),
    (0x8, 0x36387820),
    (0xc, 0x34365f),
    (0x10, 0xf8),
    (0x14, 3),
    (0x18, 0x158),
    (0x1c, 2),
    // slide information and the greatest slide
    (0x38, 0x4000),
    (0x40, 0x2e),
    (0xf0, 0xdfdfa000),
    // the mappings
    (0xf8, 0x20000000),
    (0xfc, 0x7fff),
    (0x100, 0x3000),
    (0x110, 5),
    (0x114, 5),
    (0x118, 0x20003000),
    (0x11c, 0x7fff),
    (0x120, 0x1000),
    (0x128, 0x3000),
    (0x130, 3),
    (0x134, 3),
    (0x138, 0x20004000),
    (0x13c, 0x7fff),
    (0x140, 0x2000),
    (0x148, 0x4000),
    (0x150, 1),
    (0x154, 1),
    // the images and their paths, "/a.dylib" and "/b.dylib"
    (0x158, 0x20001000),
    (0x15c, 0x7fff),
    (0x170, 0x198),
    (0x178, 0x20002000),
    (0x17c, 0x7fff),
    (0x190, 0x1a4),
    (0x198, 0x642e612f),
    (0x19c, 0x62696c79),
    (0x1a4, 0x642e622f),
    (0x1a8, 0x62696c79),
    // the first image: its header, then `__TEXT` and a section
    (0x1000, 0xfeedfacf),
    (0x1004, 0x1000007),
    (0x1008, 3),
    (0x100c, 6),
    (0x1010, 5),
    (0x1014, 0x1d0),
    (0x1018, 0x80000080),
    (0x1020, 0x19),
    (0x1024, 0x98),
    (0x1028, 0x45545f5f),
    (0x102c, 0x5458),
    (0x1038, 0x20001000),
    (0x103c, 0x7fff),
    (0x1040, 0x1000),
    (0x1048, 0x1000),
    (0x1050, 0x1000),
    (0x1058, 5),
    (0x105c, 5),
    (0x1060, 1),
    (0x1088, 0x20001400),
    (0x108c, 0x7fff),
    (0x1090, 0x800),
    (0x1098, 0x1400),
    // `__DATA` and a section
    (0x10b8, 0x19),
    (0x10bc, 0x98),
    (0x10c0, 0x41445f5f),
    (0x10c4, 0x4154),
    (0x10d0, 0x20003000),
    (0x10d4, 0x7fff),
    (0x10d8, 0x1000),
    (0x10e0, 0x3000),
    (0x10e8, 0x1000),
    (0x10f0, 3),
    (0x10f4, 3),
    (0x10f8, 1),
    (0x1120, 0x20003000),
    (0x1124, 0x7fff),
    (0x1128, 0x1000),
    (0x1130, 0x3000),
    // LC_ID_DYLIB and LC_DYLD_INFO_ONLY
    (0x1198, 0xd),
    (0x119c, 0x28),
    (0x11a0, 0x18),
    (0x11b0, 0x642e612f),
    (0x11b4, 0x62696c79),
    (0x11c0, 0x80000022),
    (0x11c4, 0x30),
    // the second image: its header, `__TEXT` and LC_ID_DYLIB
    (0x2000, 0xfeedfacf),
    (0x2004, 0x1000007),
    (0x200c, 6),
    (0x2010, 3),
    (0x2014, 0xb8),
    (0x2018, 0x80000080),
    (0x2020, 0x19),
    (0x2024, 0x48),
    (0x2028, 0x45545f5f),
    (0x202c, 0x5458),
    (0x2038, 0x20002000),
    (0x203c, 0x7fff),
    (0x2040, 0x1000),
    (0x2048, 0x2000),
    (0x2050, 0x1000),
    (0x2058, 5),
    (0x205c, 5),
    (0x20b0, 0xd),
    (0x20b4, 0x28),
    (0x20b8, 0x18),
    (0x20c8, 0x642e622f),
    (0x20cc, 0x62696c79),
    // a word, and slide information: version 2, pages of 4096 bytes, a start and two extras
    (0x3010, 0x20003020),
];

const SLIDES: [(usize, u32); 10] = [
    (0x3014, 0x7fff),
    (0x4000, 2),
    (0x4004, 0x1000),
    (0x4008, 40),
    (0x400c, 1),
    (0x4010, 42),
    (0x4014, 2),
    (0x401c, 0xffff0000),
    (0x4028, 0x40004),
    (0x402c, 0x8005),
];

/// `__LINKEDIT` of an image, by the place of its command.
const LINKEDIT: [(usize, u32); 12] = [
    (0x0, 0x19),
    (0x4, 0x48),
    (0x8, 0x494c5f5f),
    (0xc, 0x44454b4e),
    (0x10, 0x5449),
    (0x18, 0x20005000),
    (0x1c, 0x7fff),
    (0x20, 0x1000),
    (0x28, 0x5000),
    (0x30, 1),
    (0x38, 1),
    (0x3c, 1),
];

/// Edits of the file, its length, and the number of what is found, or 0, with the image and the place.
const CASES: [(&[(usize, u32)], usize, u16, u32, u64); 29] = [
    // the file itself, with another cpusubtype, and with a `__LINKEDIT` over a text before it
    (&[], SIZE, 0, 0, 0),
    (&[(0x1008, 8)], SIZE, 0, 0, 0),
    (&[(0x2080, 0x20001000)], SIZE, 0, 0, 0),
    // cut files
    (&[], 0, 202, 0, 0),
    (&[], 0x10, 203, 0, 0x10),
    (&[], 0x150, 204, 0, 0x10),
    (&[], 0x1000, 206, 0, 0x10),
    // a mapping at another address, a page short, of another protection; a greatest slide out of the region
    (&[(0x138, 0x20003000)], SIZE, 206, 0, 0x10),
    (&[(0x140, 0x1000)], SIZE, 206, 0, 0x10),
    (&[(0x134, 1)], SIZE, 206, 0, 0x10),
    (&[(0xf0, 0xdfdfa001)], SIZE, 206, 0, 0x10),
    // slide information before the linkedit, past its end, of another version, and without a mask
    (&[(0x38, 0x3ff0)], SIZE, 207, 0, 0x38),
    (&[(0x40, 0x2001)], SIZE, 207, 0, 0x38),
    (&[(0x4000, 3)], SIZE, 207, 0, 0x38),
    (&[(0x401c, 0)], SIZE, 208, 0, 0x38),
    // extras without an end, a step past the page's end, and two words that overlap
    (&[(0x4028, 0x48000), (0x402c, 5)], SIZE, 209, 0, 0),
    (&[(0x3014, 0xffff7fff)], SIZE, 210, 0, 0x10),
    (&[(0x4028, 0x48000)], SIZE, 211, 0, 0x10),
    // an install name and a path that lead up, and a path that isn't the install name
    (
        &[(0x198, 0x2f2e2e2f), (0x11b0, 0x2f2e2e2f)],
        SIZE,
        212,
        0,
        16,
    ),
    (&[(0x1a4, 0x642e632f)], SIZE, 213, 1, 0x2000),
    (&[(0x1a4, 0x642e612f)], SIZE, 213, 1, 0x2000),
    // fewer bytes than addresses, another protection, and a text over the next one and over a `__LINKEDIT`
    (&[(0x1050, 0xfff)], SIZE, 214, 0, 0),
    (&[(0x10f4, 1)], SIZE, 214, 0, 1),
    (&[(0x1040, 0x2000), (0x1050, 0x2000)], SIZE, 214, 1, 0),
    (&[(0x1168, 0x20002000)], SIZE, 214, 1, 0),
    // the same name twice, and what is tried before it
    (
        &[(0x1a4, 0x642e612f), (0x20c8, 0x642e612f)],
        SIZE,
        215,
        1,
        0,
    ),
    (
        &[(0x1a4, 0x642e612f), (0x20c8, 0x642e612f), (0x1050, 0xfff)],
        SIZE,
        214,
        0,
        0,
    ),
    // a rebase stream, and a threaded bind
    (&[(0x11c8, 0x5000), (0x11cc, 1)], SIZE, 216, 0, 21),
    (
        &[(0x11d0, 0x5000), (0x11d4, 1), (0x5000, 0xd0)],
        SIZE,
        216,
        0,
        55,
    ),
];

fn put_all(file: &mut [u8], at: usize, numbers: &[(usize, u32)]) {
    for (place, value) in numbers {
        let place = at.saturating_add(*place);
        if place < file.len() && file.len() - place >= 4 {
            put_u32(file, place, *value);
        }
    }
}

/// The file with these numbers in it, cut to a length.
fn file_with(alloc: Global, edits: &[(usize, u32)], len: usize) -> Result<Vec<u8>, Fail> {
    let mut file = vec![in alloc; 0u8; SIZE]?;
    put_all(&mut file, 0, &NUMBERS);
    put_all(&mut file, 0, &SLIDES);
    put_all(&mut file, 0x1150, &LINKEDIT);
    put_all(&mut file, 0x2068, &LINKEDIT);
    put_all(&mut file, 0, edits);
    file.truncate(len);
    Ok(file)
}

/// The number of what is found, the image and the place; nothing is 0, and want of memory none of these.
fn told(fault: ViewFault) -> Option<(u16, u32, u64)> {
    match fault {
        ViewFault::Broken(finding) => Some((finding.kind.number(), finding.image, finding.at)),
        ViewFault::Memory => None,
    }
}

fn found(alloc: Global, file: &[u8]) -> Option<(u16, u32, u64)> {
    let view = match read_cache(alloc, file) {
        Ok(view) => view,
        Err(fault) => return told(fault),
    };
    match view.images(alloc) {
        Ok(_) => Some((0, 0, 0)),
        Err(fault) => told(fault),
    }
}

#[test]
fn findings(rt: HostRuntime) -> Result<(), Fail> {
    let alloc = rt.alloc();
    for (edits, len, number, image, place) in CASES {
        let file = file_with(alloc, edits, len)?;
        assert_eq!(rt;
            found(alloc, &file),
            Some((number, image, place)),
            "finding {number} at {place:x} of {len:x} bytes"
        );
    }
    Ok(())
}

#[test]
fn reads(rt: HostRuntime) -> Result<(), Fail> {
    let alloc = rt.alloc();
    let file = file_with(alloc, &[(0x3014, 0x2_7fff), (0x301c, 0x7fff)], SIZE)?;
    let view = read_cache(alloc, &file).ok().ok_or("the cache is read")?;
    view.facts();
    // a word whose mask's bits lead to the next one, which has no value below them but its own
    let words = [(0x10, 0x7fff20003020), (0x18, 0x7fff00000000)];
    assert_eq!(rt; view.words.len(), 2);
    for (word, (offset, value)) in view.words.iter().zip(words) {
        assert_eq!(rt; word.offset, offset);
        assert_eq!(rt; word.value, value);
    }
    assert_eq!(rt; view.flat.len(), SIZE);
    for (place, number) in [
        (0x3010, 0x7fff20003020),
        (0x3018, 0x7fff00000000),
        (0x4018, 0xffff000000000000),
    ] {
        assert_eq!(rt; read_u64(&view.flat, place), Some(number));
    }
    let images = view.images(alloc).ok().ok_or("the images are read")?;
    let names = [(b"/a.dylib", 3), (b"/b.dylib", 2)];
    assert_eq!(rt; images.len(), 2);
    for (image, (name, segments)) in images.iter().zip(names) {
        assert_eq!(rt; image.install_name, name.as_slice());
        assert_eq!(rt; image.segments.len(), segments);
    }
    Ok(())
}
