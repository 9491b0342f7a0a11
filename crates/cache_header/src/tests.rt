// The head of a cache with one image, made by hand: read, written, and with the changes that are found.
ghost use Rattle.std.specs.Prelude.{◌≡◌, length, IfOk};
ghost use Rattle.cache_header.specs.Spelling.{IsWritable};

use super::*;
use dsc_base::{Name, Span, ViewFault};
use sample_dylibs::put_numbers;
use std::alloc::Global;
use std::test::*;

/// The numbers of four bytes in the head, each with its place; all others are 0.
const HEAD: [(usize, u32); 47] = [
    // "dyld_v1  x86_64", then the tables and their counts
    (0x0, 0x646c7964),
    (0x4, 0x2031765f),
    (0x8, 0x36387820),
    (0xc, 0x34365f),
    (0x10, 0xf8),
    (0x14, 0x3),
    (0x18, 0x158),
    (0x1c, 0x1),
    // slide information
    (0x38, 0x3000),
    (0x40, 0x2a),
    // the identifier
    (0x58, 0x3850a348),
    (0x5c, 0x215872ed),
    (0x60, 0xcf5b1391),
    (0x64, 0x3d4256a4),
    // the image text table, the platform, the region and the greatest slide
    (0x88, 0x178),
    (0x90, 0x1),
    (0xd8, 0x1),
    (0xe0, 0x20000000),
    (0xe4, 0x7fff),
    (0xe8, 0xdfe00000),
    (0xf0, 0xdfdfb000),
    // the mappings
    (0xf8, 0x20000000),
    (0xfc, 0x7fff),
    (0x100, 0x2000),
    (0x110, 0x5),
    (0x114, 0x5),
    (0x118, 0x20002000),
    (0x11c, 0x7fff),
    (0x120, 0x1000),
    (0x128, 0x2000),
    (0x130, 0x3),
    (0x134, 0x3),
    (0x138, 0x20003000),
    (0x13c, 0x7fff),
    (0x140, 0x2000),
    (0x148, 0x3000),
    (0x150, 0x1),
    (0x154, 0x1),
    // the image in both tables, and its path
    (0x158, 0x20001000),
    (0x15c, 0x7fff),
    (0x170, 0x198),
    (0x188, 0x20001000),
    (0x18c, 0x7fff),
    (0x190, 0x1000),
    (0x194, 0x198),
    (0x198, 0x642e612f),
    (0x19c, 0x62696c79),
];

/// Edits of a file of 0x30000 bytes with that head, its length, and the number of what is found, or 0, with the
/// image and the place.
const CASES: [(&[(usize, u32)], usize, u16, u32, u64); 37] = [
    // the file itself, and cut behind the head
    (&[], 0x30000, 0, 0, 0x0),
    (&[], 0x1000, 0, 0, 0x0),
    (&[], 0x1a1, 0, 0, 0x0),
    // no bytes, fifteen bytes, another letter, no NUL
    (&[], 0x0, 202, 0, 0x0),
    (&[], 0xf, 202, 0, 0x0),
    (&[(0x0, 0x646c7965)], 0x30000, 202, 0, 0x0),
    (&[(0xc, 0x2034365f)], 0x30000, 202, 0, 0x0),
    // no offset of the mapping table, one below 0x20, and one past the end
    (&[], 0x10, 203, 0, 0x10),
    (&[], 0x13, 203, 0, 0x10),
    (&[(0x10, 0x1f)], 0x30000, 203, 0, 0x10),
    (&[(0x10, 0x1001)], 0x1000, 203, 0, 0x10),
    (&[], 0xf7, 203, 0, 0x10),
    // a mapping table past the end, and one that is too long
    (&[], 0xf8, 204, 0, 0x10),
    (&[], 0x150, 204, 0, 0x10),
    (&[(0x14, 0x1001)], 0x30000, 204, 0, 0x10),
    (&[(0x14, 0x1001), (0x1c, 0x1001)], 0x30000, 204, 0, 0x10),
    // an image table past the end, one that is too long, and one of no entries past the end
    (&[], 0x158, 204, 0, 0x18),
    (&[(0x18, 0x2ffe1)], 0x30000, 204, 0, 0x18),
    (&[(0x1c, 0x1001)], 0x30000, 204, 0, 0x18),
    (&[(0x18, 0x30001), (0x1c, 0x0)], 0x30000, 204, 0, 0x18),
    // an image text table past the end, at an offset near 2^64, and one that is too long
    (&[], 0x178, 204, 0, 0x88),
    (&[(0x88, 0x2ffe1)], 0x30000, 204, 0, 0x88),
    (
        &[(0x88, 0xffffffe0), (0x8c, 0xffffffff)],
        0x30000,
        204,
        0,
        0x88,
    ),
    (&[(0x90, 0x1001)], 0x30000, 204, 0, 0x88),
    (&[(0x94, 0x1)], 0x30000, 204, 0, 0x88),
    // a table of no entries may be anywhere, and one whose field lies behind the header isn't read
    (&[(0x88, 0x30001), (0x90, 0x0)], 0x30000, 0, 0, 0x0),
    (&[(0x10, 0x94), (0x88, 0x30001)], 0x30000, 0, 0, 0x0),
    // a path that ends with the file, one behind it, and an empty one
    (&[], 0x1a0, 205, 0, 0x198),
    (&[(0x170, 0x30000)], 0x30000, 205, 0, 0x30000),
    (&[(0x170, 0x1a0)], 0x30000, 205, 0, 0x1a0),
    // bytes below the space and above the tilde, and both ends of what can be printed
    (&[(0x19c, 0x62691f79)], 0x30000, 205, 0, 0x198),
    (&[(0x19c, 0x7f696c79)], 0x30000, 205, 0, 0x198),
    (&[(0x19c, 0x7e207e20)], 0x30000, 0, 0, 0x0),
    // the second of two images, whose entry is the first one's in the image text table
    (&[(0x1c, 0x2)], 0x30000, 205, 1, 0x1000),
    // the second mapping where the third is, which the head doesn't tell
    (&[(0x138, 0x20002000)], 0x1000, 0, 0, 0x0),
    // a path that leads up
    (&[(0x198, 0x2f2e2e2f)], 0x30000, 0, 0, 0x0),
    // what is wrong first
    (&[(0x10, 0x1f), (0xc, 0x0)], 0x30000, 202, 0, 0x0),
];

/// A file of so many bytes with the head and these numbers in it, cut to a length.
fn file_with(alloc: Global, edits: &[(usize, u32)], len: usize) -> Result<Vec<u8>, Fail> {
    let mut file = vec![in alloc; 0u8; 0x30000]?;
    put_numbers(&mut file, &HEAD);
    put_numbers(&mut file, edits);
    file.truncate(len);
    Ok(file)
}

/// The number of what is found, the image and the place; nothing is 0, and want of memory none of these.
fn found(alloc: Global, file: &[u8]) -> Option<(u16, u32, u64)> {
    match read_cache_head(alloc, file) {
        Ok(_) => Some((0, 0, 0)),
        Err(ViewFault::Broken(finding)) => Some((finding.kind.number(), finding.image, finding.at)),
        Err(ViewFault::Memory) => None,
    }
}

#[test]
fn findings(rt: HostRuntime) -> Result<(), Fail> {
    let alloc = rt.alloc();
    for (edits, len, number, image, place) in CASES {
        let file = file_with(alloc, edits, len)?;
        assert_eq!(rt;
            found(alloc, &file),
            Some((number, image, place)),
            "finding {number} at {place:x} of {len:x} bytes"
        );
    }
    // paths of 1,024 and of 1,025 bytes
    for (length, number) in [(1024, 0), (1025, 205)] {
        let mut file = file_with(alloc, &[(0x170, 0x2000)], 0x30000)?;
        for k in 0x2000..0x2000 + length {
            assert!(rt; k < file.len());
            file[k] = b'a';
        }
        let place = if number == 0 { 0 } else { 0x2000 };
        assert_eq!(rt;
            found(alloc, &file),
            Some((number, 0, place)),
            "of {length}"
        );
    }
    Ok(())
}

#[test]
fn reads(rt: HostRuntime) -> Result<(), Fail> {
    let alloc = rt.alloc();
    let file = file_with(alloc, &[], 0x1000)?;
    let head = read_cache_head(alloc, &file)
        .ok()
        .ok_or("the head is read")?;
    let mappings = [
        (0x7fff20000000, 0x2000, 0, 5),
        (0x7fff20002000, 0x1000, 0x2000, 3),
        (0x7fff20003000, 0x2000, 0x3000, 1),
    ];
    assert_eq!(rt; head.mappings.len(), 3);
    for (mapping, (address, size, file, protection)) in head.mappings.iter().zip(mappings) {
        assert_eq!(rt; mapping.address, address);
        assert_eq!(rt; mapping.size, size);
        assert_eq!(rt; mapping.file, file);
        assert_eq!(rt; mapping.max_prot, protection);
        assert_eq!(rt; mapping.init_prot, protection);
    }
    assert_eq!(rt; head.images.len(), 1);
    for image in head.images.iter() {
        assert_eq!(rt; image.address, 0x7fff20001000);
        assert_eq!(rt; image.path.as_slice(), b"/a.dylib".as_slice());
        assert_eq!(rt; image.uuid, [0; 16]);
        assert_eq!(rt; image.text_size, 0x1000);
    }
    assert_eq!(rt;
        head.slide_info,
        Span {
            at: 0x3000,
            len: 0x2a
        }
    );
    assert_eq!(rt; cache_uuid(alloc, &[[0; 16]])?, head.uuid);
    assert_eq!(rt; head.max_slide, 0xdfdfb000);
    // the mapping table behind the identifier: what follows it is not the header's
    let short = file_with(alloc, &[(0x10, 0x68), (0x14, 0)], 0x1000)?;
    let head = read_cache_head(alloc, &short)
        .ok()
        .ok_or("the short head is read")?;
    assert_eq!(rt; head.mappings.len(), 0);
    for image in head.images.iter() {
        assert_eq!(rt; image.path.as_slice(), b"/a.dylib".as_slice());
        assert_eq!(rt; image.text_size, 0);
    }
    assert_eq!(rt;
        head.slide_info,
        Span {
            at: 0x3000,
            len: 0x2a
        }
    );
    assert_eq!(rt; cache_uuid(alloc, &[[0; 16]])?, head.uuid);
    assert_eq!(rt; head.max_slide, 0);
    Ok(())
}

/// The head that the numbers tell.
fn one_image(alloc: Global) -> Result<CacheHead, Fail>
    ensures { IfOk result IsWritable }
{
    let mappings = vec![in alloc;
        Mapping {
            address: 0x7fff20000000,
            size: 0x2000,
            file: 0,
            max_prot: 5,
            init_prot: 5
        },
        Mapping {
            address: 0x7fff20002000,
            size: 0x1000,
            file: 0x2000,
            max_prot: 3,
            init_prot: 3
        },
        Mapping {
            address: 0x7fff20003000,
            size: 0x2000,
            file: 0x3000,
            max_prot: 1,
            init_prot: 1
        },
    ]?;
    let mut images = Vec::new(alloc);
    images.push(TableImage {
        address: 0x7fff20001000,
        path: Name::from_slice(alloc, b"/a.dylib")?,
        uuid: [0; 16],
        text_size: 0x1000,
    })?;
    Ok(CacheHead {
        mappings,
        images,
        slide_info: Span {
            at: 0x3000,
            len: 0x2a,
        },
        uuid: cache_uuid(alloc, &[[0; 16]])?,
        max_slide: 0xdfdfb000,
    })
}

fn is_shared<T: Send + Sync>(_value: &T) {}

#[test]
fn writes(rt: HostRuntime) -> Result<(), Fail> {
    let alloc = rt.alloc();
    let head = one_image(alloc)?;
    is_shared(&head);
    let bytes = write_cache_head(alloc, &head)?;
    let file = file_with(alloc, &[], 0x1a1)?;
    assert_eq!(rt; bytes.as_slice(), file.as_slice());
    let two = [
        [0, 1, 2, 3, 4, 5, 6, 7, 8, 9, 10, 11, 12, 13, 14, 15],
        [
            16, 17, 18, 19, 20, 21, 22, 23, 24, 25, 26, 27, 28, 29, 30, 31,
        ],
    ];
    assert_eq!(rt;
        cache_uuid(alloc, &two)?,
        [
            0xda, 0xa4, 0x12, 0x89, 0x35, 0x3d, 0x52, 0x66, 0x82, 0xa1, 0x81, 0xe7, 0xf3, 0xc7,
            0x05, 0xfc,
        ]
    );
    assert_eq!(rt;
        cache_uuid(alloc, &[])?,
        [
            0x0a, 0x68, 0xeb, 0x57, 0xc8, 0x8a, 0x5f, 0x34, 0x9e, 0x9d, 0x27, 0xf8, 0x5e, 0x68,
            0xaf, 0x4f,
        ]
    );
    Ok(())
}
