// Files that keep the rules, and for each rule files that break it, each made of one file by a few edits.
ghost use Rattle.std.specs.Prelude.{◌≡◌, ◌≤◌};
ghost use Rattle.macho_image.specs.declared.form.Form.TheVariants.{Standalone};

mod universal;
mod walk;

use super::*;
use dsc_base::Fault;
use sample_dylibs::{bytes_with, data_dylib, put_numbers};
use std::alloc::Global;
use std::test::*;

/// Edits of the dylib with data, its length, and the number of the rule that it breaks, or 0, with the place.
const CASES: [(&[(usize, u32)], usize, u16, u64); 50] = [
    // the file itself
    (&[], 0x2040, 0, 0x0),
    // no bytes
    (&[], 0x0, 3, 0x0),
    // 31 bytes
    (&[], 0x1f, 3, 0x0),
    // a 32-bit magic
    (&[(0x0, 0xfeedface)], 0x2040, 3, 0x0),
    // another processor, and no flags
    (&[(0x4, 0x7), (0x18, 0x0)], 0x2040, 5, 0x4),
    // an executable
    (&[(0xc, 0x2)], 0x2040, 5, 0xc),
    // a flat namespace
    (&[(0x18, 0x0)], 0x2040, 5, 0x18),
    // the flag of a cache
    (&[(0x18, 0x80000080)], 0x2040, 5, 0x18),
    // commands past the end
    (&[], 0x100, 6, 0x14),
    // a segment shorter than its structure
    (&[(0xbc, 0x40)], 0x2040, 6, 0xb8),
    // a size that is no multiple of 8
    (&[(0xbc, 0x9c)], 0x2040, 6, 0xb8),
    // a command past the end
    (&[(0x10, 0x7)], 0x2040, 6, 0x200),
    // sizes that end early
    (&[(0x10, 0x5)], 0x2040, 6, 0x14),
    // short dyld info
    (&[(0x1c4, 0x28)], 0x2040, 6, 0x1c0),
    // an unknown command
    (&[(0x1f0, 0x80000034)], 0x2040, 7, 0x1f0),
    // LC_ROUTINES_64
    (&[(0x1c0, 0x1a)], 0x2040, 7, 0x1c0),
    // a second install name
    (
        &[
            (0x10, 0x7),
            (0x14, 0x208),
            (0x200, 0xd),
            (0x204, 0x28),
            (0x208, 0x18),
            (0x210, 0x10000),
            (0x214, 0x10000),
            (0x218, 0x642e622f),
            (0x21c, 0x62696c79),
        ],
        0x2040,
        8,
        0x200,
    ),
    // dyld info of both numbers
    (
        &[(0x10, 0x7), (0x14, 0x210), (0x200, 0x22), (0x204, 0x30)],
        0x2040,
        8,
        0x200,
    ),
    // no install name
    (&[(0x198, 0xc)], 0x2040, 9, 0x0),
    // a path in its place
    (&[(0x198, 0x8000001c)], 0x2040, 9, 0x0),
    // a section that is not there
    (&[(0x60, 0x2)], 0x2040, 10, 0x20),
    // a segment off its page
    (&[(0xd0, 0x1001)], 0x2040, 10, 0xb8),
    // more file than memory
    (&[(0xe8, 0x1001)], 0x2040, 10, 0xb8),
    // a segment above 2^47
    (&[(0x16c, 0x8000)], 0x2040, 10, 0x150),
    // a file without its text
    (&[], 0x200, 10, 0x20),
    // a file without its linkedit
    (&[], 0x2003, 10, 0x150),
    // data over text
    (&[(0xd0, 0x0)], 0x2040, 10, 0xb8),
    // text that begins later
    (&[(0x48, 0x8)], 0x2040, 10, 0x20),
    // text that is writable
    (&[(0x5c, 0x3)], 0x2040, 10, 0x20),
    // linkedit that is writable
    (&[(0x18c, 0x3)], 0x2040, 10, 0x150),
    // a second text
    (&[(0xc0, 0x45545f5f), (0xc4, 0x5458)], 0x2040, 10, 0xb8),
    // one segment
    (&[(0xb8, 0x8000001c), (0x150, 0x8000001c)], 0x2040, 10, 0x0),
    // linkedit over data, and data over text
    (&[(0xd0, 0x0), (0x168, 0x1000)], 0x2040, 10, 0xb8),
    // data that runs
    (&[(0xf4, 0x7)], 0x2040, 11, 0xb8),
    // protected text
    (&[(0x64, 0x8)], 0x2040, 11, 0x20),
    // a section in the header
    (&[(0x88, 0x100), (0x98, 0x100)], 0x2040, 12, 0x20),
    // a section elsewhere in the file
    (&[(0x130, 0x1004)], 0x2040, 12, 0xb8),
    // a section past its segment
    (&[(0x128, 0x1008)], 0x2040, 12, 0xb8),
    // an interposing section
    (&[(0x140, 0xd)], 0x2040, 13, 0xb8),
    // another one, with an attribute
    (&[(0xa8, 0x8000000d)], 0x2040, 13, 0x20),
    // relocations of a section
    (&[(0xa4, 0x1)], 0x2040, 14, 0x20),
    // local relocations
    (
        &[
            (0x10, 0x7),
            (0x14, 0x230),
            (0x200, 0xb),
            (0x204, 0x50),
            (0x24c, 0x1),
        ],
        0x2040,
        14,
        0x200,
    ),
    // a name in the structure
    (&[(0x1a0, 0x10)], 0x2040, 15, 0x198),
    // a name without an end
    (
        &[
            (0x1b0, 0x61616161),
            (0x1b4, 0x61616161),
            (0x1b8, 0x61616161),
            (0x1bc, 0x61616161),
        ],
        0x2040,
        15,
        0x198,
    ),
    // a name that is not plain
    (&[(0x1b4, 0x7f)], 0x2040, 15, 0x198),
    // a relative name
    (&[(0x1b0, 0x642e6161)], 0x2040, 16, 0x198),
    // an empty part
    (&[(0x1b4, 0x62692f2f)], 0x2040, 16, 0x198),
    // a part that leads up
    (&[(0x1b0, 0x2e2e2f)], 0x2040, 16, 0x198),
    // rebases past the linkedit
    (&[(0x1cc, 0x41)], 0x2040, 17, 0x1c0),
    // split information before it
    (&[(0x1f8, 0x1fff)], 0x2040, 17, 0x1f0),
];

/// The header at 0x1000 of a cache of 0x4000 bytes: a dylib of text and linkedit alone.
const CACHED: [(usize, u32); 46] = [
    (0x1000, 0xfeedfacf),
    (0x1004, 0x1000007),
    (0x1008, 0x3),
    (0x100c, 0x6),
    (0x1010, 0x3),
    (0x1014, 0x108),
    (0x1018, 0x80000080),
    (0x1020, 0x19),
    (0x1024, 0x98),
    (0x1028, 0x45545f5f),
    (0x102c, 0x5458),
    (0x1038, 0x20001000),
    (0x103c, 0x7fff),
    (0x1040, 0x1000),
    (0x1048, 0x1000),
    (0x1050, 0x1000),
    (0x1058, 0x5),
    (0x105c, 0x5),
    (0x1060, 0x1),
    (0x1068, 0x65745f5f),
    (0x106c, 0x7478),
    (0x1078, 0x45545f5f),
    (0x107c, 0x5458),
    (0x1088, 0x20001400),
    (0x108c, 0x7fff),
    (0x1090, 0x800),
    (0x1098, 0x1400),
    (0x10b8, 0x19),
    (0x10bc, 0x48),
    (0x10c0, 0x494c5f5f),
    (0x10c4, 0x44454b4e),
    (0x10c8, 0x5449),
    (0x10d0, 0x20003000),
    (0x10d4, 0x7fff),
    (0x10d8, 0x1000),
    (0x10e0, 0x3000),
    (0x10e8, 0x1),
    (0x10f0, 0x1),
    (0x10f4, 0x1),
    (0x1100, 0xd),
    (0x1104, 0x28),
    (0x1108, 0x18),
    (0x1110, 0x10000),
    (0x1114, 0x10000),
    (0x1118, 0x642e612f),
    (0x111c, 0x62696c79),
];

/// The number and the place of the rule that a file breaks; none is 0.
fn broken(alloc: Global, file: &[u8], header_at: u64, form: Form) -> Option<(u16, u64)>
    requires { form ≡ Standalone → header_at ≡ 0 }
{
    match read_image(alloc, file, header_at, form) {
        Ok(_) => Some((0, 0)),
        Err(Fault::Broken(site)) => Some((site.rule.number(), site.at)),
        Err(Fault::Memory) => None,
    }
}

/// A dylib whose text segment has so many sections of no size.
fn crowded_dylib(alloc: Global, sections: u32) -> Result<Vec<u8>, Fail>
    requires { sections ≤ 256 }
{
    let end = 0x68 + 80 * sections as usize;
    let mut file = data_dylib(alloc, 0x8040)?;
    file.truncate(0x68);
    file.resize(0x8040, 0)?;
    let sizes = [
        (0x10, 3),
        (0x14, 184 + 80 * sections),
        (0x24, 72 + 80 * sections),
        (0x40, 0x8000),
        (0x50, 0x8000),
        (0x60, sections),
    ];
    let linkedit = [
        (end, 0x19),
        (end + 0x4, 0x48),
        (end + 0x8, 0x494c5f5f),
        (end + 0xc, 0x44454b4e),
        (end + 0x10, 0x5449),
        (end + 0x18, 0x8000),
        (end + 0x20, 0x1000),
        (end + 0x28, 0x8000),
        (end + 0x30, 0x40),
        (end + 0x38, 0x1),
        (end + 0x3c, 0x1),
    ];
    let install_name = [
        (end + 0x48, 0xd),
        (end + 0x4c, 0x28),
        (end + 0x50, 0x18),
        (end + 0x60, 0x642e612f),
        (end + 0x64, 0x62696c79),
    ];
    put_numbers(&mut file, &sizes);
    for section in 0..sections {
        put_numbers(&mut file, &[(0x88 + 80 * section as usize, 0x7000)]);
    }
    put_numbers(&mut file, &linkedit);
    put_numbers(&mut file, &install_name);
    Ok(file)
}

#[test]
fn sections_are_at_most_255(rt: HostRuntime) -> Result<(), Fail> {
    let alloc = rt.alloc();
    let most = crowded_dylib(alloc, 255)?;
    assert_eq!(rt; broken(alloc, &most, 0, Form::Standalone), Some((0, 0)));
    let many = crowded_dylib(alloc, 256)?;
    assert_eq!(rt; broken(alloc, &many, 0, Form::Standalone), Some((12, 0x20)));
    Ok(())
}

#[test]
fn rules(rt: HostRuntime) -> Result<(), Fail> {
    let alloc = rt.alloc();
    for (edits, len, number, place) in CASES {
        let mut file = data_dylib(alloc, 0x2040)?;
        put_numbers(&mut file, edits);
        file.truncate(len);
        assert_eq!(rt;
            broken(alloc, &file, 0, Form::Standalone),
            Some((number, place)),
            "rule {number} at {place:x}"
        );
    }
    let cache = bytes_with(alloc, 0x4000, &CACHED)?;
    let alone = cache.get(0x1000..).ok_or("the cache is longer than that")?;
    assert_eq!(rt; broken(alloc, alone, 0, Form::Standalone), Some((5, 24)));
    assert_eq!(rt; broken(alloc, &cache, 0x4000, Form::Cached), Some((3, 0)));
    let image = read_image(alloc, &cache, 0x1000, Form::Cached)
        .ok()
        .ok_or("the cached dylib is read")?;
    image.facts();
    assert_eq!(rt; image.install_name, b"/a.dylib".as_slice());
    assert_eq!(rt; image.segments.len(), 2);
    for text in image.segments.iter().take(1) {
        assert_eq!(rt; text.vmaddr, 0x7FFF_2000_1000);
        assert_eq!(rt; text.bytes.len(), 0x1000);
    }
    let file = data_dylib(alloc, 0x2040)?;
    let image = read_image(alloc, &file, 0, Form::Standalone)
        .ok()
        .ok_or("the dylib is read")?;
    assert_eq!(rt; image.sections.len(), 2);
    assert_eq!(rt; image.dependencies.len(), 0);
    assert_eq!(rt; image.streams.rebase, b"\x11\x21\x10\x51\x00".as_slice());
    assert_eq!(rt; image.streams.split, Some(b"\x7F\x00".as_slice()));
    Ok(())
}
