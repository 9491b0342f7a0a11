// Streams for one dylib and for two that differ in their data: the binds of those that keep the rules, and for
// each of rules 41 to 56 streams that break it, some of them lazy ones; words that clash; and weak binds.
use crate::{Bind, StreamKind, check_weak, read_binds, words_clash};
use dsc_base::{Fault, Site};
use macho_image::{Form, Image, Location, read_image};
use sample_dylibs::{SHORT, WIDE, data_dylib, put_numbers};
use std::alloc::Global;
use std::process::Abort;
use std::test::Fail;

/// A bind of the second segment and its section, the second of all: its address, ordinal, name, whether it is
/// weak, and its addend.
type Wanted = (u64, u64, &'static [u8], bool, i64);

/// What is wanted of a stream: its binds, or the rule that it breaks and where.
type Answer = Result<&'static [Wanted], (u16, u64)>;

const EDITS: [&[(usize, u32)]; 3] = [&[], &WIDE, &SHORT];

/// A stream, which edits its dylib has, and what is wanted of it.
type Case = (StreamKind, &'static [u8], usize, Answer);

const CASES: [Case; 48] = [
    // two lazy pointers: the second has the ordinal of the first
    (
        StreamKind::Lazy,
        b"\x71\x10\x11\x40_f\x00\x90\x00\x71\x18\x40_f\x00\x90\x00",
        0,
        Ok(&[(0x1010, 1, b"_f", false, 0), (0x1018, 1, b"_f", false, 0)]),
    ),
    // the same as a bind stream, which DONE ends
    (
        StreamKind::Bind,
        b"\x71\x10\x11\x40_f\x00\x90\x00\x71\x18\x40_f\x00\x90\x00",
        0,
        Ok(&[(0x1010, 1, b"_f", false, 0)]),
    ),
    // a symbol that may be absent
    (
        StreamKind::Bind,
        b"\x11\x41_g\x00\x51\x71\x18\x90\x00",
        0,
        Ok(&[(0x1018, 1, b"_g", true, 0)]),
    ),
    // an addend below 0
    (
        StreamKind::Bind,
        b"\x11\x40_k\x00\x60\x7f\x71\x18\x90\x00",
        0,
        Ok(&[(0x1018, 1, b"_k", false, -1)]),
    ),
    // nothing
    (StreamKind::Bind, b"", 0, Ok(&[])),
    (StreamKind::Lazy, b"\x00\x00", 0, Ok(&[])),
    // bytes behind the end
    (StreamKind::Bind, b"\x00\xe0", 0, Ok(&[])),
    (StreamKind::Lazy, b"\x00\xe0", 0, Err((62, 0x1))),
    // the image itself; the symbol without a name
    (
        StreamKind::Bind,
        b"\x30\x40\x00\x71\x10\x90",
        0,
        Ok(&[(0x1010, 0, b"", false, 0)]),
    ),
    // flags other than the weak import aren't read
    (
        StreamKind::Bind,
        b"\x10\x4e_f\x00\x71\x10\x90",
        0,
        Ok(&[(0x1010, 0, b"_f", false, 0)]),
    ),
    // each of the opcodes that move and record, and what is carried from record to record
    (
        StreamKind::Bind,
        b"\x20\x80\x01\x4f_f\x00\x71\x00\x90\x80\x08\xa0\x08\x60\x02\xb1\x40_g\x00\xc0\x02\x10\x1f\x90",
        0,
        Ok(&[
            (0x1000, 128, b"_f", true, 0),
            (0x1010, 128, b"_f", true, 0),
            (0x1020, 128, b"_f", true, 2),
            (0x1030, 128, b"_g", false, 2),
            (0x1048, 128, b"_g", false, 2),
            (0x1060, 15, b"_g", false, 2),
        ]),
    ),
    // a move by less than nothing, to a place below the first
    (
        StreamKind::Bind,
        b"\x11\x40_f\x00\x71\x18\x90\x80\xf0\xff\xff\xff\xff\xff\xff\xff\xff\x01\x90",
        0,
        Ok(&[(0x1018, 1, b"_f", false, 0), (0x1010, 1, b"_f", false, 0)]),
    ),
    // no records at all, with nothing set
    (StreamKind::Bind, b"\xc0\x00\x00", 0, Ok(&[])),
    // operands that end early or are too wide
    (StreamKind::Bind, b"\x11\x20", 0, Err((41, 0x1))),
    (StreamKind::Bind, b"\x60\x80", 0, Err((41, 0x0))),
    (
        StreamKind::Bind,
        b"\x60\x80\x80\x80\x80\x80\x80\x80\x80\x80\x01",
        0,
        Err((41, 0x0)),
    ),
    (StreamKind::Lazy, b"\x00\xc0\x01", 0, Err((61, 0x1))),
    // no such opcode, and no such special ordinal
    (StreamKind::Bind, b"\x51\xe0", 0, Err((42, 0x1))),
    (StreamKind::Bind, b"\xf0", 0, Err((42, 0x0))),
    (StreamKind::Bind, b"\x31", 0, Err((42, 0x0))),
    // another type than a pointer
    (StreamKind::Bind, b"\x52", 0, Err((43, 0x0))),
    (StreamKind::Lazy, b"\x50", 0, Err((63, 0x0))),
    // the segment isn't there
    (
        StreamKind::Bind,
        b"\x11\x40_f\x00\x7f\x00\x90",
        0,
        Err((44, 0x7)),
    ),
    // the second word ends behind the segment
    (
        StreamKind::Lazy,
        b"\x11\x40_f\x00\x71\xf4\x1f\xc0\x02\x00",
        0,
        Err((64, 0x8)),
    ),
    // a word of the text
    (
        StreamKind::Bind,
        b"\x11\x40_f\x00\x70\x80\x08\x90",
        0,
        Err((45, 0x8)),
    ),
    // a word that ends behind the section
    (
        StreamKind::Bind,
        b"\x11\x40_f\x00\x71\xfc\x0f\x90",
        2,
        Err((46, 0x8)),
    ),
    // and one that ends with it
    (
        StreamKind::Bind,
        b"\x11\x40_f\x00\x71\xf8\x0f\x90",
        2,
        Ok(&[(0x17f8, 1, b"_f", false, 0)]),
    ),
    // an odd multiple of two
    (
        StreamKind::Bind,
        b"\x11\x40_f\x00\x71\x02\x90",
        0,
        Err((47, 0x7)),
    ),
    // over the edge of a page
    (
        StreamKind::Lazy,
        b"\x11\x40_f\x00\x71\xfc\x1f\x90",
        1,
        Err((68, 0x8)),
    ),
    // a bind too many, at one place
    (
        StreamKind::Bind,
        b"\x11\x40_f\x00\x71\x00\xc0\x81\x80\x40\xf8\xff\xff\xff\xff\xff\xff\xff\xff\x01",
        0,
        Err((49, 0x7)),
    ),
    // as many as there may be, at one place
    (
        StreamKind::Lazy,
        b"\x11\x40_f\x00\x71\x00\xc0\x80\x80\x40\xf8\xff\xff\xff\xff\xff\xff\xff\xff\x01",
        0,
        Err((70, 0x1000)),
    ),
    // four bytes apart
    (
        StreamKind::Bind,
        b"\x11\x40_f\x00\x71\x20\x90\x71\x14\x90\x71\x10\x90",
        0,
        Err((50, 0x1010)),
    ),
    // no ordinal, no symbol, no segment
    (
        StreamKind::Bind,
        b"\x40_f\x00\x71\x10\x90",
        0,
        Err((51, 0x6)),
    ),
    (StreamKind::Bind, b"\x11\x71\x10\x90", 0, Err((51, 0x3))),
    (StreamKind::Bind, b"\x11\x40_f\x00\x90", 0, Err((51, 0x5))),
    // which is tried before the place
    (StreamKind::Lazy, b"\x11\x7f\x00\x90", 0, Err((71, 0x3))),
    // symbols of the main executable, of any image, and of weak definitions
    (StreamKind::Bind, b"\x3f", 0, Err((52, 0x0))),
    (StreamKind::Bind, b"\x3e", 0, Err((53, 0x0))),
    (StreamKind::Bind, b"\x3d", 0, Err((54, 0x0))),
    (StreamKind::Lazy, b"\x3f", 0, Err((72, 0x0))),
    (StreamKind::Lazy, b"\x3e", 0, Err((73, 0x0))),
    (StreamKind::Lazy, b"\x3d", 0, Err((74, 0x0))),
    // threaded binds
    (StreamKind::Bind, b"\xd1", 0, Err((55, 0x0))),
    (StreamKind::Lazy, b"\xd0\x00", 0, Err((75, 0x0))),
    // a name without an end
    (StreamKind::Bind, b"\x40_f", 0, Err((56, 0x0))),
    (StreamKind::Lazy, b"\x00\x40", 0, Err((76, 0x1))),
    // an operand that ends early goes before a place that isn't there
    (
        StreamKind::Bind,
        b"\x11\x40_f\x00\x7f\x00\xa0\x80",
        0,
        Err((41, 0x7)),
    ),
    // and the fault of an earlier record before it
    (
        StreamKind::Bind,
        b"\x11\x40_f\x00\x7f\x00\x90\xa0\x80",
        0,
        Err((44, 0x7)),
    ),
];

/// Addresses of rebases, binds and lazy binds, and the one at which they clash.
type Words = (&'static [u64], &'static [u64], &'static [u64], Option<u64>);

const CLASHES: [Words; 11] = [
    (&[], &[], &[], None),
    // a lazy bind four bytes behind a rebase
    (&[0x1010], &[], &[0x1014], Some(0x1010)),
    // binds that are rebases
    (&[0x1010, 0x1020], &[0x1020], &[0x1010], None),
    // a bind before a rebase
    (&[0x1010], &[0x1009], &[], Some(0x1009)),
    // 8 bytes apart
    (&[0x1010], &[0x1018], &[0x1008], None),
    // a lazy bind that is a bind, 7 bytes behind it, and 8
    (&[], &[0x1010], &[0x1010], Some(0x1010)),
    (&[], &[0x1010], &[0x1017], Some(0x1010)),
    (&[], &[0x1010], &[0x1018], None),
    // the least of several, in any order
    (
        &[0x1040, 0x1020],
        &[0x1044, 0x1024, 0x1010],
        &[0x100e],
        Some(0x100e),
    ),
    // two rebases before one bind
    (&[0x1000, 0x1003], &[0x1005], &[], Some(0x1000)),
    // at the end of all addresses
    (
        &[0xffff_ffff_ffff_fffe],
        &[0xffff_ffff_ffff_ffff],
        &[],
        Some(0xffff_ffff_ffff_fffe),
    ),
];

/// The dylib with data without its rebases, and with these edits.
fn file_with(alloc: Global, edits: &[(usize, u32)]) -> Result<Vec<u8>, Fail> {
    let mut file = data_dylib(alloc, 0x3040)?;
    put_numbers(&mut file, &[(0x1c8, 0), (0x1cc, 0)]);
    put_numbers(&mut file, edits);
    Ok(file)
}

fn place(address: u64) -> Location {
    Location {
        segment: 1,
        section: 2,
        address,
    }
}

/// A type that workers may share and hand back.
fn is_shared<T: Send + Sync>(_value: &T) {}

fn are_found(rt: &impl Abort, found: &[Bind<'_>], wanted: &[Wanted]) {
    assert_eq!(rt; found.len(), wanted.len());
    for (bind, (address, ordinal, name, weak, addend)) in found.iter().zip(wanted) {
        is_shared(bind);
        assert_eq!(rt; bind.at, place(*address));
        assert_eq!(rt; bind.ordinal, *ordinal);
        assert_eq!(rt; bind.name, *name);
        assert_eq!(rt; bind.weak, *weak);
        assert_eq!(rt; bind.addend, *addend);
    }
}

fn streams_are_read(rt: &impl Abort, alloc: Global) -> Result<(), Fail> {
    for (kind, stream, edits, wanted) in CASES {
        let edits = EDITS.get(edits).ok_or("edits of a dylib")?;
        let file = file_with(alloc, edits)?;
        let image = read_image(alloc, &file, 0, Form::Standalone)
            .ok()
            .ok_or("the dylib is read")?;
        match (read_binds(alloc, stream, kind, &image), wanted) {
            (Ok(found), Ok(binds)) => are_found(rt, &found, binds),
            (Err(Fault::Broken(site)), Err(broken)) => {
                assert_eq!(rt; (site.rule.number(), site.at), broken, "{stream:?}");
            }
            _ => assert!(rt; false, "{stream:?}"),
        }
    }
    Ok(())
}

/// A name of so many bytes is set, and nothing is bound to it.
fn name_is_read(alloc: Global, image: &Image<'_>, len: u16) -> Result<bool, Fail> {
    let mut stream = vec![in alloc; 0x40u8; 1]?;
    stream.resize(usize::from(len) + 1, b'_')?;
    stream.push(0)?;
    match read_binds(alloc, &stream, StreamKind::Bind, image) {
        Ok(_) => Ok(true),
        Err(Fault::Broken(site)) => Ok(site.rule.number() != 56),
        Err(Fault::Memory) => Err("memory")?,
    }
}

fn binds_at(alloc: Global, addresses: &[u64]) -> Result<Vec<Bind<'static>>, Fail> {
    let mut binds = Vec::new(alloc);
    for address in addresses {
        binds.push(Bind {
            at: place(*address),
            ordinal: 1,
            name: b"_f",
            weak: false,
            addend: 0,
        })?;
    }
    Ok(binds)
}

fn clashes_are_found(rt: &impl Abort, alloc: Global) -> Result<(), Fail> {
    for (rebases, binds, lazy, wanted) in CLASHES {
        let mut rebased = Vec::new(alloc);
        for address in rebases {
            rebased.push(place(*address))?;
        }
        let bound = binds_at(alloc, binds)?;
        let lazily = binds_at(alloc, lazy)?;
        let found = match words_clash(alloc, &rebased, &bound, &lazily) {
            Ok(()) => None,
            Err(Fault::Broken(site)) => Some((site.rule.number(), site.at)),
            Err(Fault::Memory) => Err("memory")?,
        };
        assert_eq!(rt; found, wanted.map(|at| (82u16, at)));
    }
    Ok(())
}

fn weak_number(stream: &[u8]) -> Option<(u16, u64)> {
    match check_weak(stream) {
        Ok(()) => None,
        Err(Site { rule, at }) => Some((rule.number(), at)),
    }
}

#[test]
fn streams(rt: HostRuntime) -> Result<(), Fail> {
    let alloc = rt.alloc();
    streams_are_read(&rt, alloc)?;
    let file = file_with(alloc, &[])?;
    let image = read_image(alloc, &file, 0, Form::Standalone)
        .ok()
        .ok_or("the dylib is read")?;
    assert!(rt; name_is_read(alloc, &image, 16384)?);
    assert!(rt; !name_is_read(alloc, &image, 16385)?);
    clashes_are_found(&rt, alloc)?;
    assert_eq!(rt; weak_number(b"\x00\x00"), None);
    assert_eq!(rt; weak_number(b"\x00\x90\x90"), Some((81, 1)));
    Ok(())
}
