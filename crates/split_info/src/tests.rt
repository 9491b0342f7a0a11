// Streams of one dylib with a text section of 0xC00 bytes at 0x400 and a data section of 0x1000 bytes at
// 0x1000: the references that they spell, and streams that break each of rules 101 to 107 and 109.
ghost use Rattle.std.specs.Prelude.{IfOk};
ghost use Rattle.std.specs.List.Sorted.{IsNonDecreasingBy};

use crate::{RefKind, Reference, read_split};
use dsc_base::Fault;
use macho_image::{Form, Image, Location, read_image};
use std::alloc::Global;
use std::process::Abort;
use std::test::Fail;

/// References by kind, address and segment, and the section, segment and offset to which they lead.
type Led = (RefKind, u64, u32, u32, u32, u64);

/// What is wanted of a stream: its references, or the rule that it breaks and where.
type Wanted = Result<&'static [Led], (u16, u64)>;

/// The places of rebases and of binds, a stream, and what is wanted of it.
type Case = (&'static [u64], &'static [u64], &'static [u8], Wanted);

static CASES: [Case; 36] = [
    // no references
    (&[], &[], b"\x7f\x00", Ok(&[])),
    // bytes behind the lists
    (&[], &[], b"\x7f\x00\x80", Ok(&[])),
    // a delta
    (
        &[],
        &[],
        b"\x7f\x01\x01\x02\x01\x10\x01\x03\x01\x80\x08",
        Ok(&[(RefKind::Delta32, 0x800, 0, 2, 1, 0x10)]),
    ),
    // an offset from the header
    (
        &[],
        &[],
        b"\x7f\x01\x01\x02\x01\x10\x01\x0c\x01\x80\x08",
        Ok(&[(RefKind::ImageOff32, 0x800, 0, 2, 1, 0x10)]),
    ),
    // two kinds: the second one's offsets begin anew
    (
        &[],
        &[],
        b"\x7f\x01\x01\x02\x01\x10\x02\x03\x01\x80\x08\x04\x01\x88\x08",
        Ok(&[
            (RefKind::Delta32, 0x800, 0, 2, 1, 0x10),
            (RefKind::Delta64, 0x808, 0, 2, 1, 0x10),
        ]),
    ),
    // offsets that add up, of references and of places
    (
        &[],
        &[],
        b"\x7f\x01\x01\x02\x02\x10\x01\x03\x02\x04\x08\x20\x01\x03\x01\x10",
        Ok(&[
            (RefKind::Delta32, 0x404, 0, 2, 1, 0x10),
            (RefKind::Delta32, 0x40c, 0, 2, 1, 0x10),
            (RefKind::Delta32, 0x410, 0, 2, 1, 0x30),
        ]),
    ),
    // two pairs of sections: the second one's offsets begin anew
    (
        &[0x1010],
        &[],
        b"\x7f\x02\x01\x02\x01\x10\x01\x03\x01\x00\x02\x01\x01\x08\x01\x02\x01\x10",
        Ok(&[
            (RefKind::Delta32, 0x400, 0, 2, 1, 0x10),
            (RefKind::Pointer64, 0x1010, 1, 1, 0, 0x8),
        ]),
    ),
    // a pointer to the end of a section
    (
        &[0x1008, 0x1010, 0x1018],
        &[],
        b"\x7f\x01\x02\x01\x01\x80\x18\x01\x02\x01\x10",
        Ok(&[(RefKind::Pointer64, 0x1010, 1, 1, 0, 0xc00)]),
    ),
    // to the end of the text segment, seen from the header
    (
        &[],
        &[],
        b"\x7f\x01\x01\x00\x01\x80\x20\x01\x03\x01\x00",
        Ok(&[(RefKind::Delta32, 0x400, 0, 0, 0, 0x1000)]),
    ),
    // a reference that ends with its section
    (
        &[],
        &[],
        b"\x7f\x01\x01\x02\x01\x10\x01\x03\x01\xfc\x17",
        Ok(&[(RefKind::Delta32, 0xffc, 0, 2, 1, 0x10)]),
    ),
    // a pointer that is bound too
    (
        &[0x1010],
        &[0x1010],
        b"\x7f\x01\x02\x01\x01\x00\x01\x02\x01\x10",
        Ok(&[(RefKind::Pointer64, 0x1010, 1, 1, 0, 0x0)]),
    ),
    // between two words
    (
        &[0x1010],
        &[0x101c, 0x1004],
        b"\x7f\x01\x02\x01\x01\x00\x01\x03\x02\x0c\x0c",
        Ok(&[
            (RefKind::Delta32, 0x100c, 1, 1, 0, 0x0),
            (RefKind::Delta32, 0x1018, 1, 1, 0, 0x0),
        ]),
    ),
    // another version, and none
    (&[], &[], b"\x7e\x00", Err((102, 0x0))),
    (&[], &[], b"", Err((102, 0x0))),
    // a count that isn't there, ends early, or is too wide
    (&[], &[], b"\x7f", Err((103, 0x1))),
    (&[], &[], b"\x7f\x80", Err((103, 0x1))),
    (
        &[],
        &[],
        b"\x7f\x80\x80\x80\x80\x80\x80\x80\x80\x80\x02",
        Err((103, 0x1)),
    ),
    // 2 ^ 63 pairs, and none of them
    (
        &[],
        &[],
        b"\x7f\x80\x80\x80\x80\x80\x80\x80\x80\x80\x01",
        Err((103, 0xb)),
    ),
    // a reference too few
    (
        &[],
        &[],
        b"\x7f\x01\x01\x02\x01\x10\x01\x03\x02\x80\x08",
        Err((103, 0xb)),
    ),
    // a pointer of four bytes, with its count and without
    (
        &[],
        &[],
        b"\x7f\x01\x01\x02\x01\x10\x01\x01\x01\x00",
        Err((104, 0x7)),
    ),
    (
        &[],
        &[],
        b"\x7f\x01\x01\x02\x01\x10\x01\x01",
        Err((104, 0x7)),
    ),
    // from the header
    (
        &[],
        &[],
        b"\x7f\x01\x00\x02\x01\x10\x01\x03\x01\x00",
        Err((105, 0x2)),
    ),
    // from a section behind the last one
    (
        &[],
        &[],
        b"\x7f\x01\x03\x02\x01\x10\x01\x03\x01\x00",
        Err((105, 0x2)),
    ),
    // to such a section
    (
        &[],
        &[],
        b"\x7f\x01\x01\x03\x01\x10\x01\x03\x01\x00",
        Err((105, 0x3)),
    ),
    // to a place behind the end of a section, without references
    (
        &[],
        &[],
        b"\x7f\x01\x02\x01\x01\x81\x18\x00",
        Err((106, 0x5)),
    ),
    // and of the text segment
    (
        &[],
        &[],
        b"\x7f\x01\x01\x00\x01\x81\x20\x00",
        Err((106, 0x5)),
    ),
    // to a place 2 ^ 64 behind another one
    (
        &[],
        &[],
        b"\x7f\x01\x01\x02\x02\x10\x00\xff\xff\xff\xff\xff\xff\xff\xff\xff\x01\x00",
        Err((106, 0x7)),
    ),
    // a reference that ends behind its section
    (
        &[],
        &[],
        b"\x7f\x01\x01\x02\x01\x10\x01\x03\x01\xfd\x17",
        Err((106, 0x9)),
    ),
    // and one that is 2 ^ 64 behind another one
    (
        &[],
        &[],
        b"\x7f\x01\x01\x02\x01\x10\x01\x03\x02\x04\xff\xff\xff\xff\xff\xff\xff\xff\xff\x01",
        Err((106, 0xa)),
    ),
    // a pointer that is no rebase
    (
        &[0x1010],
        &[],
        b"\x7f\x01\x02\x01\x01\x10\x01\x02\x01\x18",
        Err((107, 0x9)),
    ),
    // two references that share bytes, the lower one last
    (
        &[],
        &[],
        b"\x7f\x01\x01\x02\x01\x10\x02\x03\x01\x80\x08\x04\x01\xfc\x07",
        Err((109, 0x7fc)),
    ),
    // the same reference twice
    (
        &[],
        &[],
        b"\x7f\x01\x01\x02\x01\x10\x01\x03\x02\x04\x00",
        Err((109, 0x404)),
    ),
    // two of three, in another order
    (
        &[],
        &[],
        b"\x7f\x01\x01\x02\x01\x10\x03\x03\x01\x20\x03\x01\x12\x03\x01\x10",
        Err((109, 0x410)),
    ),
    // a delta over a rebase
    (
        &[0x1008, 0x1010],
        &[],
        b"\x7f\x01\x02\x01\x01\x00\x01\x03\x01\x14",
        Err((109, 0x1014)),
    ),
    // a delta over a bind
    (
        &[],
        &[0x1020, 0x1010],
        b"\x7f\x01\x02\x01\x01\x00\x01\x04\x01\x0c",
        Err((109, 0x100c)),
    ),
    // that comes behind a broken number
    (
        &[],
        &[],
        b"\x7f\x01\x01\x02\x01\x10\x01\x03\x03\x04\x00\xff\x17",
        Err((106, 0xb)),
    ),
];

fn put_numbers(file: &mut Vec<u8>, numbers: &[u32]) -> Result<(), Fail> {
    for number in numbers {
        file.extend_from_slice(&number.to_le_bytes())?;
    }
    Ok(())
}

/// A segment of one page: its name, its start, its protection, and where its section is.
type Row = (&'static [u8; 16], u32, u32, u32, u32);

const SEGMENTS: [Row; 2] = [
    (b"__TEXT\0\0\0\0\0\0\0\0\0\0", 0, 5, 0x400, 0xC00),
    (b"__DATA\0\0\0\0\0\0\0\0\0\0", 0x1000, 3, 0x1000, 0x1000),
];

fn put_segment(file: &mut Vec<u8>, row: &Row) -> Result<(), Fail> {
    let (name, start, prot, section, size) = *row;
    put_numbers(file, &[0x19, 152])?;
    file.extend_from_slice(name)?;
    put_numbers(
        file,
        &[start, 0, 0x1000, 0, start, 0, 0x1000, 0, prot, prot, 1, 0],
    )?;
    file.extend_from_slice(b"__section\0\0\0\0\0\0\0")?;
    file.extend_from_slice(name)?;
    put_numbers(file, &[section, 0, size, 0, section, 0, 0, 0, 0, 0, 0, 0])
}

/// The dylib of these segments, `__LINKEDIT` behind them.
fn file_of(alloc: Global, rows: &[Row]) -> Result<Vec<u8>, Fail> {
    let count = u32::try_from(rows.len()).ok().ok_or("few segments")?;
    let commands = count.wrapping_add(2);
    let size = count.wrapping_mul(152).wrapping_add(104);
    let end = count.wrapping_mul(0x1000);
    let mut file = Vec::new(alloc);
    put_numbers(
        &mut file,
        &[0xFEED_FACF, 0x0100_0007, 3, 6, commands, size, 0x80, 0],
    )?;
    for row in rows {
        put_segment(&mut file, row)?;
    }
    put_numbers(&mut file, &[0x19, 72])?;
    file.extend_from_slice(b"__LINKEDIT\0\0\0\0\0\0")?;
    put_numbers(&mut file, &[end, 0, 0x1000, 0, end, 0, 0, 0, 1, 1, 0, 0])?;
    put_numbers(&mut file, &[0xD, 32, 24, 0, 0, 0])?;
    file.extend_from_slice(b"/a\0\0\0\0\0\0")?;
    file.resize(end as usize, 0)?;
    Ok(file)
}

/// Words of the data section.
fn words(alloc: Global, addresses: &[u64]) -> Result<Vec<Location>, Fail> {
    let mut places = Vec::new(alloc);
    for address in addresses {
        places.push(Location {
            segment: 1,
            section: 2,
            address: *address,
        })?;
    }
    Ok(places)
}

/// The same in the order of their addresses.
fn sorted_words(alloc: Global, addresses: &[u64]) -> Result<Vec<Location>, Fail>
    ensures { IfOk result (λ v. IsNonDecreasingBy (λ l. l.address) v.items) }
{
    let mut places = words(alloc, addresses)?;
    places.sort_unstable_by_key(|l| l.address);
    Ok(places)
}

fn are_led(rt: &impl Abort, found: &[Reference], wanted: &[Led], stream: &[u8]) {
    assert_eq!(rt; found.len(), wanted.len(), "{stream:?}");
    for (reference, led) in found.iter().zip(wanted) {
        let (kind, from, from_segment, to_section, to_segment, to_offset) = *led;
        let one = Reference {
            kind,
            from,
            from_segment,
            to_section,
            to_segment,
            to_offset,
        };
        assert_eq!(rt; *reference, one, "{stream:?}");
    }
}

fn read_case(rt: &impl Abort, alloc: Global, image: &Image<'_>, case: &Case) -> Result<(), Fail> {
    let (rebases, bound, stream, wanted) = *case;
    let rebases = sorted_words(alloc, rebases)?;
    let bound = words(alloc, bound)?;
    match (
        read_split(alloc, Some(stream), image, &rebases, &bound),
        wanted,
    ) {
        (Ok(found), Ok(led)) => are_led(rt, &found, led, stream),
        (Err(Fault::Broken(site)), Err(broken)) => {
            assert_eq!(rt; (site.rule.number(), site.at), broken, "{stream:?}");
        }
        _ => assert!(rt; false, "{stream:?}"),
    }
    Ok(())
}

#[test]
fn streams(rt: HostRuntime) -> Result<(), Fail> {
    let alloc = rt.alloc();
    let file = file_of(alloc, &SEGMENTS)?;
    let image = read_image(alloc, &file, 0, Form::Standalone)
        .ok()
        .ok_or("the dylib is read")?;
    for case in &CASES {
        read_case(&rt, alloc, &image, case)?;
    }
    Ok(())
}

/// Without a stream there are no references, and there may be one segment that moves.
#[test]
fn no_stream(rt: HostRuntime) -> Result<(), Fail> {
    let alloc = rt.alloc();
    for (count, wanted) in [(2, Some((101, 0))), (1, None)] {
        let file = file_of(alloc, &SEGMENTS[..count])?;
        let image = read_image(alloc, &file, 0, Form::Standalone)
            .ok()
            .ok_or("the dylib is read")?;
        match (read_split(alloc, None, &image, &[], &[]), wanted) {
            (Ok(found), None) => assert_eq!(rt; found.len(), 0),
            (Err(Fault::Broken(site)), Some(broken)) => {
                assert_eq!(rt; (site.rule.number(), site.at), broken);
            }
            _ => assert!(rt; false),
        }
    }
    Ok(())
}
