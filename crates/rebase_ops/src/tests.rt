// Streams of one dylib and of two that differ in their data: the locations of those that keep the rules and the
// stream that is written for these, and for each of rules 21 to 30 streams that break it.
ghost use Rattle.std.specs.Prelude.{◌≡◌, ◌<◌, true};
ghost use Rattle.std.specs.List.{All};
ghost use Rattle.rebase_ops.specs.Rebases.{AreRebases};

use crate::{read_rebases, write_rebases};
use dsc_base::Fault;
use macho_image::{Form, Image, Location, read_image};
use sample_dylibs::{SHORT, WIDE, data_dylib, put_numbers};
use std::alloc::Global;
use std::process::Abort;
use std::test::Fail;

/// What is wanted of a stream: the addresses of its locations and the stream that is written for them, or the
/// rule that it breaks and where.
type Wanted = Result<(&'static [u64], &'static [u8]), (u16, u64)>;

/// Pointers side by side.
const FIFTEEN: [u64; 15] = [
    0x1010, 0x1018, 0x1020, 0x1028, 0x1030, 0x1038, 0x1040, 0x1048, 0x1050, 0x1058, 0x1060, 0x1068,
    0x1070, 0x1078, 0x1080,
];

const SIXTEEN: [u64; 16] = [
    0x1010, 0x1018, 0x1020, 0x1028, 0x1030, 0x1038, 0x1040, 0x1048, 0x1050, 0x1058, 0x1060, 0x1068,
    0x1070, 0x1078, 0x1080, 0x1088,
];

/// Edits of the dylib, the place of its rebase stream, the stream, and what is wanted of it.
const CASES: [(&[(usize, u32)], u32, &[u8], Wanted); 28] = [
    // one pointer
    (
        &[],
        0x2010,
        b"\x11\x21\x10\x51\x00",
        Ok((&[0x1010], b"\x11\x21\x10\x51\x00")),
    ),
    // two pointers, with a gap between them
    (
        &[],
        0x2010,
        b"\x11\x21\x10\x70\x10\x51\x00",
        Ok((&[0x1010, 0x1028], b"\x11\x21\x10\x51\x21\x28\x51\x00")),
    ),
    // a pointer over the edge of a page
    (&WIDE, 0x3010, b"\x11\x21\xfc\x1f\x51\x00", Err((28, 0x4))),
    // one that ends at the edge
    (
        &WIDE,
        0x3010,
        b"\x11\x21\xf8\x1f\x51\x00",
        Ok((&[0x1ff8], b"\x11\x21\xf8\x1f\x51\x00")),
    ),
    // records that run off the end of the segment, after 512 of them
    (
        &[],
        0x2010,
        b"\x11\x21\x00\x60\x80\x80\x80\x80\x80\x20",
        Err((24, 0x3)),
    ),
    // nothing
    (&[], 0x2010, b"", Ok((&[], b"\x11\x00"))),
    // bytes behind the end
    (&[], 0x2010, b"\x00\x90", Ok((&[], b"\x11\x00"))),
    // each of the opcodes that move and record
    (
        &[],
        0x2010,
        b"\x11\x21\x00\x42\x51\x30\x08\x80\x02\x08\x60\x01",
        Ok((
            &[0x1010, 0x1020, 0x1030, 0x1040],
            b"\x11\x21\x10\x51\x21\x20\x51\x21\x30\x51\x21\x40\x51\x00",
        )),
    ),
    // a move by less than nothing
    (
        &[],
        0x2010,
        b"\x11\x21\x18\x30\xf8\xff\xff\xff\xff\xff\xff\xff\xff\x01\x51",
        Ok((&[0x1010], b"\x11\x21\x10\x51\x00")),
    ),
    // the second location below the first
    (
        &[],
        0x2010,
        b"\x11\x21\x18\x51\x21\x10\x51\x00",
        Ok((&[0x1010, 0x1018], b"\x11\x21\x10\x52\x00")),
    ),
    // as many side by side as an immediate has room for, and one more
    (
        &[],
        0x2010,
        b"\x11\x21\x10\x60\x0f",
        Ok((&FIFTEEN, b"\x11\x21\x10\x5f\x00")),
    ),
    (
        &[],
        0x2010,
        b"\x11\x21\x10\x5f\x51",
        Ok((&SIXTEEN, b"\x11\x21\x10\x60\x10\x00")),
    ),
    // a segment that isn't there, without a record
    (&[], 0x2010, b"\x11\x2f\x00\x00", Ok((&[], b"\x11\x00"))),
    // an operand that ends early, which is tried before the place
    (&[], 0x2010, b"\x11\x60\x80", Err((21, 0x1))),
    // an operand of more than 64 bits
    (
        &[],
        0x2010,
        b"\x11\x30\x80\x80\x80\x80\x80\x80\x80\x80\x80\x02",
        Err((21, 0x1)),
    ),
    // no such opcode
    (&[], 0x2010, b"\x11\x90", Err((22, 0x1))),
    // an absolute 32-bit address
    (&[], 0x2010, b"\x12\x51", Err((23, 0x0))),
    // no segment is set
    (&[], 0x2010, b"\x11\x51", Err((24, 0x1))),
    // the segment isn't there
    (&[], 0x2010, b"\x11\x2f\x00\x51", Err((24, 0x3))),
    // the second word ends behind the segment
    (&[], 0x2010, b"\x11\x21\xf4\x1f\x52", Err((24, 0x4))),
    // a word of the text
    (&[], 0x2010, b"\x11\x20\x80\x08\x51", Err((25, 0x4))),
    // a word that ends behind the section
    (&SHORT, 0x2010, b"\x11\x21\xfc\x0f\x51", Err((26, 0x4))),
    // and one that ends with it
    (
        &SHORT,
        0x2010,
        b"\x11\x21\xf8\x0f\x51",
        Ok((&[0x17f8], b"\x11\x21\xf8\x0f\x51\x00")),
    ),
    // an odd multiple of two
    (&[], 0x2010, b"\x11\x21\x02\x51", Err((27, 0x3))),
    // an odd multiple of two over a page's edge
    (&WIDE, 0x3010, b"\x11\x21\xfe\x1f\x51", Err((27, 0x4))),
    // a record too many, at one place
    (
        &[],
        0x2010,
        b"\x11\x21\x00\x80\x81\x80\x40\xf8\xff\xff\xff\xff\xff\xff\xff\xff\x01",
        Err((29, 0x3)),
    ),
    // as many as there may be, at one place
    (
        &[],
        0x2010,
        b"\x11\x21\x00\x80\x80\x80\x40\xf8\xff\xff\xff\xff\xff\xff\xff\xff\x01",
        Err((30, 0x1000)),
    ),
    // four bytes apart
    (
        &[],
        0x2010,
        b"\x11\x21\x20\x51\x21\x10\x51\x21\x0c\x51",
        Err((30, 0x100c)),
    ),
];

/// The dylib with these edits and with this rebase stream at a place.
fn file_with(
    alloc: Global,
    edits: &[(usize, u32)],
    stream_at: u32,
    stream: &[u8],
) -> Result<Vec<u8>, Fail> {
    let mut file = data_dylib(alloc, 0x3040)?;
    let size = u32::try_from(stream.len()).ok().ok_or("a short stream")?;
    put_numbers(&mut file, edits);
    put_numbers(&mut file, &[(0x1c8, stream_at), (0x1cc, size)]);
    let at = stream_at as usize;
    if at <= file.len() && stream.len() <= file.len() - at {
        file[at..at + stream.len()].copy_from_slice(stream);
    }
    Ok(file)
}

/// The locations have these addresses, in the second segment and its section, the second of all.
fn are_found(rt: &impl Abort, found: &[Location], addresses: &[u64]) {
    assert_eq!(rt; found.len(), addresses.len());
    for (location, address) in found.iter().zip(addresses) {
        let wanted = Location {
            segment: 1,
            section: 2,
            address: *address,
        };
        assert_eq!(rt; *location, wanted);
    }
}

/// Whether the locations lie in segments that an opcode has room for.
fn are_low(found: &[Location]) -> bool
    ensures { result ≡ true → All (λ l. l.segment < 16) found.now }
{
    found.iter().all(|l| l.segment < 16)
}

/// The stream that is written for the locations.
fn is_written(
    rt: &impl Abort,
    alloc: Global,
    image: &Image<'_>,
    found: &[Location],
    written: &[u8],
) -> Result<(), Fail>
    requires { AreRebases image.now found.now }
{
    if !are_low(found) {
        return Err("segments 0 to 15")?;
    }
    let stream = write_rebases(alloc, image, found).ok().ok_or("memory")?;
    assert_eq!(rt; stream.as_slice(), written);
    Ok(())
}

#[test]
fn streams(rt: HostRuntime) -> Result<(), Fail> {
    let alloc = rt.alloc();
    for (edits, stream_at, stream, wanted) in CASES {
        let file = file_with(alloc, edits, stream_at, stream)?;
        let image = read_image(alloc, &file, 0, Form::Standalone)
            .ok()
            .ok_or("the dylib is read")?;
        match (read_rebases(alloc, image.streams.rebase, &image), wanted) {
            (Ok(found), Ok((addresses, written))) => {
                are_found(&rt, &found, addresses);
                is_written(&rt, alloc, &image, &found, written)?;
            }
            (Err(Fault::Broken(site)), Err(broken)) => {
                assert_eq!(rt; (site.rule.number(), site.at), broken, "{stream:?}");
            }
            _ => assert!(rt; false, "{stream:?}"),
        }
    }
    Ok(())
}
