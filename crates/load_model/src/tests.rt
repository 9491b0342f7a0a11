// Two small dylibs loaded at slides of their own: a pointer of the first leads into the second.
ghost use Rattle.prebind.specs.Sets.{IsSoundSet};

use crate::{LoadedSegment, load_image, read_files};
use dep_closure::Links;
use dsc_base::read_u64;
use macho_image::Image;
use prebind::{ImageStreams, Set};
use sample_dylibs::{data_dylib, put_numbers};
use std::alloc::Global;
use std::process::Abort;
use std::test::Fail;

/// `/a.dylib` needs `/b.dylib`, and its word at 0x1020 is bound to `_b` there, 8 bytes on.
const FIRST: [(usize, u32); 16] = [
    (0x10, 0x7),
    (0x14, 0x208),
    // bind_off and bind_size
    (0x1d0, 0x2010),
    (0x1d4, 0xc),
    // LC_LOAD_DYLIB
    (0x200, 0xc),
    (0x204, 0x28),
    (0x208, 0x18),
    (0x20c, 0x2),
    (0x210, 0x10000),
    (0x214, 0x10000),
    (0x218, 0x642e622f),
    (0x21c, 0x62696c79),
    // ordinal 1, `_b`, a pointer, 0x20 bytes into segment 1, the addend 8, one bind
    (0x2010, 0x625f4011),
    (0x2014, 0x20715100),
    (0x2018, 0x900860),
    (0x201c, 0x0),
];

/// `/b.dylib` exports `_b` at 0x1800.
const SECOND: [(usize, u32); 6] = [
    (0x1b0, 0x642e622f),
    // export_off and export_size
    (0x1e8, 0x2010),
    (0x1ec, 0xb),
    // a root with the edge `_b` to the node at 6, which has no flags and the offset
    (0x2010, 0x625f0100),
    (0x2014, 0x30600),
    (0x2018, 0x3080),
];

const SLIDES: [u64; 2] = [0x1000, 0x10000];

/// The starts of `__TEXT` and `__DATA`, of each of the two images: 0 and 0x1000, and its slide.
const STARTS: [[u64; 2]; 2] = [[0x1000, 0x2000], [0x10000, 0x11000]];

/// The numbers 0x10 and 0x20 bytes into `__DATA`, of each of the two images. The first one is rebased: 0x1020 and
/// the image's slide. The other one is the first image's bind: 0x1800, 8 and the second image's slide.
const NUMBERS: [[u64; 2]; 2] = [[0x2020, 0x11808], [0x11020, 0]];

fn file_with(alloc: Global, numbers: &[(usize, u32)]) -> Result<Vec<u8>, Fail> {
    let mut file = data_dylib(alloc, 0x2040)?;
    put_numbers(&mut file, numbers);
    Ok(file)
}

fn loaded_of(
    alloc: Global,
    images: &[Image<'_>],
    streams: &[ImageStreams<'_>],
    links: &Links,
    image: u32,
) -> Result<Vec<LoadedSegment>, Fail>
    requires { IsSoundSet (record { images = images.now; streams = streams.now; links = links.now }) }
{
    if image as usize >= images.len() {
        return Err("an image of the set")?;
    }
    let set = Set {
        images,
        streams,
        links,
    };
    match load_image(alloc, &set, image, &SLIDES) {
        Ok(segments) => Ok(segments),
        Err(_) => Err("the image is loaded")?,
    }
}

/// The segments of an image of a set of files.
fn segments_of(alloc: Global, files: &[Vec<u8>], image: u32) -> Result<Vec<LoadedSegment>, Fail> {
    if files.len() > 4096 {
        return Err("few files")?;
    }
    match read_files(alloc, files) {
        Ok(set) => loaded_of(alloc, &set.images, &set.streams, &set.links, image),
        Err(_) => Err("the files are read")?,
    }
}

/// The number so many bytes into the data.
fn number_in(segments: &[LoadedSegment], at: usize) -> Option<u64> {
    match segments.get(1) {
        Some(segment) => read_u64(&segment.bytes, at),
        None => None,
    }
}

fn are_loaded(rt: &impl Abort, segments: &[LoadedSegment], starts: &[u64; 2], numbers: &[u64; 2]) {
    assert_eq!(rt; segments.len(), 2, "text and data");
    for (segment, start) in segments.iter().zip(starts) {
        assert_eq!(rt; segment.address, *start, "where a segment starts");
        assert_eq!(rt; segment.bytes.len(), 0x1000, "a segment is whole");
    }
    assert_eq!(rt;
        number_in(segments, 0x10),
        Some(numbers[0]),
        "the rebased number"
    );
    assert_eq!(rt;
        number_in(segments, 0x20),
        Some(numbers[1]),
        "the bound number"
    );
}

#[test]
fn two_images(rt: HostRuntime) -> Result<(), Fail> {
    let alloc = rt.alloc();
    let files = [file_with(alloc, &FIRST)?, file_with(alloc, &SECOND)?];
    let first = segments_of(alloc, &files, 0)?;
    are_loaded(&rt, &first, &STARTS[0], &NUMBERS[0]);
    let second = segments_of(alloc, &files, 1)?;
    are_loaded(&rt, &second, &STARTS[1], &NUMBERS[1]);
    Ok(())
}
