// Layouts of dylibs that are made here.
ghost use Rattle.std.specs.Prelude.{◌≡◌, ◌≤◌, ◌<◌, length, IfOk, IfSome};
ghost use Rattle.cache_layout.specs.Layouts.{layout_of};

use super::*;
use dsc_base::{Break, Rule, SetFault, Span};
use macho_image::{Image, read_images};
use sample_dylibs::{data_dylib, put_numbers};
use std::alloc::Global;
use std::test::*;

/// Another name of the same length.
const OTHER: &[(usize, u32)] = &[(0x1b0, 0x642e622f)];

/// A reference from the text segment to the data segment.
const DELTA: &[(usize, u32)] = &[
    (0x1fc, 0xb),
    (0x800, 0x80c),
    (0x2008, 0x0201017f),
    (0x200c, 0x03011001),
    (0x2010, 0x00088001),
];

/// A second section of the data segment, of 0x20000000 bytes without bytes in the file, for which its
/// command has 0x50 bytes more.
const LARGE: &[(usize, u32)] = &[
    (0x14, 0x230),
    (0xbc, 0xe8),
    (0xd8, 0x20001000),
    (0xf8, 0x2),
    (0x150, 0x73625f5f),
    (0x154, 0x73),
    (0x160, 0x41445f5f),
    (0x164, 0x4154),
    (0x170, 0x2000),
    (0x178, 0x20000000),
    (0x190, 0x1),
    (0x1b8, 0x20002000),
];

/// For the files of a set, each with how much further its commands from `__LINKEDIT` on stand and with its
/// edits: the new address, the file offset and the shift of each segment, and the ranges of the three
/// mappings; or where the segments end that are too many.
const CASES: [(
    &[(usize, &[(usize, u32)])],
    &[(u64, u64, u64)],
    [(u64, u64); 3],
    u64,
); 3] = [
    // one dylib
    (
        &[(0, &[])],
        &[
            (0x7fff20001000, 0x1000, 0x7fff20001000),
            (0x7fff20002000, 0x2000, 0x7fff20001000),
            (0, 0, 0),
        ],
        [(0x1000, 0x1000), (0x2000, 0x1000), (0x3000, 0)],
        0,
    ),
    // two dylibs
    (
        &[(0, DELTA), (0, OTHER)],
        &[
            (0x7fff20001000, 0x1000, 0x7fff20001000),
            (0x7fff20003000, 0x3000, 0x7fff20002000),
            (0, 0, 0),
            (0x7fff20002000, 0x2000, 0x7fff20002000),
            (0x7fff20004000, 0x4000, 0x7fff20003000),
            (0, 0, 0),
        ],
        [(0x1000, 0x2000), (0x3000, 0x2000), (0x5000, 0)],
        0,
    ),
    // more than 512 MiB
    (&[(0x50, LARGE)], &[], [(0, 0), (0, 0), (0, 0)], 0x20003000),
];

/// The commands behind the data segment's, which end at 0x200, so many bytes further back.
fn push_back(file: &mut [u8], further: usize)
    requires room { 0x250 ≤ length file.old }
    requires further { further ≤ 0x50 }
{
    for place in (0x150..0x200).rev() {
        file[place + further] = file[place];
    }
    file[0x150..0x150 + further].fill(0);
}

fn file_with(alloc: Global, further: usize, edits: &[(usize, u32)]) -> Result<Vec<u8>, Fail> {
    let mut file = data_dylib(alloc, 0x2040)?;
    push_back(&mut file, further.min(0x50));
    put_numbers(&mut file, edits);
    Ok(file)
}

/// The layout of images that have short names.
fn laid_out(alloc: Global, images: &[Image<'_>]) -> Option<Result<Layout, SetFault>>
    ensures { IfSome result (λ r. IfOk r (λ l. l ≡ layout_of images.now)) }
{
    if images.len() > 4096 || !images.iter().all(|i| i.install_name.len() <= 1024) {
        return None;
    }
    Some(lay_out(alloc, images))
}

/// The new address, the file offset and the shift of each segment of an image.
fn push_places(
    layout: &Layout,
    images: &[Image<'_>],
    number: u32,
    places: &mut Vec<(u64, u64, u64)>,
) -> Result<(), Fail>
    requires layout { layout.now ≡ layout_of images.now }
    requires image { number < length images.now }
{
    let moves = layout.moves(number);
    let image = &images[number as usize];
    let segments = image.segments.len();
    for (g, moved) in moves.segments.iter().enumerate() {
        if g < segments && g < 100 {
            places.push((moved.address, moved.file, layout.shift(number, g as u32)))?;
        }
    }
    Ok(())
}

fn places_of(
    alloc: Global,
    layout: &Layout,
    images: &[Image<'_>],
) -> Result<Vec<(u64, u64, u64)>, Fail>
    requires { layout.now ≡ layout_of images.now }
{
    let mut places = Vec::new(alloc);
    for k in 0..images.len() {
        if k < 100 {
            push_places(layout, images, k as u32, &mut places)?;
        }
    }
    Ok(places)
}

fn range(span: Span) -> (u64, u64) {
    (span.at, span.len)
}

#[test]
fn rows(rt: HostRuntime) -> Result<(), Fail> {
    let alloc = rt.alloc();
    for (edits, places, ranges, end) in CASES {
        let mut files = Vec::new(alloc);
        for (further, numbers) in edits {
            files.push(file_with(alloc, *further, numbers)?)?;
        }
        assert!(rt; files.len() <= 4096);
        let images = read_images(alloc, &files)
            .ok()
            .ok_or("the dylibs are read")?;
        match laid_out(alloc, &images).ok_or("the images can be laid out")? {
            Ok(layout) => {
                assert_eq!(rt; end, 0);
                assert_eq!(rt; places_of(alloc, &layout, &images)?.as_slice(), places);
                assert_eq!(rt; range(layout.text()), ranges[0]);
                assert_eq!(rt; range(layout.writable()), ranges[1]);
                assert_eq!(rt; range(layout.fixed()), ranges[2]);
            }
            Err(fault) => {
                let found = Break {
                    rule: Rule::SpanTooLarge,
                    image: 0,
                    at: end,
                };
                assert_eq!(rt; fault, SetFault::Broken(found));
            }
        }
    }
    Ok(())
}
