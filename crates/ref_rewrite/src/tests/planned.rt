// Sets of small dylibs planned: the edits and the chained words of their first image, or what is refused.
ghost use Rattle.std.specs.Prelude.{◌≡◌, ◌≤◌, None, length, map, All, IfOk};
ghost use Rattle.prebind.specs.Sets.{lists_of, streams_break, IsSoundSet};
ghost use Rattle.prebind.specs.Steps.{set_of};
ghost use Rattle.prebind.specs.Placed.{AreListsPlaced};
ghost use Rattle.ref_rewrite.specs.Planned.{AreSplitRead};

use super::dylibs::{Dylib, file_of};
use crate::{ImagePlan, plan};
use cache_layout::lay_out;
use dep_closure::link_set;
use dsc_base::SetFault;
use macho_image::{Image, read_images};
use prebind::{ImageStreams, PlacedWord, Set, place_words, read_all_streams};
use std::alloc::Global;
use std::process::Abort;
use std::test::*;

/// A number by its offset in the file and its width.
type Number = (u64, u8, u64);

/// What is wanted of the first image: its edits and its chained words; or the rule that a set breaks, the
/// image and the place.
type Wanted = Result<(&'static [Number], &'static [u64]), (u16, u32, u64)>;

type Row = (&'static str, &'static [Dylib], Wanted);

const A: Dylib = Dylib {
    numbers: &[],
    bytes: &[],
};

/// The same with the name `/b.dylib`.
const B: Dylib = Dylib {
    numbers: &[(0x1b0, 0x642e622f)],
    bytes: &[],
};

static ROWS: [Row; 9] = [
    (
        "a difference between two segments",
        &[
            Dylib {
                numbers: &[(0x1fc, 0xb), (0x800, 0x80c)],
                bytes: &[(0x2008, b"\x7f\x01\x01\x02\x01\x10\x01\x03\x01\x80\x08")],
            },
            B,
        ],
        Ok((&[(0x3010, 8, 0x7fff20003020), (0x1800, 4, 0x180c)], &[0x10])),
    ),
    (
        "one that is too far",
        &[
            Dylib {
                numbers: &[(0x1fc, 0xb), (0x800, 0x7fffffff)],
                bytes: &[(0x2008, b"\x7f\x01\x01\x02\x01\x10\x01\x03\x01\x80\x08")],
            },
            B,
        ],
        Err((151, 0, 0)),
    ),
    (
        "a second kind from its own first offset on",
        &[
            Dylib {
                numbers: &[(0x1fc, 0x10), (0x800, 0x80c), (0x808, 0x800)],
                bytes: &[(
                    0x2008,
                    b"\x7f\x01\x01\x02\x01\x10\x02\x03\x01\x80\x08\x04\x01\x88\x08",
                )],
            },
            B,
        ],
        Ok((
            &[
                (0x3010, 8, 0x7fff20003020),
                (0x1800, 4, 0x180c),
                (0x1808, 8, 0x1800),
            ],
            &[0x10],
        )),
    ),
    (
        "an offset from the header",
        &[
            Dylib {
                numbers: &[(0x1fc, 0xb), (0x800, 0x1010)],
                bytes: &[(0x2008, b"\x7f\x01\x01\x02\x01\x10\x01\x0c\x01\x80\x08")],
            },
            B,
        ],
        Ok((&[(0x3010, 8, 0x7fff20003020), (0x1800, 4, 0x2010)], &[0x10])),
    ),
    (
        "one that is too far",
        &[
            Dylib {
                numbers: &[(0x1fc, 0xb), (0x800, 0xfffff000)],
                bytes: &[(0x2008, b"\x7f\x01\x01\x02\x01\x10\x01\x0c\x01\x80\x08")],
            },
            B,
        ],
        Err((152, 0, 0)),
    ),
    (
        "a pointer to the end of the text",
        &[
            Dylib {
                numbers: &[(0x1010, 0x1000)],
                bytes: &[],
            },
            B,
        ],
        Ok((&[(0x3010, 8, 0x7fff20003000)], &[0x10])),
    ),
    (
        "one that is recorded",
        &[
            Dylib {
                numbers: &[(0x1010, 0x1000), (0x1fc, 0xb), (0x90, 0xc00)],
                bytes: &[(0x2008, b"\x7f\x01\x02\x01\x01\x80\x18\x01\x02\x01\x10")],
            },
            B,
        ],
        Ok((&[(0x3010, 8, 0x7fff20002000)], &[0x10])),
    ),
    (
        "a bound word to the end of the data",
        &[Dylib {
            numbers: &[(0x1d0, 0x2030), (0x1d4, 13), (0x1e8, 0x2020), (0x1ec, 11)],
            bytes: &[
                (0x2020, b"\x00\x01_f\x00\x06\x03\x00\x80\x0a\x00"),
                (0x2030, b"\x10\x40_f\x00\x51\x60\x80\x36\x71\x18\x90\x00"),
            ],
        }],
        Ok((
            &[(0x2010, 8, 0x7fff20002020), (0x2018, 8, 0x7fff20003000)],
            &[0x10, 0x18],
        )),
    ),
    (
        "one behind it",
        &[Dylib {
            numbers: &[(0x1d0, 0x2030), (0x1d4, 13), (0x1e8, 0x2020), (0x1ec, 11)],
            bytes: &[
                (0x2020, b"\x00\x01_f\x00\x06\x03\x00\x80\x0a\x00"),
                (0x2030, b"\x10\x40_f\x00\x51\x60\x81\x36\x71\x18\x90\x00"),
            ],
        }],
        Err((153, 0, 0)),
    ),
];

fn files_of(alloc: Global, dylibs: &[Dylib]) -> Result<Vec<Vec<u8>>, Fail> {
    let mut files = Vec::new(alloc);
    for dylib in dylibs {
        files.push(file_of(alloc, dylib)?)?;
    }
    Ok(files)
}

/// The pointers of each image.
fn all_placed(alloc: Global, set: &Set<'_, '_>) -> Result<Vec<Vec<PlacedWord>>, Fail>
    requires { IsSoundSet (set_of set.now) }
    ensures { IfOk result (λ v. AreListsPlaced (set_of set.now) (map (λ w. w.items) v.items)) }
{
    let mut placed = Vec::new(alloc);
    for number in 0..set.images.len() {
        match place_words(alloc, set, number as u32) {
            Ok(words) => placed.push(words)?,
            Err(_) => return Err("the words are placed")?,
        }
    }
    Ok(placed)
}

/// The plans of a set whose images have short names.
fn planned<'a>(
    alloc: Global,
    set: &Set<'_, 'a>,
) -> Result<Result<Vec<ImagePlan<'a>>, SetFault>, Fail>
    requires sound { IsSoundSet (set_of set.now) }
    requires read { AreSplitRead (set_of set.now) }
{
    if set.images.len() > 4096 || !set.images.iter().all(|i| i.install_name.len() <= 1024) {
        return Err("few images with short names")?;
    }
    let placed = all_placed(alloc, set)?;
    match lay_out(alloc, set.images) {
        Ok(layout) => Ok(plan(alloc, set, &layout, &placed)),
        Err(_) => Err("the images are laid out")?,
    }
}

fn are_planned(
    rt: &impl Abort,
    plan: &ImagePlan<'_>,
    edits: &[Number],
    words: &[u64],
    title: &str,
) {
    assert_eq!(rt; plan.edits.len(), edits.len(), "{title}");
    for (edit, wanted) in plan.edits.iter().zip(edits) {
        assert_eq!(rt; (edit.at, edit.width, edit.value), *wanted, "{title}");
    }
    assert_eq!(rt; plan.words.as_slice(), words, "{title}");
}

fn stands(
    rt: &impl Abort,
    alloc: Global,
    images: &[Image<'_>],
    streams: &[ImageStreams<'_>],
    wanted: &Wanted,
    title: &str,
) -> Result<(), Fail>
    requires few { length images.now ≤ 4097 }
    requires lists { streams.now ≡ map lists_of images.now }
    requires unbroken { All (λ i. streams_break i ≡ None) images.now }
{
    match link_set(alloc, images) {
        Ok(links) => {
            let set = Set {
                images,
                streams,
                links: &links,
            };
            match (planned(alloc, &set)?, wanted) {
                (Ok(plans), Ok((edits, words))) => {
                    assert!(rt; !plans.is_empty(), "{title}");
                    are_planned(rt, &plans[0], edits, words, title);
                }
                (Err(SetFault::Broken(found)), Err(wanted)) => {
                    let found = (found.rule.number(), found.image, found.at);
                    assert_eq!(rt; found, *wanted, "{title}");
                }
                _ => assert!(rt; false, "{title}"),
            }
            Ok(())
        }
        Err(_) => Err("the set is linked")?,
    }
}

fn row_stands(
    rt: &impl Abort,
    alloc: Global,
    images: &[Image<'_>],
    wanted: &Wanted,
    title: &str,
) -> Result<(), Fail> {
    if images.len() > 4097 {
        return Err("few images")?;
    }
    match read_all_streams(alloc, images) {
        Ok(streams) => stands(rt, alloc, images, &streams, wanted, title),
        Err(_) => Err("the streams are read")?,
    }
}

#[test]
fn rows(rt: HostRuntime) -> Result<(), Fail> {
    let alloc = rt.alloc();
    for (title, dylibs, wanted) in &ROWS {
        let files = files_of(alloc, dylibs)?;
        assert!(rt; files.len() <= 4096);
        let images = read_images(alloc, &files)
            .ok()
            .ok_or("the dylibs are read")?;
        row_stands(&rt, alloc, &images, wanted, title)?;
    }
    Ok(())
}
