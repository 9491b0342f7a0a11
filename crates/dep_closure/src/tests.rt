// Sets of small dylibs: what their ordinals name and in which order they are searched, and sets that break
// each of rules 121 to 123.
ghost use Rattle.std.specs.Prelude.{◌≡◌, ◌≤◌, length, IfOk};

use crate::{Dep, Links, link_set};
use dsc_base::SetFault;
use macho_image::{Image, read_images};
use std::alloc::Global;
use std::process::Abort;
use std::test::Fail;

/// The commands of a dependency.
const LOAD: u32 = 0xC;

const WEAK: u32 = 0x8000_0018;

const REEXPORT: u32 = 0x8000_001F;

const UPWARD: u32 = 0x8000_0023;

/// Install names, each with its NUL, and one that isn't absolute.
type Path = [u8; 8];

const A: Path = *b"/a\0\0\0\0\0\0";

const B: Path = *b"/b\0\0\0\0\0\0";

const C: Path = *b"/c\0\0\0\0\0\0";

const D: Path = *b"/d\0\0\0\0\0\0";

const E: Path = *b"/e\0\0\0\0\0\0";

const ABSENT: Path = *b"/absent\0";

const RELATIVE: Path = *b"@rpath\0\0";

/// A dylib by its install name and its dependencies.
type Dylib = (Path, &'static [(u32, Path)]);

/// What is wanted of a set: the search order of each image, or the rule, the image and the place.
type Wanted = Result<&'static [&'static [u32]], (u16, u32, u64)>;

const CASES: [(&[Dylib], Wanted); 17] = [
    // nothing
    (&[], Ok(&[])),
    // an image that needs nothing
    (&[(A, &[])], Ok(&[&[0]])),
    // depth first, in the order of the commands
    (
        &[
            (A, &[(REEXPORT, C), (REEXPORT, B)]),
            (B, &[]),
            (C, &[(REEXPORT, D)]),
            (D, &[]),
        ],
        Ok(&[&[0, 2, 3, 1], &[1], &[2, 3], &[3]]),
    ),
    // an image that is reached twice
    (
        &[
            (A, &[(REEXPORT, B), (REEXPORT, C)]),
            (B, &[(REEXPORT, D)]),
            (C, &[(REEXPORT, E), (REEXPORT, D)]),
            (D, &[(REEXPORT, C)]),
            (E, &[]),
        ],
        Ok(&[
            &[0, 1, 3, 2, 4],
            &[1, 3, 2, 4],
            &[2, 4, 3],
            &[3, 2, 4],
            &[4],
        ]),
    ),
    // no other kind of dependency is followed
    (
        &[(A, &[(LOAD, B), (WEAK, B), (UPWARD, B)]), (B, &[])],
        Ok(&[&[0], &[1]]),
    ),
    // circles of one and of two
    (
        &[(A, &[(REEXPORT, A)]), (B, &[(REEXPORT, A), (REEXPORT, B)])],
        Ok(&[&[0], &[1, 0]]),
    ),
    (
        &[(A, &[(REEXPORT, B)]), (B, &[(REEXPORT, A)])],
        Ok(&[&[0, 1], &[1, 0]]),
    ),
    // a weak dependency that isn't there
    (&[(A, &[(WEAK, ABSENT)])], Ok(&[&[0]])),
    // the same, of the other kinds
    (&[(A, &[(LOAD, ABSENT)])], Err((123, 0, 1))),
    (
        &[(A, &[(WEAK, ABSENT), (UPWARD, ABSENT)])],
        Err((123, 0, 2)),
    ),
    (
        &[(A, &[(LOAD, B)]), (B, &[(REEXPORT, ABSENT)])],
        Err((123, 1, 1)),
    ),
    // a name that isn't absolute, and one behind a dependency that is missing
    (&[(A, &[(WEAK, RELATIVE)])], Err((122, 0, 1))),
    (
        &[(A, &[(LOAD, ABSENT), (LOAD, RELATIVE)])],
        Err((122, 0, 2)),
    ),
    // a name that is there twice
    (&[(A, &[]), (B, &[]), (A, &[])], Err((121, 2, 0))),
    (&[(B, &[]), (A, &[]), (A, &[]), (B, &[])], Err((121, 2, 1))),
    // and one behind an image that lacks a dependency
    (
        &[(A, &[(LOAD, ABSENT)]), (A, &[(LOAD, RELATIVE)])],
        Err((123, 0, 1)),
    ),
    // and before the dependencies of the same image
    (&[(A, &[]), (A, &[(LOAD, RELATIVE)])], Err((121, 1, 0))),
];

fn put_numbers(file: &mut Vec<u8>, numbers: &[u32]) -> Result<(), Fail> {
    for number in numbers {
        file.extend_from_slice(&number.to_le_bytes())?;
    }
    Ok(())
}

/// A segment command without sections, of one page.
fn put_segment(
    file: &mut Vec<u8>,
    name: &[u8; 16],
    start: u32,
    size: u32,
    prot: u32,
) -> Result<(), Fail> {
    put_numbers(file, &[0x19, 72])?;
    file.extend_from_slice(name)?;
    put_numbers(
        file,
        &[start, 0, 0x1000, 0, start, 0, size, 0, prot, prot, 0, 0],
    )
}

/// A command with a name, of 32 bytes.
fn put_name(file: &mut Vec<u8>, command: u32, name: &Path) -> Result<(), Fail> {
    put_numbers(file, &[command, 32, 24, 0, 0, 0])?;
    file.extend_from_slice(name)?;
    Ok(())
}

fn file_of(alloc: Global, dylib: &Dylib) -> Result<Vec<u8>, Fail> {
    let (name, dependencies) = dylib;
    let count = u32::try_from(dependencies.len())
        .ok()
        .ok_or("few dependencies")?;
    let commands = count.wrapping_add(3);
    let size = count.wrapping_mul(32).wrapping_add(176);
    let mut file = Vec::new(alloc);
    put_numbers(
        &mut file,
        &[0xFEED_FACF, 0x0100_0007, 3, 6, commands, size, 0x80, 0],
    )?;
    put_segment(&mut file, b"__TEXT\0\0\0\0\0\0\0\0\0\0", 0, 0x1000, 5)?;
    put_segment(&mut file, b"__LINKEDIT\0\0\0\0\0\0", 0x1000, 0, 1)?;
    put_name(&mut file, 0xD, name)?;
    for (command, needed) in *dependencies {
        put_name(&mut file, *command, needed)?;
    }
    file.resize(0x1000, 0)?;
    Ok(file)
}

fn files_of(alloc: Global, dylibs: &[Dylib]) -> Result<Vec<Vec<u8>>, Fail> {
    let mut files = Vec::new(alloc);
    for dylib in dylibs {
        files.push(file_of(alloc, dylib)?)?;
    }
    Ok(files)
}

/// The images have these search orders.
fn have_orders(rt: &impl Abort, links: &Links, images: &[Image<'_>], orders: &[&[u32]])
    requires few { length images.now ≤ 4097 }
    requires one_each { length links.now.orders ≡ length images.now }
{
    assert_eq!(rt; images.len(), orders.len());
    for (image, order) in orders.iter().enumerate() {
        assert_eq!(rt; links.search_order(image as u32), *order);
    }
}

#[test]
fn sets(rt: HostRuntime) -> Result<(), Fail> {
    let alloc = rt.alloc();
    for (dylibs, wanted) in CASES {
        let files = files_of(alloc, dylibs)?;
        assert!(rt; files.len() <= 4096);
        let images = read_images(alloc, &files)
            .ok()
            .ok_or("the dylibs are read")?;
        assert!(rt; images.len() <= 4097);
        match (link_set(alloc, &images), wanted) {
            (Ok(links), Ok(orders)) => have_orders(&rt, &links, &images, orders),
            (Err(SetFault::Broken(found)), Err(broken)) => {
                assert_eq!(rt; (found.rule.number(), found.image, found.at), broken);
            }
            _ => assert!(rt; false),
        }
    }
    Ok(())
}

/// What the ordinals of two images name.
const ORDINALS: [(u32, u64, Dep); 8] = [
    (0, 0, Dep::Image(0)),
    (0, 1, Dep::Missing),
    (0, 2, Dep::Image(1)),
    (0, 3, Dep::BadOrdinal),
    (0, u64::MAX, Dep::BadOrdinal),
    (1, 0, Dep::Image(1)),
    (1, 1, Dep::Image(0)),
    (1, 2, Dep::BadOrdinal),
];

fn names_of(rt: &impl Abort, links: &Links)
    requires { length links.now.dependencies ≡ 2 }
{
    for (image, ordinal, wanted) in ORDINALS {
        if image < 2 {
            assert_eq!(rt; links.dependency(image, ordinal), wanted);
        }
    }
}

/// A type that workers may share and hand back.
fn is_shared<T: Send + Sync>(_value: &T) {}

#[test]
fn ordinals(rt: HostRuntime) -> Result<(), Fail> {
    let alloc = rt.alloc();
    let files = files_of(
        alloc,
        &[(A, &[(WEAK, ABSENT), (LOAD, B)]), (B, &[(REEXPORT, A)])],
    )?;
    assert!(rt; files.len() <= 4096);
    let images = read_images(alloc, &files)
        .ok()
        .ok_or("the dylibs are read")?;
    assert_eq!(rt; images.len(), 2);
    match link_set(alloc, &images) {
        Ok(links) => {
            is_shared(&links);
            names_of(&rt, &links);
        }
        Err(_) => assert!(rt; false),
    }
    Ok(())
}
