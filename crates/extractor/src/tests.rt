// A cache of one image vetted, as it is and with changes.
mod cases;
mod files;

use super::*;
use cache_check::read_cache;
use cases::{CASES, NUMBERS, SIZE, SLIDES};
use dsc_base::ViewFault;
use files::{BODIES, FILES};
use macho_image::{Form, read_image};
use sample_dylibs::{bytes_with, put_numbers};
use std::alloc::Global;
use std::test::*;

/// The file with these numbers in it.
fn file_with(alloc: Global, edits: &[(usize, u32)]) -> Result<Vec<u8>, Fail> {
    let mut file = bytes_with(alloc, SIZE, &NUMBERS)?;
    put_numbers(&mut file, &SLIDES);
    put_numbers(&mut file, edits);
    Ok(file)
}

/// The number of what is found, the image and the place; nothing is 0, and want of memory none of these.
fn told(fault: ViewFault) -> Option<(u16, u32, u64)> {
    match fault {
        ViewFault::Broken(finding) => Some((finding.kind.number(), finding.image, finding.at)),
        ViewFault::Memory => None,
    }
}

fn found(alloc: Global, file: &[u8]) -> Option<(u16, u32, u64)> {
    let view = match read_cache(alloc, file) {
        Ok(view) => view,
        Err(fault) => return told(fault),
    };
    match vet(alloc, &view) {
        Ok(_) => Some((0, 0, 0)),
        Err(fault) => told(fault),
    }
}

#[test]
fn findings(rt: HostRuntime) -> Result<(), Fail> {
    let alloc = rt.alloc();
    for (edits, number, image, place) in CASES {
        let file = file_with(alloc, edits)?;
        assert_eq!(rt;
            found(alloc, &file),
            Some((number, image, place)),
            "finding {number} of image {image} at {place:x}"
        );
    }
    Ok(())
}

#[test]
fn parts(rt: HostRuntime) -> Result<(), Fail> {
    let alloc = rt.alloc();
    let file = file_with(alloc, &[])?;
    let view = read_cache(alloc, &file).ok().ok_or("the cache is read")?;
    let vetted = vet(alloc, &view).ok().ok_or("nothing is found")?;
    assert_eq!(rt; vetted.number(b"/a.dylib"), Some(0));
    assert_eq!(rt; vetted.number(b"/z"), None);
    let words = vetted.free.first().ok_or("there is an image")?;
    let word = words.first().ok_or("there is a word")?;
    assert_eq!(rt; words.len(), 1);
    assert_eq!(rt;
        (word.segment, word.section, word.address),
        (1, 2, 0x7fff20002010)
    );
    Ok(())
}

/// The bytes of the cache's segments, and zeros up to a length, with these numbers in them.
fn wanted_file(
    alloc: Global,
    cache: &[u8],
    len: usize,
    numbers: &[(usize, u32)],
) -> Result<Vec<u8>, Fail> {
    let mut file = Vec::with_capacity(alloc, len)?;
    let bodies = cache
        .get(BODIES.0..BODIES.1)
        .ok_or("the segments are there")?;
    file.extend_from_slice(bodies)?;
    file.resize(len, 0)?;
    put_numbers(&mut file, numbers);
    Ok(file)
}

#[test]
fn extracted(rt: HostRuntime) -> Result<(), Fail> {
    let alloc = rt.alloc();
    for (edits, len, numbers) in FILES {
        let cache = file_with(alloc, edits)?;
        let view = read_cache(alloc, &cache).ok().ok_or("the cache is read")?;
        let vetted = vet(alloc, &view).ok().ok_or("nothing is found")?;
        if vetted.images.is_empty() {
            return Err("there is an image".into());
        }
        let file = extract(alloc, &vetted, 0).ok().ok_or("memory is left")?;
        let wanted = wanted_file(alloc, &cache, len, numbers)?;
        assert_eq!(rt; file.as_slice(), wanted.as_slice());
        let image = read_image(alloc, &file, 0, Form::Standalone)
            .ok()
            .ok_or("the file is read")?;
        assert_eq!(rt; image.segments.len(), 3);
    }
    Ok(())
}
