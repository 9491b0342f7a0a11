// Pointers that are rebased: what they are in the cache, and in the mapped cache.
use super::{AT_THE_EDGE, put_all, run_line};
use crate::tests::dylibs::data_dylib;
use dsc_base::{MemStore, Store, put_u32, read_u64};
use std::alloc::Global;
use std::process::Abort;
use std::test::Fail;
use std::thread::Threads;

/// What is built: numbers of four bytes that are set in the dylib with data, the words, the line that is printed,
/// and numbers of 8 bytes in the cache.
type Built<'a> = (&'a [(usize, u32)], &'a str, &'a str, &'a [(usize, u64)]);

const BUILT: [Built<'static>; 3] = [
    // one pointer: where slide information stands and how long it is, the most that the cache may slide,
    // the commands of the cached header, the pointer, the start of its page, and the linkedit
    (
        &[],
        "build c A",
        "built 1 images, span 0x5000\n",
        &[
            (0x38, 0x3000),
            (0x40, 42),
            (0xF0, 0xDFDF_B000),
            (0x158, 0x7FFF_2000_1000),
            (0x1010, 0x1D0_0000_0005),
            (0x2010, 0x7FFF_2000_2020),
            (0x3028, 4),
            (0x4000, 0),
        ],
    ),
    // two pointers in one chain, of which the second leads into the text
    (
        &[
            (0x1CC, 7),
            (0x2000, 0x7010_2111),
            (0x2004, 0x5110),
            (0x1028, 0x400),
        ],
        "build c A",
        "built 1 images, span 0x5000\n",
        &[
            (0x2010, 0x6_7FFF_2000_2020),
            (0x2028, 0x7FFF_2000_1400),
            (0x3028, 4),
        ],
    ),
    // a pointer to the end of the text leads to the start of the data, and each image keeps its own
    (
        &[(0x1010, 0x1000)],
        "build c A B",
        "built 2 images, span 0x7000\n",
        &[(0x3010, 0x7FFF_2000_3000), (0x4010, 0x7FFF_2000_4020)],
    ),
];

/// The cache that a line makes of the dylib with so many bytes of data, in which these numbers are set, and of a
/// second one with a page of data, after it has printed what is wanted.
fn cache_of<R: Threads + Sync + Abort>(
    rt: &R,
    alloc: Global,
    line: &str,
    file: Vec<u8>,
    want: &str,
) -> Result<Vec<u8>, Fail> {
    let mut store = MemStore::new(alloc);
    store.insert("A", file)?;
    let mut other = data_dylib(alloc, 0x1000)?;
    put_all(&mut other, &[(0x1B0, 0x642E_622F)]);
    store.insert("B", other)?;
    let answer = run_line(rt, alloc, line, &mut store, 99, 99)?;
    assert_eq!(rt; answer.out.bytes(), want.as_bytes());
    Ok(store.get(alloc, "c", 0x7000)?)
}

/// These numbers stand in the cache.
fn has_numbers<R: Abort>(rt: &R, cache: &[u8], numbers: &[(usize, u64)]) {
    for (at, want) in numbers {
        assert_eq!(rt; read_u64(cache, *at), Some(*want), "at {at:x}");
    }
}

#[test]
fn pointers_move_with_what_they_lead_to(rt: HostRuntime) -> Result<(), Fail> {
    let alloc = rt.alloc();
    for (numbers, line, want, words) in BUILT {
        let mut file = data_dylib(alloc, 0x1000)?;
        put_all(&mut file, numbers);
        let cache = cache_of(&rt, alloc, line, file, want)?;
        has_numbers(&rt, &cache, words);
    }
    // A word that ends with its page is linked like any other.
    let mut file = data_dylib(alloc, 0x2000)?;
    put_all(&mut file, &AT_THE_EDGE);
    let cache = cache_of(
        &rt,
        alloc,
        "build c A",
        file,
        "built 1 images, span 0x6000\n",
    )?;
    has_numbers(
        &rt,
        &cache,
        &[(0x2FF8, 0x7FFF_2000_1000), (0x4028, 0x4000_03FE)],
    );
    Ok(())
}

/// Slides one page of data as a loader does: by the start of the page, each word leads to the next one by its
/// highest 16 bits, in units of four bytes, and the others are its value.
fn slide_page(page: &mut [u8], start: u64, slide: u64) {
    let mut at = start.wrapping_mul(4) as usize;
    for _ in 0..1024 {
        let Some(raw) = read_u64(page, at) else {
            return;
        };
        let value = raw & 0xFFFF_FFFF_FFFF;
        let moved = if value == 0 {
            0
        } else {
            value.wrapping_add(slide)
        };
        put_both(page, at, moved);
        if raw >> 48 == 0 {
            return;
        }
        at = at.wrapping_add((raw >> 48) as usize * 4);
    }
}

/// A number of 8 bytes, where it lies inside.
fn put_both(bytes: &mut [u8], at: usize, value: u64) {
    if at < bytes.len() && bytes.len() - at >= 8 {
        put_u32(bytes, at, (value & 0xFFFF_FFFF) as u32);
        put_u32(bytes, at + 4, (value >> 32) as u32);
    }
}

/// The page of data of the cache, as it is mapped at a slide: the pointer has the number that is wanted, and all
/// other bytes are the file's.
fn is_mapped<R: Abort>(
    rt: &R,
    alloc: Global,
    cache: &[u8],
    file: &[u8],
    slide: u64,
    want: u64,
) -> Result<(), Fail> {
    let mut page = Vec::new(alloc);
    page.extend_from_slice(cache.get(0x2000..0x3000).unwrap_or(&[]))?;
    slide_page(&mut page, 4, slide);
    assert_eq!(rt; read_u64(&page, 0x10), Some(want), "slide {slide:x}");
    assert_eq!(rt; page.get(..0x10), file.get(0x1000..0x1010));
    assert_eq!(rt; page.get(0x18..), file.get(0x1018..0x2000));
    Ok(())
}

#[test]
fn the_mapped_cache_is_the_loaded_file(rt: HostRuntime) -> Result<(), Fail> {
    let alloc = rt.alloc();
    let file = data_dylib(alloc, 0x1000)?;
    let line = "built 1 images, span 0x5000\n";
    let cache = cache_of(&rt, alloc, "build c A", data_dylib(alloc, 0x1000)?, line)?;
    is_mapped(&rt, alloc, &cache, &file, 0, 0x7FFF_2000_2020)?;
    is_mapped(&rt, alloc, &cache, &file, 0x1000, 0x7FFF_2000_3020)?;
    is_mapped(&rt, alloc, &cache, &file, 0xDFDF_B000, 0x7FFF_FFDF_D020)?;
    // The text section is the file's.
    assert_eq!(rt; cache.get(0x1400..0x1C00), file.get(0x400..0xC00));
    Ok(())
}
