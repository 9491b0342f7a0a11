// The linkedit of one small dylib, and of two that share their names; and a pool by itself.
ghost use Rattle.std.specs.Prelude.{◌≡◌, ◌<◌, ◌≤◌, None, length, map, All, IfOk, OnOk, IfSome};
ghost use Rattle.nlist_table.specs.Kept.{AreTables};
ghost use Rattle.cache_layout.specs.Layouts.{layout_of, layout_break};
ghost use Rattle.prebind.specs.Agree.{HaveExportsInside};
ghost use Rattle.prebind.specs.Sets.{lists_of, streams_break, IsSoundSet};
ghost use Rattle.prebind.specs.Steps.{set_of};
ghost use Rattle.linkedit_merge.specs.Conditions.{HaveTables};
ghost use Rattle.linkedit_merge.specs.Indices.{HasIndices};

use super::*;
use cache_layout::{Layout, lay_out};
use dep_closure::link_set;
use dsc_base::{Break, NoMemory, Rule, SetFault};
use macho_edit::LinkSpots;
use macho_image::{Image, read_images};
use nlist_table::{Symbol, Tables, read_tables};
use prebind::{ImageStreams, Set, check_exports, read_all_streams};
use sample_dylibs::{put_numbers, symbols_dylib};
use std::alloc::Global;
use std::test::*;

/// The symbols `_a` at 0x800 and `_b` at 0x900, and what the commands say of them.
const TABLES: [(usize, u32); 15] = [
    (0x134, 0x2),
    (0x138, 0x1020),
    (0x13c, 0x7),
    (0x14c, 0x1),
    (0x150, 0x1),
    (0x154, 0x1),
    (0x158, 0x2),
    (0x1000, 0x1),
    (0x1004, 0x10e),
    (0x1008, 0x800),
    (0x1010, 0x4),
    (0x1014, 0x10f),
    (0x1018, 0x900),
    (0x1020, 0x615f00),
    (0x1024, 0x625f),
];

/// Linkedits at 0x3000 and 0x4000, by their numbers of four bytes from the start, and the place and size of the pool.
const ONE: [u32; 8] = [1, 0x10e, 0x20001800, 0x7fff, 4, 0x10f, 0x20001900, 0x7fff];

const TWO: [u32; 16] = [
    1, 0x10e, 0x20001800, 0x7fff, 4, 0x10f, 0x20001900, 0x7fff, 1, 0x10e, 0x20002800, 0x7fff, 4,
    0x10f, 0x20002900, 0x7fff,
];

const NAMES: [u8; 7] = *b"\0_a\0_b\0";

const CASES: [(&[u32], &[u32], (u64, u64)); 2] = [
    (&[0x642e732f], &ONE, (0x3020, 7)),
    (&[0x642e732f, 0x642e742f], &TWO, (0x4040, 7)),
];

/// A dylib whose install name begins with these four letters.
fn file_of(alloc: Global, letters: u32) -> Result<Vec<u8>, Fail> {
    let mut file = symbols_dylib(alloc, 0xa000)?;
    put_numbers(&mut file, &TABLES);
    put_numbers(&mut file, &[(0x118, letters)]);
    Ok(file)
}

fn tables_in<'a>(alloc: Global, image: &Image<'a>) -> Result<Tables<'a>, Fail>
    ensures { IfOk result (AreTables (length image.now.sections)) }
{
    match read_tables(alloc, image) {
        Ok(tables) => Ok(tables),
        Err(_) => Err("the tables are read")?,
    }
}

fn tables_of<'a>(alloc: Global, images: &[Image<'a>]) -> Result<Vec<Tables<'a>>, Fail>
    ensures { IfOk result (λ v. HaveTables images.now v.items) }
{
    let mut tables = Vec::new(alloc);
    for image in images {
        let read = tables_in(alloc, image)?;
        tables.push(read)?;
    }
    Ok(tables)
}

/// The layout of images that have short names.
fn laid_out(alloc: Global, images: &[Image<'_>]) -> Result<Layout, Fail>
    ensures layout { IfOk result (λ l. l ≡ layout_of images.now) }
    ensures fits { OnOk result (layout_break images.now ≡ None) }
{
    if images.len() > 4096 || !images.iter().all(|i| i.install_name.len() <= 1024) {
        return Err("the names are short")?;
    }
    match lay_out(alloc, images) {
        Ok(layout) => Ok(layout),
        Err(_) => Err("the images are laid out")?,
    }
}

fn exports_inside(alloc: Global, set: &Set<'_, '_>) -> Result<(), Fail>
    requires { IsSoundSet (set_of set.now) }
    ensures { OnOk result (HaveExportsInside (set_of set.now)) }
{
    for image in 0..set.images.len() {
        match check_exports(alloc, set, image as u32) {
            Ok(()) => {}
            Err(_) => return Err("the exports are inside")?,
        }
    }
    Ok(())
}

/// Slide information above the limit of a cache is refused, from sizes alone.
fn large_is_refused(
    alloc: Global,
    set: &Set<'_, '_>,
    tables: &[Tables<'_>],
    layout: &Layout,
) -> Result<(), Fail>
    requires sound { IsSoundSet (set_of set.now) }
    requires tables { HaveTables set.now.images.now tables.now }
    requires layout { layout.now ≡ layout_of set.now.images.now }
    requires inside { HaveExportsInside (set_of set.now) }
    requires fits { layout_break set.now.images.now ≡ None }
{
    let too_large = Break {
        rule: Rule::LinkeditTooLarge,
        image: 0,
        at: 0x2000_0000,
    };
    match merge(alloc, set, tables, layout, 0x2000_0001) {
        Err(SetFault::Broken(found)) if found == too_large => Ok(()),
        _ => Err("slide information above the limit is refused")?,
    }
}

fn merged_of(
    alloc: Global,
    set: &Set<'_, '_>,
    tables: &[Tables<'_>],
    layout: &Layout,
) -> Result<(Vec<u8>, Vec<LinkSpots>), Fail>
    requires sound { IsSoundSet (set_of set.now) }
    requires tables { HaveTables set.now.images.now tables.now }
    requires layout { layout.now ≡ layout_of set.now.images.now }
    requires fits { layout_break set.now.images.now ≡ None }
{
    exports_inside(alloc, set)?;
    large_is_refused(alloc, set, tables, layout)?;
    match merge(alloc, set, tables, layout, 0x28) {
        Ok(merged) => Ok(merged),
        Err(_) => Err("the linkedit is merged")?,
    }
}

fn linkedit_with(
    alloc: Global,
    images: &[Image<'_>],
    streams: &[ImageStreams<'_>],
) -> Result<(Vec<u8>, Vec<LinkSpots>), Fail>
    requires few { length images.now ≤ 4096 }
    requires lists { streams.now ≡ map lists_of images.now }
    requires unbroken { All (λ i. streams_break i ≡ None) images.now }
{
    let tables = tables_of(alloc, images)?;
    let layout = laid_out(alloc, images)?;
    match link_set(alloc, images) {
        Ok(links) => {
            let set = Set {
                images,
                streams,
                links: &links,
            };
            merged_of(alloc, &set, &tables, &layout)
        }
        Err(_) => Err("the set is linked")?,
    }
}

fn linkedit_of(alloc: Global, files: &[Vec<u8>]) -> Result<(Vec<u8>, Vec<LinkSpots>), Fail> {
    if files.len() > 4096 {
        return Err("few files")?;
    }
    let images = read_images(alloc, files).ok().ok_or("the dylibs are read")?;
    if images.len() > 4096 {
        return Err("few images")?;
    }
    match read_all_streams(alloc, &images) {
        Ok(streams) => linkedit_with(alloc, &images, &streams),
        Err(_) => Err("the streams are read")?,
    }
}

#[test]
fn small_linkedits(rt: HostRuntime) -> Result<(), Fail> {
    let alloc = rt.alloc();
    for (letters, numbers, (at, len)) in CASES {
        let mut files = Vec::new(alloc);
        for name in letters {
            files.push(file_of(alloc, *name)?)?;
        }
        let mut wanted = Vec::new(alloc);
        for number in numbers {
            wanted.extend_from_slice(&number.to_le_bytes())?;
        }
        wanted.extend_from_slice(&NAMES)?;
        let (bytes, spots) = linkedit_of(alloc, &files)?;
        assert_eq!(rt; bytes.as_slice(), wanted.as_slice());
        assert_eq!(rt; spots.len(), letters.len());
        for spot in &spots {
            assert_eq!(rt; (spot.strings.at, spot.strings.len), (at, len));
        }
    }
    Ok(())
}

/// The pool of `_a` and `_b`, the entry of `_b`, and an index.
const POOLED: [u8; 27] = *b"\0_a\0_b\0\x04\0\0\0\x0f\x01\0\0\x09\0\0\0\0\0\0\0\x05\0\0\0";

fn symbol_of<'a>(name: &'a [u8], alias: Option<&'a [u8]>) -> Symbol<'a> {
    Symbol {
        name,
        alias,
        kind: 0x0f,
        section: 1,
        desc: 0,
        value: 0x800,
    }
}

fn pooled(alloc: Global, pool: &Pool<'_>, symbol: &Symbol<'_>) -> Result<Vec<u8>, NoMemory>
    requires { HasIndices pool.now }
{
    let mut out = Vec::new(alloc);
    append_pool(&mut out, pool)?;
    append_entry(&mut out, pool.index_of(symbol.name), symbol, 9)?;
    append_indices(&mut out, &[5])?;
    Ok(out)
}

#[test]
fn a_name_is_pooled_once(rt: HostRuntime) -> Result<(), Fail> {
    let alloc = rt.alloc();
    let symbols = [symbol_of(b"_a", None), symbol_of(b"_b", Some(b"_a"))];
    assert!(rt; matches!(pool_of(alloc, &symbols, 6), Err(SizeFault::TooLarge)));
    match pool_of(alloc, &symbols, 7) {
        Ok(pool) => {
            let bytes = pooled(alloc, &pool, &symbols[1])
                .ok()
                .ok_or("the pool is appended")?;
            assert_eq!(rt; bytes.as_slice(), POOLED.as_slice());
        }
        Err(_) => Err("the names are pooled")?,
    }
    Ok(())
}
