// Sets of small dylibs: where their words lead, and sets that break each of rules 131 to 137, by the files and
// by an index of the set.
ghost use Rattle.std.specs.Prelude.{◌≡◌, ◌≤◌, ◌<◌, None, length, map, All};
ghost use Rattle.prebind.specs.Sets.{lists_of, streams_break, IsSoundSet};
ghost use Rattle.prebind.specs.Steps.{set_of};

mod dylibs;
mod rows;
mod steps;
mod streams;

use crate::{
    ImageStreams, PlacedWord, Set, WordTarget, body_segments, check_exports, index_set,
    place_words, place_words_indexed, read_all_streams, read_streams,
};
use dep_closure::link_set;
use dsc_base::{Fault, SetFault};
use dylibs::{Dylib, file_of};
use export_trie::Steps;
use macho_image::{Form, Image, read_image, read_images};
use rows::{BINDS, EXPORTS, Led, POINTERS, REEXPORTS, Row};
use std::alloc::Global;
use std::marker::Brand;
use std::process::Abort;
use std::sync::ledger::{Blank, Ledger};
use std::test::Fail;
use steps::counted_words;
use streams::are_spelled;

fn files_of(alloc: Global, dylibs: &[Dylib]) -> Result<Vec<Vec<u8>>, Fail> {
    let mut files = Vec::new(alloc);
    for dylib in dylibs {
        files.push(file_of(alloc, dylib)?)?;
    }
    Ok(files)
}

/// The words of the first image, found by an index of the set.
fn indexed_words<L: Ledger>(
    alloc: Global,
    set: &Set<'_, '_>,
    steps: &mut Steps<L>,
) -> Result<Vec<PlacedWord>, SetFault>
    requires sound { IsSoundSet (set_of set.now) }
    requires some { 0 < length set.now.images.now }
{
    let indexed = index_set(alloc, set)?;
    indexed.shares();
    let streams = &set.streams[0];
    place_words_indexed(
        alloc,
        set.links,
        &indexed,
        0,
        body_segments(&set.images[0]),
        &streams.rebases,
        &streams.binds,
        &streams.references,
        steps,
    )
}

/// Whether words are found in the files of a set, or by an index of it; the last one is for a set whose steps are
/// known.
#[derive(Clone, Copy)]
enum Way {
    Files,
    Index,
    Counted,
}

/// The words of the first image, where its exports are accepted.
fn first_words<L: Ledger>(
    alloc: Global,
    set: &Set<'_, '_>,
    way: Way,
    steps: &mut Steps<L>,
) -> Result<Vec<PlacedWord>, SetFault>
    requires sound { IsSoundSet (set_of set.now) }
    requires some { 0 < length set.now.images.now }
{
    check_exports(alloc, set, 0)?;
    match way {
        Way::Files => place_words(alloc, set, 0),
        Way::Index => indexed_words(alloc, set, steps),
        Way::Counted => counted_words(alloc, set, steps),
    }
}

/// The words of the first image of a set that is read.
fn first_of<L: Ledger>(
    alloc: Global,
    images: &[Image<'_>],
    streams: &[ImageStreams<'_>],
    way: Way,
    steps: &mut Steps<L>,
) -> Result<Result<Vec<PlacedWord>, SetFault>, Fail>
    requires some { 0 < length images.now }
    requires few { length images.now ≤ 4097 }
    requires lists { streams.now ≡ map lists_of images.now }
    requires unbroken { All (λ i. streams_break i ≡ None) images.now }
{
    match link_set(alloc, images) {
        Ok(links) => {
            let set = Set {
                images,
                streams,
                links: &links,
            };
            Ok(first_words(alloc, &set, way, steps))
        }
        Err(_) => Err("the set is linked")?,
    }
}

fn words_of<L: Ledger>(
    alloc: Global,
    files: &[Vec<u8>],
    way: Way,
    steps: &mut Steps<L>,
) -> Result<Result<Vec<PlacedWord>, SetFault>, Fail> {
    if files.len() > 4096 {
        return Err("few files")?;
    }
    let images = read_images(alloc, files).ok().ok_or("the dylibs are read")?;
    if images.is_empty() || images.len() > 4097 {
        return Err("few images")?;
    }
    match read_all_streams(alloc, &images) {
        Ok(streams) => first_of(alloc, &images, &streams, way, steps),
        Err(_) => Err("the streams are read")?,
    }
}

fn led(word: &PlacedWord) -> Led {
    match word.target {
        WordTarget::Place {
            image,
            segment,
            distance,
        } => (word.at.address, Some((image, segment)), distance),
        WordTarget::Constant(number) => (word.at.address, None, number),
    }
}

fn are_led(rt: &impl Abort, found: &[PlacedWord], wanted: &[Led], title: &str) {
    assert_eq!(rt; found.len(), wanted.len(), "{title}");
    for (word, wanted) in found.iter().zip(wanted) {
        assert_eq!(rt; led(word), *wanted, "{title}");
    }
}

fn row_stands<L: Ledger>(
    rt: &impl Abort,
    alloc: Global,
    row: &Row,
    way: Way,
    steps: &mut Steps<L>,
) -> Result<(), Fail> {
    let (title, dylibs, wanted) = *row;
    let files = files_of(alloc, dylibs)?;
    match (words_of(alloc, &files, way, steps)?, wanted) {
        (Ok(found), Ok(words)) => are_led(rt, &found, words, title),
        (Err(SetFault::Broken(found)), Err((rule, at))) => {
            assert_eq!(rt;
                (found.rule.number(), found.image, found.at),
                (rule, 0, at),
                "{title}"
            );
        }
        _ => assert!(rt; false, "{title}"),
    }
    Ok(())
}

/// Each row, by the files and by an index.
fn rows_stand<L: Ledger>(
    rt: &impl Abort,
    alloc: Global,
    rows: &[Row],
    blank: Blank,
) -> Result<(), Fail>
    requires name { blank.name ≡ L.name }
    requires parts { blank.parts ≡ L.parts }
    requires one { blank.parts ≡ 1 }
{
    let mut steps = Steps::<L>::new(blank);
    for row in rows {
        row_stands(rt, alloc, row, Way::Files, &mut steps)?;
        row_stands(rt, alloc, row, Way::Index, &mut steps)?;
    }
    Ok(())
}

/// The first row of re-exports, each resolution of which takes as many steps as its search order tells.
fn counted_row_stands<L: Ledger>(rt: &impl Abort, alloc: Global, blank: Blank) -> Result<(), Fail>
    requires name { blank.name ≡ L.name }
    requires parts { blank.parts ≡ L.parts }
    requires one { blank.parts ≡ 1 }
{
    let mut steps = Steps::<L>::new(blank);
    row_stands(rt, alloc, &REEXPORTS[0], Way::Counted, &mut steps)
}

fn all_stand(rt: &impl Abort, alloc: Global, rows: &[Row]) -> Result<(), Fail> {
    rows_stand::<Brand>(rt, alloc, rows, Blank::new(1))
}

#[test]
fn pointers(rt: HostRuntime) -> Result<(), Fail> {
    all_stand(&rt, rt.alloc(), &POINTERS)
}

#[test]
fn binds(rt: HostRuntime) -> Result<(), Fail> {
    all_stand(&rt, rt.alloc(), &BINDS)
}

#[test]
fn reexports(rt: HostRuntime) -> Result<(), Fail> {
    all_stand(&rt, rt.alloc(), &REEXPORTS)
}

#[test]
fn steps_of_a_search(rt: HostRuntime) -> Result<(), Fail> {
    counted_row_stands::<Brand>(&rt, rt.alloc(), Blank::new(1))
}

#[test]
fn exports(rt: HostRuntime) -> Result<(), Fail> {
    all_stand(&rt, rt.alloc(), &EXPORTS)
}

fn spells(rt: &impl Abort, alloc: Global, row: &streams::Row) -> Result<(), Fail> {
    let (dylib, wanted) = row;
    let file = file_of(alloc, dylib)?;
    let image = read_image(alloc, &file, 0, Form::Standalone)
        .ok()
        .ok_or("the dylib is read")?;
    match (read_streams(alloc, &image), wanted) {
        (Ok((found, exports)), Ok(wanted)) => are_spelled(rt, &found, &exports, wanted),
        (Err(Fault::Broken(site)), Err(wanted)) => {
            assert_eq!(rt; (site.rule.number(), site.at), *wanted);
        }
        _ => assert!(rt; false),
    }
    Ok(())
}

#[test]
fn streams_are_read(rt: HostRuntime) -> Result<(), Fail> {
    let alloc = rt.alloc();
    for row in &streams::ROWS {
        spells(&rt, alloc, row)?;
    }
    Ok(())
}
