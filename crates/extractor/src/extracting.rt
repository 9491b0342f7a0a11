// The file that is made of one image of a cache.
ghost use Rattle.std.specs.Prelude.{◌≡◌, ◌≤◌, ◌<◌, ◌++◌, length, drop, IfOk, OnOk};
ghost use Rattle.dsc_base.specs.Limits.{span_limit};
ghost use Rattle.linkedit_merge.specs.Indices.{names_of, IsPool};
ghost use Rattle.linkedit_merge.specs.Parts.{joined_behind, spans_behind, lens_of};
ghost use Rattle.extractor.specs.ExtractOf as spec;
ghost use Rattle.extractor.specs.Files.{CanExtract, AreFew, own_spots, part_spans};
ghost use Rattle.extractor.specs.Prepared.{own_parts as all_parts};

use crate::linkedit::{LINKEDIT_LIMIT, OwnParts, own_parts};
use crate::pages::{append_bodies, last_place, moves_of};
use crate::parts::{PartSpans, put_streams, put_tables};
use crate::vetted::Vetted;
use dsc_base::{NoMemory, page_up};
use macho_edit::{LinkSpots, standalone_header};
use macho_image::{Image, Location, Moved};
use std::alloc::Global;

/// Where the linkedit of the first image's file is in memory; that of the next one is as far behind it as a
/// linkedit may be long.
const LINKEDIT_START: u64 = 0x6000_0000_0000;

/// The spots of an image whose linkedit has these parts from a place in the file on.
#[tactic(auto, unfolding(crate::specs::Files::own_spots))]
fn spots_at(number: u32, start: u64, parts: &OwnParts<'_>, spans: PartSpans) -> LinkSpots
    requires number { number ≤ 4096 }
    requires size { parts.now.size ≤ spec.linkedit_limit }
    ensures { result ≡ own_spots number start parts.now.size spans parts.now.tables.groups }
{
    let (streams, tables) = (spans.streams, spans.tables);
    LinkSpots {
        linkedit: Moved {
            address: LINKEDIT_START + u64::from(number) * LINKEDIT_LIMIT,
            file: start,
        },
        vmsize: page_up(parts.size),
        filesize: parts.size,
        rebase: streams.rebase,
        bind: streams.bind,
        lazy: streams.lazy,
        exports: streams.exports,
        function_starts: streams.function_starts,
        data_in_code: streams.data_in_code,
        symbols: tables.symbols,
        indirect: tables.indirect,
        strings: tables.strings,
        groups: parts.tables.groups,
    }
}

/// Puts the linkedit of an image behind its segments.
fn put_linkedit(
    out: &mut Vec<u8>,
    image: &Image<'_>,
    parts: &OwnParts<'_>,
) -> Result<PartSpans, NoMemory>
    requires pool { IsPool spec.linkedit_limit parts.now.pool }
    requires few { AreFew parts.now.tables }
    ensures bytes { OnOk result (out.new.items ≡ joined_behind out.old.items (all_parts image.now parts.now.rebase.items parts.now.tables (names_of parts.now.pool))) }
    ensures spans { IfOk result (λ s. part_spans s ≡ spans_behind 0 (length out.old.items) (lens_of (all_parts image.now parts.now.rebase.items parts.now.tables (names_of parts.now.pool)))) }
{
    let streams = put_streams(out, &parts.rebase, &image.streams)?;
    let tables = put_tables(out, &parts.tables, &parts.pool)?;
    Ok(PartSpans { streams, tables })
}

/// The file of an image but for its header, and where its streams and tables stand, if its segments end at a
/// place. Its bytes are allocated once.
fn write_parts(
    alloc: Global,
    number: u32,
    image: &Image<'_>,
    words: &[Location],
    start: u64,
) -> Result<(Vec<u8>, LinkSpots), NoMemory>
    requires number { number ≤ 4096 }
    requires ready { CanExtract image.now words.now }
    requires start { start ≡ length (spec.body_bytes image.now) }
    requires low { start ≤ span_limit }
    ensures bytes { IfOk result (λ r. r.0.items ≡ spec.body_bytes image.now ++ spec.linkedit_of image.now words.now) }
    ensures spots { IfOk result (λ r. r.1 ≡ spec.spots_of number image.now words.now) }
{
    let parts = match own_parts(alloc, image, words) {
        Ok(parts) => parts,
        Err(_) => return Err(NoMemory),
    };
    let mut out = Vec::with_capacity(alloc, (start + parts.size) as usize)?;
    append_bodies(&mut out, &image.segments)?;
    let spans = put_linkedit(&mut out, image, &parts)?;
    let spots = spots_at(number, start, &parts, spans);
    Ok((out, spots))
}

/// Puts a header in place of the bytes at the front.
fn put_header(out: &mut [u8], header: &[u8])
    requires { length header.now ≤ length out.old }
    ensures { out.new ≡ header.now ++ drop (length header.now) out.old }
{
    out[..header.len()].copy_from_slice(header);
}

/// The file of an image, some of whose words slide and aren't bound.
fn write_file(
    alloc: Global,
    number: u32,
    image: &Image<'_>,
    words: &[Location],
) -> Result<Vec<u8>, NoMemory>
    requires number { number ≤ 4096 }
    requires ready { CanExtract image.now words.now }
    ensures { IfOk result (λ v. v.items ≡ spec.file_of number image.now words.now) }
{
    image.facts();
    let moves = moves_of(alloc, &image.segments)?;
    let start = last_place(&moves);
    let (mut out, spots) = write_parts(alloc, number, image, words, start)?;
    let header = standalone_header(alloc, image, &moves, &spots)?;
    put_header(&mut out, &header);
    Ok(out)
}

/// A dylib that has an image of a vetted cache for itself, after `mach-o/loader.h`: each of its segments at its
/// address in the cache, on the next page of the file, with the bytes that it has at slide 0; and a linkedit of
/// its own, with rebases for the words that slide and aren't bound, and all else that the image has in the
/// cache's. The linkedit of image `n` is at `0x600000000000 + n * 0x40000000`.
///
/// `image` is the number of an image. `NoMemory` where there is none for the file, which is allocated once.
pub fn extract(alloc: Global, vetted: &Vetted<'_>, image: u32) -> Result<Vec<u8>, NoMemory>
    requires { image < length vetted.now.images }
    ensures { IfOk result (λ v. v.items ≡ spec.extract_of vetted.now.view image) }
{
    let own = &vetted.images[image as usize];
    let words = &vetted.free[image as usize];
    write_file(alloc, image, own, words)
}
