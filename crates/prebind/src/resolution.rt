// Symbols resolved by the search orders and the export tries of a set.
ghost use Rattle.std.specs.Prelude.{◌≡◌, ℕ, slice_index, ◌≤◌, ◌<◌, ◌∷◌, ◌++◌, [], ◌^◌, None, not, length, true, slice_index_or, IfOk, IfSome, OnOk, All};
ghost use Rattle.export_trie.specs.Order.{trie_break};
ghost use Rattle.export_trie.specs.Finding.{target_found, target_named};
ghost use Rattle.dep_closure.specs.Linked.{AreLinks};
ghost use Rattle.export_trie.specs.Exports.{exports_of};
ghost use Rattle.prebind.specs.Places.{exports_in};
ghost use Rattle.macho_image.specs.Segments.{segments_at};
ghost use Rattle.prebind.specs.Resolves as spec;
ghost use Rattle.prebind.specs.Steps.{set_of, found_seen, step_seen, some_step, HaveTries};
ghost use Rattle.prebind.specs.Sets.{IsSoundSet};

use crate::met::Met;
use crate::segments::inside;
use crate::{ImageStreams, Resolved, Set};
use dep_closure::Dep;
use dsc_base::NoMemory;
use export_trie::{Found, find};
use macho_image::{Image, Segment, header_address};
use std::alloc::Global;

/// What an ordinal and a name lead to at once: an outcome, or the entry of an image that re-exports the name.
pub(crate) enum Step<'a> {
    Ends(Resolved),
    Reexports {
        image: u32,
        ordinal: u64,
        name: &'a [u8],
    },
}

fn export_named<'a>(streams: &ImageStreams<'a>, name: &[u8]) -> Found<'a>
    requires { trie_break streams.now.exports ≡ None }
    ensures { target_found result ≡ target_named (exports_of streams.now.exports) name.now }
{
    find(streams.exports, name)
}

/// The first image of a search order that exports a name, and what its trie has of it.
fn first_exporting<'a>(
    streams: &[ImageStreams<'a>],
    order: &[u32],
    name: &[u8],
) -> Option<(u32, Found<'a>)>
    requires tries { HaveTries streams.now }
    requires order { All (λ k. k < length streams.now) order.now }
    ensures first { found_seen result ≡ spec.first_exporting (exports_in streams.now) name.now order.now }
    ensures within { IfSome result (λ found. found.0 < length streams.now) }
{
    for image in order {
        match export_named(&streams[*image as usize], name) {
            Found::Absent => {}
            found => return Some((*image, found)),
        }
    }
    None
}

/// The place of an offset export of image number `image`.
fn export_place(segments: &[Segment<'_>], image: u32, offset: u64) -> Resolved
    requires { length segments.now < 2 ^ 32 }
    ensures { result ≡ spec.export_place segments.now image offset }
{
    let address = header_address(segments).wrapping_add(offset);
    match inside(segments, address) {
        Some(place) => Resolved::Place {
            image,
            segment: place.segment,
            distance: place.distance,
        },
        None => Resolved::Constant(address),
    }
}

/// Where an export of image number `number` leads.
fn target_step<'a>(segments: &[Segment<'_>], number: u32, found: Found<'a>) -> Step<'a>
    requires { length segments.now < 2 ^ 32 }
    ensures { step_seen result ≡ some_step segments.now number (target_found found.entry) }
{
    match found {
        Found::Offset(offset) => Step::Ends(export_place(segments, number, offset)),
        Found::Absolute(value) => Step::Ends(Resolved::Constant(value)),
        Found::Reexport { ordinal, name } => Step::Reexports {
            image: number,
            ordinal,
            name,
        },
        Found::Absent => Step::Ends(Resolved::Absent),
    }
}

/// Does nothing; its contract tells what is true of each slice of bytes.
pub(crate) fn are_bytes(bytes: &[u8])
    ensures { (k : ℕ) → slice_index bytes.now k < 256 }
{
    let _ = bytes;
}

/// The same by the image.
#[tactic(auto, using(macho_image::proofs::SoundSegments::few_segments))]
fn image_step<'a>(image: &Image<'_>, number: u32, found: Found<'a>) -> Step<'a>
    ensures { step_seen result ≡ some_step image.now.segments number (target_found found.entry) }
{
    image.facts();
    are_bytes(image.header);
    target_step(&image.segments, number, found)
}

/// What is found in a search order leads to.
fn found_step<'a>(images: &[Image<'_>], found: Option<(u32, Found<'a>)>) -> Step<'a>
    requires { IfSome found (λ f. f.0 < length images.now) }
    ensures { step_seen result ≡ spec.found_step images.now (found_seen found.entry) }
{
    match found {
        Some((number, found)) => image_step(&images[number as usize], number, found),
        None => Step::Ends(Resolved::Absent),
    }
}

/// What an ordinal of an image and a name lead to.
#[tactic(auto, unfolding(crate::specs::Resolves::step))]
fn next_step<'s>(set: &Set<'s, '_>, image: u32, ordinal: u64, name: &[u8]) -> Step<'s>
    requires sound { IsSoundSet (set_of set.now) }
    requires image { image < length set.now.images.now }
    ensures { step_seen result ≡ spec.step (set_of set.entry.now) image ordinal name.now }
{
    match set.links.dependency(image, ordinal) {
        Dep::BadOrdinal => Step::Ends(Resolved::BadOrdinal),
        Dep::Missing => Step::Ends(Resolved::Constant(0)),
        Dep::Image(first) => {
            let order = set.links.search_order(first);
            found_step(set.images, first_exporting(set.streams, order, name))
        }
    }
}

/// The name that a re-export goes on with.
pub(crate) fn next_name<'n>(name: &'n [u8], own: &'n [u8]) -> &'n [u8]
    ensures { result.now ≡ spec.next_name name.entry.now own.entry.now }
{
    if own.is_empty() { name } else { own }
}

/// Where a symbol leads that an image binds by a library ordinal and a name: 0 is the image itself, and
/// others count its dependencies from 1. The search order of that dependency is walked to the first image
/// whose trie has the name; a re-export goes on from there.
///
/// `Absent` comes where no image of a search order has the name, `Loop` where a re-export is met a second
/// time, and `BadOrdinal` where an ordinal exceeds its image's dependencies. A weak dependency that no
/// image is has all symbols at `Constant(0)`. `NoMemory` says that memory ran out. The steps are as many as
/// the re-exports on the way, each with one look-up in each image of a search order.
pub fn resolve(
    alloc: Global,
    set: &Set<'_, '_>,
    image: u32,
    ordinal: u64,
    name: &[u8],
) -> Result<Resolved, NoMemory>
    requires sound { IsSoundSet (set_of set.now) }
    requires image { image < length set.now.images.now }
    ensures { IfOk result (λ r. r ≡ spec.resolves (set_of set.now) image ordinal name.now) }
{
    let mut met = Met::new(alloc);
    let mut from = image;
    let mut by = ordinal;
    let mut sought = name;
    'steps: loop {
        match next_step(set, from, by, sought) {
            Step::Ends(outcome) => return Ok(outcome),
            Step::Reexports {
                image: next,
                ordinal: next_by,
                name: own,
            } => {
                if !met.insert(next, sought)? {
                    return Ok(Resolved::Loop);
                }
                from = next;
                by = next_by;
                sought = next_name(sought, own);
            }
        }
    }
}
