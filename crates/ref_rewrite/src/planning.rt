// What is planned for the images of a set.
ghost use Rattle.std.specs.Prelude.{◌≡◌, ◌++◌, ℕ, List, map, length, Some, slice_get, option_map, IfOk};
ghost use Rattle.std.specs.List.{flat_map, list_any};
ghost use Rattle.std.specs.List.Sorted.{IsNonDecreasingBy};
ghost use Rattle.dsc_base.specs.Refusals.{in_image, Refuses, RefusesSet};
ghost use Rattle.prebind.specs.Words.{pointer_word, streams_at, pointers_of, ArePlaced};
ghost use Rattle.dsc_base.specs.Edits.{AllFit, put_all};
ghost use Rattle.macho_image.specs.Breaks.{IsSound};
ghost use Rattle.prebind.specs.Placed.{AreListsPlaced};
ghost use Rattle.prebind.specs.Sets.{IsSoundSet};
ghost use Rattle.prebind.specs.Steps.{set_of};
ghost use Rattle.cache_layout.specs.declared.mapping.Mapping.{Mapping};
ghost use Rattle.ref_rewrite.specs.Breaks as breaks;
ghost use Rattle.ref_rewrite.specs.Following.{FollowIn};
ghost use Rattle.ref_rewrite.specs.Moving.{edit_of};
ghost use Rattle.cache_layout.specs.Apart.{range_in};
ghost use Rattle.cache_layout.specs.Parts.{mapping_part};
ghost use Rattle.ref_rewrite.specs.Pages.{all_pages, part_of, all_edits};
ghost use Rattle.ref_rewrite.specs.Plans.{Fit};
ghost use Rattle.ref_rewrite.specs.Rewritten.{edits_in, joined};
ghost use Rattle.ref_rewrite.specs.Planned as spec;
ghost use Rattle.ref_rewrite.specs.Spans.{span_of};
ghost use Rattle.ref_rewrite.specs.Steps as steps;

use crate::ImagePlan;
use crate::bounds::check_binds;
use crate::chained::chained_words;
use crate::copies::copies;
use crate::moving::Moving;
use crate::pointers::push_pointers;
use crate::references::{check_references, push_references};
use crate::spans::Parts;
use cache_layout::Layout;
use dsc_base::{Edit, Fault, NoMemory, SetFault};
use macho_image::Image;
use prebind::{ImageStreams, PlacedWord, Set};
use std::alloc::Global;

/// The edits of an image, and whether there is a reference without bytes for its new number.
fn edits(
    alloc: Global,
    moving: &Moving<'_, '_>,
    streams: &ImageStreams<'_>,
    words: &[PlacedWord],
) -> Result<(Vec<Edit>, bool), NoMemory>
    requires { steps.IsMoving moving.now }
    ensures edits { IfOk result (λ r. r.0.items ≡ map (edit_of moving.now.layout.now moving.now.number moving.now.segments.now) (map pointer_word words.now) ++ steps.edits_of moving.now.layout.now moving.now.number moving.now.segments.now streams.now.references) }
    ensures fit { IfOk result (λ r. AllFit r.0.items) }
    ensures misfits { IfOk result (λ r. r.1 ≡ list_any (steps.misfits moving.now.layout.now moving.now.number moving.now.segments.now) streams.now.references) }
{
    let references = streams.references.as_slice();
    let count = words.len().saturating_add(references.len());
    let mut edits = Vec::with_capacity(alloc, count)?;
    push_pointers(moving, words, &mut edits)?;
    let misfit = push_references(moving, references, &mut edits)?;
    Ok((edits, misfit))
}

/// Refuses the first rule that an image breaks, where it is told whether a reference has no bytes for its new
/// number.
fn check(
    moving: &Moving<'_, '_>,
    streams: &ImageStreams<'_>,
    words: &[PlacedWord],
    misfit: bool,
) -> Result<(), Fault>
    requires moving { steps.IsMoving moving.now }
    requires order { IsNonDecreasingBy (λ w. w.at.address) words.now }
    requires misfit { misfit ≡ list_any (steps.misfits moving.now.layout.now moving.now.number moving.now.segments.now) streams.now.references }
    ensures { Refuses (steps.break_with moving.now.layout.now moving.now.number moving.now.segments.now streams.now words.now) result }
{
    check_references(moving, &streams.references, misfit)?;
    check_binds(moving, words, &streams.binds)
}

fn plan_image<'a>(
    alloc: Global,
    moving: &Moving<'_, 'a>,
    streams: &ImageStreams<'_>,
    words: &[PlacedWord],
    parts: &Parts,
) -> Result<ImagePlan<'a>, Fault>
    requires moving { steps.IsMoving moving.now }
    requires order { IsNonDecreasingBy (λ w. w.at.address) words.now }
    requires belong { steps.Belong words.now moving.now.segments.now }
    ensures plan { IfOk result (λ p. p ≡ steps.plan_with moving.now.layout.now moving.now.number moving.now.segments.now streams.now.references words.now parts.now) }
    ensures fit { IfOk result (λ p. AllFit p.edits) }
    ensures cause { Refuses (steps.break_with moving.now.layout.now moving.now.number moving.now.segments.now streams.now words.now) result }
{
    let (edits, misfit) = edits(alloc, moving, streams, words)?;
    check(moving, streams, words, misfit)?;
    Ok(ImagePlan {
        copies: copies(alloc, moving)?,
        edits,
        header: Vec::new(alloc),
        header_at: moving.new_header.file,
        text: parts.text,
        writable: parts.writable,
        fixed: parts.fixed,
        words: chained_words(alloc, moving, words)?,
    })
}

/// The plan of image number `number` of a set, by its words in the order of their addresses and by its parts
/// of the mappings.
fn plan_at<'a>(
    alloc: Global,
    set: &Set<'_, 'a>,
    layout: &Layout,
    number: u32,
    image: &Image<'a>,
    words: &[PlacedWord],
    parts: &Parts,
) -> Result<ImagePlan<'a>, SetFault>
    requires sound { IsSoundSet (set_of set.now) }
    requires layout { length layout.now.moves ≡ length set.now.images.now }
    requires image { slice_get set.now.images.now number ≡ Some image.now }
    requires placed { ArePlaced (pointers_of (set_of set.now) number) words.now }
    requires parts { (m : Mapping) → span_of parts.now m ≡ spec.span_in m set.now.images.now number image.now }
    ensures plan { IfOk result (λ p. p ≡ spec.plan_of layout.now set.now.images.now number image.now (streams_at (set_of set.now) number) words.now) }
    ensures fit { IfOk result (λ p. AllFit p.edits) }
    ensures sound { IsSound image.now }
    ensures cause { RefusesSet (option_map (in_image number) (breaks.image_break layout.now (set_of set.now) number)) result }
{
    image.facts();
    let streams = &set.streams[number as usize];
    let moving = Moving::new(layout, set.images.len(), number, &image.segments);
    match plan_image(alloc, &moving, streams, words, parts) {
        Ok(plan) => Ok(plan),
        Err(fault) => Err(fault.in_image(number)),
    }
}

/// What is planned for each image of a set, by its layout and by the words of each image that are bound or
/// rebased, as `place_words` gives them. All places are offsets in the cache file, and the headers are empty.
/// The edits of an image set each pointer, in address order, and then each other reference of its
/// split-segment information, in reading order, to the number that leads to its target where the layout puts
/// the segments. References are those of `DYLD_CACHE_ADJ_V2` of Apple's published linker and cache builder.
///
/// The words that lead to places follow one another in the data mapping, from image to image.
/// With a header in each plan that is as long as the image's own, the plans fit the ranges of the layout; and
/// carried out they leave in each mapping the pages of its segments, with these headers in front of their
/// images and all edits set.
///
/// Refuses, image by image, `DeltaOutOfRange` and `OffsetOutOfRange` with the index of the reference whose new
/// number has more bytes than its place, and `BoundOutOfRange` with the index of the bind whose word leads
/// to a place below the shared region or behind the end of its read-only segments. `Memory` says that memory
/// ran out.
pub fn plan<'a>(
    alloc: Global,
    set: &Set<'_, 'a>,
    layout: &Layout,
    placed: &[Vec<PlacedWord>],
) -> Result<Vec<ImagePlan<'a>>, SetFault>
    requires sound { IsSoundSet (set_of set.now) }
    requires read { spec.AreSplitRead (set_of set.now) }
    requires layout { spec.IsLayout layout.now set.now.images.now }
    requires placed { AreListsPlaced (set_of set.now) (map (λ v. v.items) placed.now) }
    ensures plans { IfOk result (λ v. v.items ≡ spec.plans_of layout.now (set_of set.now) (map (λ v. v.items) placed.now)) }
    ensures words { IfOk result (λ v. FollowIn 0 layout.now.writable.len (flat_map (λ p. p.words) v.items)) }
    ensures fit { IfOk result (λ v. (headers : List (List ℕ)) → spec.AreSized headers set.now.images.now → Fit layout.now.text.len layout.now.writable.len layout.now.fixed.len (spec.with_headers headers v.items)) }
    ensures ranges { IfOk result (λ v. (headers : List (List ℕ)) → spec.AreSized headers set.now.images.now → (m : Mapping) → joined (part_of m) (spec.with_headers headers v.items) ≡ put_all (edits_in (range_in layout.now m) (all_edits v.items)) (mapping_part m (all_pages headers set.now.images.now) set.now.images.now)) }
    ensures cause { RefusesSet (breaks.rewrite_break layout.now (set_of set.now)) result }
{
    let mut parts = Parts::at_start(layout);
    let mut plans = Vec::with_capacity(alloc, set.images.len())?;
    for (number, image) in set.images.iter().enumerate() {
        parts = parts.next(image);
        let words = placed[number].as_slice();
        match plan_at(alloc, set, layout, number as u32, image, words, &parts) {
            Ok(plan) => plans.push(plan)?,
            Err(fault) => return Err(fault),
        }
    }
    Ok(plans)
}
