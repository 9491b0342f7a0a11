// The segments of one image in memory.
ghost use Rattle.std.specs.Prelude.{◌≡◌, ◌≤◌, ◌<◌, ℕ, ◌+◌, ◌-◌, [], ◌++◌, length, All, map, option_map, IfOk, OnOk, slice_get, slice_index_or, slice_set};
ghost use Rattle.dsc_base.specs.Refusals.{in_image, Refuses, RefusesSet};
ghost use Rattle.macho_image.specs.Segments.{start_of, segments_at};
ghost use Rattle.prebind.specs.Sets.{IsSoundSet, AreStreamsOf};
ghost use Rattle.prebind.specs.Words.{placed_bind};
ghost use Rattle.prebind.specs.WordRules as rules;
ghost use Rattle.load_model.specs.Phases.{contents};
ghost use Rattle.dsc_base.specs.Numbers.{number_at, put_number};
ghost use Rattle.macho_image.specs.Places.{wrap, IsWord};
ghost use Rattle.prebind.specs.Steps.{set_of};
ghost use Rattle.prebind.specs.Numbers.{number_to};
ghost use Rattle.split_info.specs.declared.reference.RefKind.TheVariants.{Pointer64};
ghost use Rattle.macho_image.specs.Breaks.{IsSound};
ghost use Rattle.macho_image.specs.Order.{addresses_of};
ghost use Rattle.load_model.specs.Areas.{slide_at, AreAreas, body_piece, pieces_from, AreLoadedSegments, bodies_of};
ghost use Rattle.load_model.specs.Handed.{piece_of};
ghost use Rattle.load_model.specs.Loading.{in_memory, loaded_starts, segment_cells, rebased, bound_to, loaded};

use crate::loaded::LoadedSegment;
use bind_ops::Bind;
use dsc_base::{Fault, NoMemory, SetFault, put_u64, read_u64};
use macho_image::{Image, Location, Segment};
use prebind::{ImageStreams, Set, WordTarget, place_resolved, resolve};
use std::alloc::Global;
use std::mem::replace;

/// Where a segment of a set starts once each image stands at its slide.
fn start_at(set: &Set<'_, '_>, slides: &[u64], image: u32, segment: u32) -> u64
    ensures { result ≡ loaded_starts (set_of set.now) (slide_at slides.now) image segment }
{
    let slide = slides.get(image as usize).copied().unwrap_or(0);
    let start = match set.images.get(image as usize) {
        Some(file) => match file.segments.get(segment as usize) {
            Some(found) => found.vmaddr,
            None => 0,
        },
        None => 0,
    };
    start.wrapping_add(slide)
}

/// The number that leads a pointer to a target.
#[tactic(auto, unfolding(prebind::specs::Numbers::number_to, prebind::specs::Numbers::counted_to, prebind::specs::Numbers::cut_to))]
fn target_number(set: &Set<'_, '_>, slides: &[u64], target: WordTarget) -> u64
    ensures { result ≡ number_to (loaded_starts (set_of set.now) (slide_at slides.now)) 0 0 Pointer64 target }
{
    match target {
        WordTarget::Place {
            image,
            segment,
            distance,
        } => start_at(set, slides, image, segment).wrapping_add(distance),
        WordTarget::Constant(number) => number,
    }
}

/// The bytes of a segment in memory: the file's, and zeros to its size.
fn memory_of(alloc: Global, segment: &Segment<'_>) -> Result<Vec<u8>, NoMemory>
    requires within { length segment.now.bytes ≤ segment.now.vmsize }
    requires whole { length segment.now.bytes ≡ segment.now.filesize }
    ensures { IfOk result (λ b. b.items ≡ in_memory segment.now) }
{
    let mut bytes = Vec::with_capacity(alloc, segment.vmsize as usize)?;
    bytes.extend_from_slice(segment.bytes)?;
    bytes.resize(segment.vmsize as usize, 0)?;
    Ok(bytes)
}

/// How far a word lies behind the start of its segment.
fn offset_of(image: &Image<'_>, word: &Location) -> usize
    ensures { result ≡ word.now.address - start_of (slice_get image.now.segments word.now.segment) }
{
    let start = match image.segments.get(word.segment as usize) {
        Some(segment) => segment.vmaddr,
        None => 0,
    };
    word.address.saturating_sub(start) as usize
}

/// Puts a number into 8 bytes of the segment of a number.
fn put_word(areas: &mut Vec<Vec<u8>>, segment: usize, at: usize, value: u64)
    requires segment { segment < length areas.old.items }
    requires within { at + 8 ≤ length (slice_index_or (contents areas.old.items) segment []) }
    ensures { contents areas.new.items ≡ slice_set (contents areas.old.items) segment (put_number 8 (slice_index_or (contents areas.old.items) segment []) at value) }
{
    let area = &mut areas[segment];
    put_u64(area, at, value);
}

/// Raises the number in 8 bytes of the segment of a number.
fn raise_word(areas: &mut Vec<Vec<u8>>, segment: usize, at: usize, slide: u64)
    requires segment { segment < length areas.old.items }
    requires within { at + 8 ≤ length (slice_index_or (contents areas.old.items) segment []) }
    ensures { contents areas.new.items ≡ slice_set (contents areas.old.items) segment (put_number 8 (slice_index_or (contents areas.old.items) segment []) at (wrap (number_at 8 (slice_index_or (contents areas.old.items) segment []) at + slide))) }
{
    let number = read_u64(&areas[segment], at).unwrap_or(0);
    put_word(areas, segment, at, number.wrapping_add(slide));
}

/// The number to which a bind of an image sets its word, or the rule that it breaks.
fn bind_number(
    alloc: Global,
    set: &Set<'_, '_>,
    slides: &[u64],
    image: u32,
    index: usize,
    bind: &Bind<'_>,
) -> Result<u64, Fault>
    requires sound { IsSoundSet (set_of set.now) }
    requires image { image < length set.now.images.now }
    ensures found { IfOk result (λ n. n ≡ number_to (loaded_starts (set_of set.now) (slide_at slides.now)) 0 0 Pointer64 (placed_bind (set_of set.now) image bind.now).target) }
    ensures cause { Refuses (rules.bind_fault (set_of set.now) image index bind.now) result }
{
    let outcome = resolve(alloc, set, image, bind.ordinal, bind.name)?;
    let word = place_resolved(index, bind, outcome)?;
    Ok(target_number(set, slides, word.target))
}

/// Raises the number at each rebase of an image.
fn raise_words(areas: &mut Vec<Vec<u8>>, image: &Image<'_>, rebases: &[Location], slide: u64)
    requires sound { IsSound image.now }
    requires words { All (IsWord image.now) rebases.now }
    requires areas { AreAreas (segment_cells slide image.now.segments) slide image.now.segments (contents areas.old.items) }
    ensures { AreAreas (rebased slide (addresses_of rebases.now) (segment_cells slide image.now.segments)) slide image.now.segments (contents areas.new.items) }
{
    for word in rebases {
        let at = offset_of(image, word);
        raise_word(areas, word.segment as usize, at, slide);
    }
}

/// Sets each bound word of an image to the number that leads to its target, or refuses the first bind that
/// breaks a rule.
#[tactic(auto, using(prebind::proofs::WordLaws::unbroken_more, prebind::proofs::WordLaws::unbroken_all, prebind::proofs::WordLaws::unbroken_refused))]
fn set_words(
    alloc: Global,
    set: &Set<'_, '_>,
    slides: &[u64],
    number: u32,
    image: &Image<'_>,
    streams: &ImageStreams<'_>,
    areas: &mut Vec<Vec<u8>>,
) -> Result<(), Fault>
    requires sound { IsSoundSet (set_of set.now) }
    requires number { number < length set.now.images.now }
    requires image { IsSound image.now }
    requires words { All (λ b. IsWord image.now b.at) streams.now.binds }
    requires areas { AreAreas (rebased (slide_at slides.now number) (addresses_of streams.now.rebases) (segment_cells (slide_at slides.now number) image.now.segments)) (slide_at slides.now number) image.now.segments (contents areas.old.items) }
    ensures areas { OnOk result (AreAreas (bound_to (loaded_starts (set_of set.now) (slide_at slides.now)) (slide_at slides.now number) (map (placed_bind (set_of set.now) number) streams.now.binds) (rebased (slide_at slides.now number) (addresses_of streams.now.rebases) (segment_cells (slide_at slides.now number) image.now.segments))) (slide_at slides.now number) image.now.segments (contents areas.new.items)) }
    ensures cause { Refuses (rules.bind_fault_from (set_of set.now) number 0 streams.now.binds) result }
{
    for (index, bind) in streams.binds.iter().enumerate() {
        let value = bind_number(alloc, set, slides, number, index, bind)?;
        let at = offset_of(image, &bind.at);
        put_word(areas, bind.at.segment as usize, at, value);
    }
    Ok(())
}

/// The bytes of each segment of an image in memory.
fn areas_of(alloc: Global, image: &Image<'_>) -> Result<Vec<Vec<u8>>, NoMemory>
    requires { IsSound image.now }
    ensures { IfOk result (λ v. contents v.items ≡ map in_memory image.now.segments) }
{
    let mut areas = Vec::with_capacity(alloc, image.segments.len())?;
    for segment in &image.segments {
        let area = memory_of(alloc, segment)?;
        areas.push(area)?;
    }
    Ok(areas)
}

/// Appends a segment with its bytes, which are taken, unless it is `__LINKEDIT`.
fn push_body(
    alloc: Global,
    segment: &Segment<'_>,
    area: &mut Vec<u8>,
    slide: u64,
    segments: &mut Vec<LoadedSegment>,
) -> Result<(), NoMemory>
    ensures { OnOk result (map piece_of segments.new.items ≡ map piece_of segments.old.items ++ body_piece slide segment.now area.old.items) }
{
    if !segment.is_linkedit() {
        let bytes = replace(area, Vec::new(alloc));
        segments.push(LoadedSegment {
            address: segment.vmaddr.wrapping_add(slide),
            bytes,
        })?;
    }
    Ok(())
}

/// The segments other than `__LINKEDIT` with their bytes, each from where it starts once it is slid.
fn handed_out(
    alloc: Global,
    image: &Image<'_>,
    areas: &mut Vec<Vec<u8>>,
    slide: u64,
) -> Result<Vec<LoadedSegment>, NoMemory>
    requires { length areas.old.items ≡ length image.now.segments }
    ensures { IfOk result (λ v. map piece_of v.items ≡ pieces_from slide image.now.segments (contents areas.old.items)) }
{
    let mut segments = Vec::with_capacity(alloc, image.segments.len())?;
    for number in 0..image.segments.len() {
        let segment = &image.segments[number];
        push_body(alloc, segment, &mut areas[number], slide, &mut segments)?;
    }
    Ok(segments)
}

/// One image of a set, by its number, with what its streams spell.
fn load_file(
    alloc: Global,
    set: &Set<'_, '_>,
    slides: &[u64],
    number: u32,
    image: &Image<'_>,
    streams: &ImageStreams<'_>,
) -> Result<Vec<LoadedSegment>, Fault>
    requires sound { IsSoundSet (set_of set.now) }
    requires number { number < length set.now.images.now }
    requires streams { AreStreamsOf image.now streams.now }
    ensures loaded { IfOk result (λ v. AreLoadedSegments (bound_to (loaded_starts (set_of set.now) (slide_at slides.now)) (slide_at slides.now number) (map (placed_bind (set_of set.now) number) streams.now.binds) (rebased (slide_at slides.now number) (addresses_of streams.now.rebases) (segment_cells (slide_at slides.now number) image.now.segments))) (slide_at slides.now number) (bodies_of image.now.segments) (map piece_of v.items)) }
    ensures cause { Refuses (rules.bind_fault_from (set_of set.now) number 0 streams.now.binds) result }
{
    image.facts();
    let slide = slides.get(number as usize).copied().unwrap_or(0);
    let mut areas = areas_of(alloc, image)?;
    raise_words(&mut areas, image, &streams.rebases, slide);
    set_words(alloc, set, slides, number, image, streams, &mut areas)?;
    let segments = handed_out(alloc, image, &mut areas, slide)?;
    Ok(segments)
}

/// One image of a set as it is loaded, where image k of the set stands at its addresses plus `slides[k]`:
/// its segments other than `__LINKEDIT`, in their order. Each has the file's bytes and zeros to its size;
/// the slide is added to the number at each rebase, and then each bound word is set to the number that leads
/// to its target, all segments standing at their loaded starts. An image without a slide stands at its own
/// addresses.
///
/// Refuses with the bind's index the first of `BadOrdinal`, `UnresolvedSymbol` and `ReexportLoop`. `Memory`
/// says that memory ran out.
pub fn load_image(
    alloc: Global,
    set: &Set<'_, '_>,
    image: u32,
    slides: &[u64],
) -> Result<Vec<LoadedSegment>, SetFault>
    requires sound { IsSoundSet (set_of set.now) }
    requires image { image < length set.now.images.now }
    ensures loaded { IfOk result (λ v. AreLoadedSegments (loaded (set_of set.now) (slide_at slides.now) image) (slide_at slides.now image) (bodies_of (segments_at set.now.images.now image)) (map piece_of v.items)) }
    ensures cause { RefusesSet (option_map (in_image image) (rules.symbol_break (set_of set.now) image)) result }
{
    let file = &set.images[image as usize];
    let streams = &set.streams[image as usize];
    match load_file(alloc, set, slides, image, file, streams) {
        Ok(segments) => Ok(segments),
        Err(fault) => Err(fault.in_image(image)),
    }
}
