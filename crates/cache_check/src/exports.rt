// The exports of an image of a cache against those of its file.
ghost use Rattle.std.specs.Prelude.{◌≡◌, ℕ, ◌<◌, ◌^◌, None, Some, IfOk, IfSome, length, map, max, option_map, slice_get};
ghost use Rattle.export_trie.specs.Exports.{exports_of};
ghost use Rattle.export_trie.specs.Order.{trie_break};
ghost use Rattle.cache_check.specs.Differences as spec;
ghost use Rattle.cache_check.specs.Steps.Moving.{moved_by};

use crate::Difference;
use dsc_base::{Fault, NoMemory};
use export_trie::{Export, Target, read_trie};
use macho_image::{Image, Segment, SegmentIndex, header_address};
use std::alloc::Global;

/// Where a segment of a cached image starts; one that it lacks counts as starting at 0, and so does its
/// `__LINKEDIT`.
#[tactic(auto, unfolding(crate::specs::Differences::own_start))]
pub(crate) fn own_start(segments: &[Segment<'_>], number: u32) -> u64
    ensures { result ≡ spec.own_start segments.now number }
{
    match segments.get(number as usize) {
        Some(segment) if !segment.is_linkedit() => segment.vmaddr,
        _ => 0,
    }
}

/// How offsets from the header of a file become ones from that of its cached image.
#[derive(Drop)]
struct Moving<'s, 'a> {
    places: SegmentIndex,
    from: u64,
    to: u64,
    segments: &'s [Segment<'a>],
}

/// How offsets move between the headers of a file and of its cached image.
#[tactic(auto, unfolding(crate::specs::Differences::moved_offset))]
fn moving_between<'s, 'a>(
    alloc: Global,
    file: &Image<'_>,
    cached: &'s Image<'a>,
) -> Result<Moving<'s, 'a>, NoMemory>
    ensures { IfOk result (λ m. (o : ℕ) → moved_by m o ≡ spec.moved_offset file.now cached.entry.now o) }
{
    Ok(Moving {
        places: SegmentIndex::new(alloc, file)?,
        from: header_address(&file.segments),
        to: header_address(&cached.segments),
        segments: &cached.segments,
    })
}

/// An offset from the header of the cached image, to the same place.
#[tactic(auto, unfolding(macho_image::specs::Places::above))]
fn moved_offset(moving: &Moving<'_, '_>, offset: u64) -> u64
    ensures { result ≡ moved_by moving.now offset }
{
    match moving.places.find(moving.from.wrapping_add(offset)) {
        Some(place) => own_start(moving.segments, place.segment)
            .wrapping_add(place.distance)
            .wrapping_sub(moving.to),
        None => offset,
    }
}

/// Where an export should lead in the cached image.
fn moved_target(moving: &Moving<'_, '_>, target: Target) -> Target
    ensures { result ≡ spec.moved_target (moved_by moving.now) target }
{
    match target {
        Target::Offset(offset) => Target::Offset(moved_offset(moving, offset)),
        other => other,
    }
}

/// An export as the cached image should have it.
fn moved_export(moving: &Moving<'_, '_>, export: Export) -> Export
    ensures { result ≡ spec.moved_export (moved_by moving.now) export }
{
    let Export {
        name,
        flags,
        target,
    } = export;
    Export {
        name,
        flags,
        target: moved_target(moving, target),
    }
}

/// Whether an export leads where another one should, once it is moved.
fn same_target(moving: &Moving<'_, '_>, found: &Target, wanted: &Target) -> bool
    ensures { result ≡ spec.same_target found.now (spec.moved_target (moved_by moving.now) wanted.now) }
{
    match (found, wanted) {
        (Target::Offset(here), Target::Offset(there)) => *here == moved_offset(moving, *there),
        (Target::Absolute(here), Target::Absolute(there)) => here == there,
        (
            Target::Reexport { ordinal, name },
            Target::Reexport {
                ordinal: other,
                name: text,
            },
        ) => ordinal == other && name == text,
        _ => false,
    }
}

/// Whether an export is another one, once that is moved.
fn same_export(moving: &Moving<'_, '_>, found: &Export, wanted: &Export) -> bool
    ensures { result ≡ spec.same_export (Some found.now) (Some (spec.moved_export (moved_by moving.now) wanted.now)) }
{
    found.name == wanted.name
        && found.flags == wanted.flags
        && same_target(moving, &found.target, &wanted.target)
}

/// Whether two lists have the same export at a number, or both have ended.
fn same_at(moving: &Moving<'_, '_>, found: &[Export], wanted: &[Export], index: usize) -> bool
    ensures { result ≡ spec.same_export (slice_get found.now index) (option_map (spec.moved_export (moved_by moving.now)) (slice_get wanted.now index)) }
{
    match (found.get(index), wanted.get(index)) {
        (Some(here), Some(there)) => same_export(moving, here, there),
        (None, None) => true,
        _ => false,
    }
}

/// The first number at which two lists of exports differ.
fn first_other(moving: &Moving<'_, '_>, found: &[Export], wanted: &[Export]) -> Option<usize>
    ensures first { result ≡ spec.first_other found.now (map (spec.moved_export (moved_by moving.now)) wanted.now) }
    ensures bound { IfSome result (λ i. i < max (length found.now) (length wanted.now)) }
{
    for index in 0..found.len().max(wanted.len()) {
        if !same_at(moving, found, wanted, index) {
            return Some(index);
        }
    }
    None
}

/// Takes an export out of a list.
fn take_at(mut exports: Vec<Export>, index: usize) -> Option<Export>
    ensures { result ≡ slice_get exports.items index }
{
    if index < exports.len() {
        Some(exports.swap_remove(index))
    } else {
        None
    }
}

/// The first export at which two sorted lists differ.
fn compare_lists(
    moving: &Moving<'_, '_>,
    number: u32,
    found: Vec<Export>,
    wanted: Vec<Export>,
) -> Option<Difference>
    requires found { length found.items < 2 ^ 32 }
    requires wanted { length wanted.items < 2 ^ 32 }
    ensures { result ≡ spec.listed_difference number found.items (map (spec.moved_export (moved_by moving.now)) wanted.items) }
{
    let index = first_other(moving, &found, &wanted)?;
    Some(Difference::Export {
        image: number,
        index: index as u32,
        found: take_at(found, index),
        wanted: match take_at(wanted, index) {
            Some(export) => Some(moved_export(moving, export)),
            None => None,
        },
    })
}

/// The exports of a trie that breaks no rule.
fn exports_of(alloc: Global, trie: &[u8]) -> Result<Vec<Export>, NoMemory>
    requires { trie_break trie.now ≡ None }
    ensures exports { IfOk result (λ v. v.items ≡ exports_of trie.now) }
    ensures few { IfOk result (λ v. length v.items < 2 ^ 32) }
{
    match read_trie(alloc, trie) {
        Ok(exports) => Ok(exports),
        Err(Fault::Memory) => Err(NoMemory),
        Err(Fault::Broken(_)) => unreachable!(),
    }
}

/// The first export in which a cached image differs from its file. Its offsets should lead to the same
/// places. Neither trie breaks a rule.
#[tactic(auto, unfolding(crate::specs::Differences::exports_difference))]
pub(crate) fn compare_exports(
    alloc: Global,
    number: u32,
    file: &Image<'_>,
    cached: &Image<'_>,
) -> Result<Option<Difference>, NoMemory>
    requires wanted { trie_break file.now.streams.exports ≡ None }
    requires found { trie_break cached.now.streams.exports ≡ None }
    ensures { IfOk result (λ d. d ≡ spec.exports_difference number file.now cached.now) }
{
    let moving = moving_between(alloc, file, cached)?;
    let found = exports_of(alloc, cached.streams.exports)?;
    let wanted = exports_of(alloc, file.streams.exports)?;
    Ok(compare_lists(&moving, number, found, wanted))
}
