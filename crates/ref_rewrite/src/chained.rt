// The pointers of an image that are chained in the data of a cache.
ghost use Rattle.std.specs.Prelude.{◌≡◌, ◌++◌, nat_lt, map, filter, IfOk, OnOk};
ghost use Rattle.std.specs.List.Sorted.{IsNonDecreasingBy};
ghost use Rattle.macho_image.specs.Segments.{contains};
ghost use Rattle.ref_rewrite.specs.Planned as spec;
ghost use Rattle.ref_rewrite.specs.Steps.{IsMoving, Belong};

use crate::moving::Moving;
use dsc_base::NoMemory;
use macho_image::Segment;
use prebind::{PlacedWord, WordTarget};
use std::alloc::Global;

fn contains(segment: &Segment<'_>, address: u64) -> bool
    ensures { result ≡ contains segment.now address }
{
    segment.vmaddr <= address && address - segment.vmaddr < segment.vmsize
}

/// Those of the pointers, which are in address order, that a segment contains.
fn words_in<'w>(words: &'w [PlacedWord], segment: &Segment<'_>) -> &'w [PlacedWord]
    requires { IsNonDecreasingBy (λ w. w.at.address) words.now }
    ensures { result.now ≡ filter (λ w. contains segment.now w.at.address) words.entry.now }
{
    let start = segment.vmaddr;
    let from = words.partition_point(
        |w: &PlacedWord| -> bool
            ensures { result ≡ nat_lt w.now.at.address start }
        { w.at.address < start },
    );
    let rest = &words[from..];
    let count = rest.partition_point(
        |w: &PlacedWord| -> bool
            ensures { result ≡ contains segment.entry.now w.now.at.address }
        { contains(segment, w.at.address) },
    );
    &rest[..count]
}

fn leads_to_place(word: &PlacedWord) -> bool
    ensures { result ≡ spec.leads_to_place word.now.target }
{
    matches!(word.target, WordTarget::Place { .. })
}

/// How far a word is from the start of the data mapping.
fn data_offset(moving: &Moving<'_, '_>, word: &PlacedWord) -> u64
    requires { IsMoving moving.now }
    ensures { result ≡ spec.data_offset moving.now.layout.now moving.now.number moving.now.segments.now word.now }
{
    let file = moving.place(word.at.segment, word.at.address).file;
    file.saturating_sub(moving.layout.writable().at)
}

/// Appends the offsets of those of some words that lead to places.
fn push_chained(
    moving: &Moving<'_, '_>,
    words: &[PlacedWord],
    offsets: &mut Vec<u64>,
) -> Result<(), NoMemory>
    requires { IsMoving moving.now }
    ensures { OnOk result (offsets.new.items ≡ offsets.old.items ++ map (spec.data_offset moving.now.layout.now moving.now.number moving.now.segments.now) (filter (λ w. spec.leads_to_place w.target) words.now)) }
{
    for word in words {
        if leads_to_place(word) {
            offsets.push(data_offset(moving, word))?;
        }
    }
    Ok(())
}

/// The offsets in the data mapping of the pointers that lead to places, by segments and in each by address.
pub(crate) fn chained_words(
    alloc: Global,
    moving: &Moving<'_, '_>,
    words: &[PlacedWord],
) -> Result<Vec<u64>, NoMemory>
    requires moving { IsMoving moving.now }
    requires order { IsNonDecreasingBy (λ w. w.at.address) words.now }
    requires belong { Belong words.now moving.now.segments.now }
    ensures { IfOk result (λ v. v.items ≡ spec.chained_words moving.now.layout.now moving.now.number moving.now.segments.now words.now) }
{
    let segments = moving.segments;
    let mut offsets = Vec::with_capacity(alloc, words.len())?;
    for segment in segments {
        let own = words_in(words, segment);
        push_chained(moving, own, &mut offsets)?;
    }
    Ok(offsets)
}
