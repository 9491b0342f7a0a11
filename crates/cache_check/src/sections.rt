// The sections of a cached image against those of its file.
ghost use Rattle.std.specs.Prelude.{◌≡◌, ◌<◌, ◌≤◌, ◌++◌, ℕ, IfOk, length, map, filter, slice_index_or};
ghost use Rattle.std.specs.List.Sorted.{IsNonDecreasingBy};
ghost use Rattle.prebind.specs.Words.{pointer_word, reference_word, is_no_pointer};
ghost use Rattle.prebind.specs.declared.resolved.PlacedWord.{PlacedWord};
ghost use Rattle.cache_check.specs.Bytes as spec;
ghost use Rattle.cache_check.specs.Differences.{cached_starts};
ghost use Rattle.cache_check.specs.Steps.Sides.{chain_view};
ghost use Rattle.cache_check.specs.Steps.Gaps as gaps;
ghost use Rattle.cache_check.specs.declared.extents.Extent.{Extent};

use crate::extents::{Extent, extents_of};
use crate::gaps::byte_mismatch;
use crate::matched::first_word;
use crate::matching::Matching;
use crate::mismatch::{Mismatch, earlier};
use crate::pairs::pair_of;
use crate::strays::stray_in;
use dsc_base::NoMemory;
use macho_image::Image;
use prebind::PlacedWord;
use split_info::Reference;
use std::alloc::Global;

/// How many sections an image has.
fn section_count(image: &Image<'_>) -> u32
    ensures count { result ≡ length image.now.sections }
    ensures few { result ≤ 255 }
{
    image.facts();
    image.sections.len() as u32
}

/// A word that slides where it shouldn't, in the section of a number from 0.
#[tactic(auto, unfolding(crate::specs::Bytes::in_section))]
fn stray_of(
    matching: &Matching<'_, '_, '_>,
    pointers: &[PlacedWord],
    number: u32,
) -> Option<Mismatch>
    requires rises { (i j : ℕ) (d : PlacedWord) → i < j → j < length pointers.now → (slice_index_or pointers.now i d).at.address < (slice_index_or pointers.now j d).at.address }
    requires few { number < 255 }
    ensures { result ≡ spec.in_section (spec.stray_in (chain_view matching.now.chains) pointers.now) matching.now.file.now matching.now.cached.now number }
{
    let pair = pair_of(matching.file, matching.cached, number + 1)?;
    stray_in(&matching.chains, pointers, number + 1, &pair)
}

/// The first word that slides where it shouldn't.
fn first_stray(matching: &Matching<'_, '_, '_>, pointers: &[PlacedWord]) -> Option<Mismatch>
    requires rises { (i j : ℕ) (d : PlacedWord) → i < j → j < length pointers.now → (slice_index_or pointers.now i d).at.address < (slice_index_or pointers.now j d).at.address }
    ensures { result ≡ spec.in_sections (spec.stray_in (chain_view matching.now.chains) pointers.now) matching.now.file.now matching.now.cached.now }
{
    for number in 0..section_count(matching.file) {
        if let Some(stray) = stray_of(matching, pointers, number) {
            return Some(stray);
        }
    }
    None
}

/// A byte in no word that isn't the file's, in the section of a number from 0.
#[tactic(auto, unfolding(crate::specs::Bytes::in_section))]
fn byte_of(matching: &Matching<'_, '_, '_>, extents: &[Extent], number: u32) -> Option<Mismatch>
    requires sorted { IsNonDecreasingBy (λ e. e.at) extents.now }
    requires narrow { (i : ℕ) (d : Extent) → i < length extents.now → (slice_index_or extents.now i d).width ≤ 8 }
    requires few { number < 255 }
    ensures { result ≡ spec.in_section (gaps.held_mismatch extents.now) matching.now.file.now matching.now.cached.now number }
{
    let pair = pair_of(matching.file, matching.cached, number + 1)?;
    byte_mismatch(extents, number + 1, &pair)
}

/// The first byte in no word that isn't the file's.
fn first_byte(matching: &Matching<'_, '_, '_>, extents: &[Extent]) -> Option<Mismatch>
    requires sorted { IsNonDecreasingBy (λ e. e.at) extents.now }
    requires narrow { (i : ℕ) (d : Extent) → i < length extents.now → (slice_index_or extents.now i d).width ≤ 8 }
    ensures { result ≡ spec.in_sections (gaps.held_mismatch extents.now) matching.now.file.now matching.now.cached.now }
{
    for number in 0..section_count(matching.file) {
        if let Some(other) = byte_of(matching, extents, number) {
            return Some(other);
        }
    }
    None
}

/// The first place at which a section of a cached image has something else than it should. The number of the
/// image is told, its pointers by their addresses, and its references.
#[tactic(auto, unfolding(crate::specs::Bytes::first_mismatch))]
pub(crate) fn first_mismatch(
    alloc: Global,
    matching: &Matching<'_, '_, '_>,
    number: u32,
    pointers: &[PlacedWord],
    references: &[Reference],
) -> Result<Option<Mismatch>, NoMemory>
    requires rises { (i j : ℕ) (d : PlacedWord) → i < j → j < length pointers.now → (slice_index_or pointers.now i d).at.address < (slice_index_or pointers.now j d).at.address }
    ensures { IfOk result (λ m. m ≡ spec.first_mismatch (chain_view matching.now.chains) (cached_starts matching.now.all.now) pointers.now (map pointer_word pointers.now ++ map (reference_word number matching.now.file.now.sections matching.now.file.now.segments) (filter is_no_pointer references.now)) matching.now.file.now matching.now.cached.now) }
{
    let extents = extents_of(alloc, pointers, references)?;
    let word = first_word(matching, number, pointers, references);
    let stray = first_stray(matching, pointers);
    Ok(earlier(earlier(word, stray), first_byte(matching, &extents)))
}
