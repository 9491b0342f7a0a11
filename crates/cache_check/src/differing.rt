// The first difference between the images of a cache and some files.
ghost use Rattle.std.specs.Prelude.{◌≡◌, ◌≤◌, ◌<◌, ℕ, Some, None, IfOk, length, slice_get, slice_index_or};
ghost use Rattle.macho_image.specs.Records.{Img};
ghost use Rattle.export_trie.specs.Order.{trie_break};
ghost use Rattle.prebind.specs.Steps.{set_of};
ghost use Rattle.prebind.specs.declared.resolved.PlacedWord.{PlacedWord};
ghost use Rattle.load_model.specs.Placed.{AreAllPlaced};
ghost use Rattle.cache_check.specs.Bytes as bytes;
ghost use Rattle.cache_check.specs.Verdict as spec;
ghost use Rattle.cache_check.specs.Firsts.{first_below};
ghost use Rattle.cache_check.specs.Steps.Comparing as steps;
ghost use Rattle.cache_check.specs.Steps.Sides.{chain_view};

use crate::Difference;
use crate::chains::Chains;
use crate::comparing::compare_shapes;
use crate::exports::compare_exports;
use crate::matching::Matching;
use crate::mismatch::Mismatch;
use crate::sections::first_mismatch;
use crate::shapes::shape_of;
use dsc_base::NoMemory;
use macho_image::Image;
use prebind::{PlacedWord, Set};
use split_info::Reference;
use std::alloc::Global;

/// A place of an image at which it has something else than it should.
fn bytes_of(image: u32, mismatch: Mismatch) -> Difference
    ensures { result ≡ bytes.bytes_of image mismatch }
{
    Difference::Bytes {
        image,
        section: mismatch.section,
        offset: mismatch.offset,
        found: mismatch.found,
        wanted: mismatch.wanted,
    }
}

/// The first way in which a cached image differs from the file of a number: in its shape, in its sections or
/// in its exports.
fn compare_image(
    alloc: Global,
    matching: &Matching<'_, '_, '_>,
    number: u32,
    pointers: &[PlacedWord],
    references: &[Reference],
) -> Result<Option<Difference>, NoMemory>
    requires rises { (i j : ℕ) (d : PlacedWord) → i < j → j < length pointers.now → (slice_index_or pointers.now i d).at.address < (slice_index_or pointers.now j d).at.address }
    requires wanted { trie_break matching.now.file.now.streams.exports ≡ None }
    requires found { trie_break matching.now.cached.now.streams.exports ≡ None }
    ensures { IfOk result (λ d. d ≡ steps.matched_difference matching.now number pointers.now references.now) }
{
    let found = shape_of(alloc, matching.cached)?;
    let wanted = shape_of(alloc, matching.file)?;
    if let Some(shape) = compare_shapes(number, &found, &wanted) {
        return Ok(Some(shape));
    }
    if let Some(place) = first_mismatch(alloc, matching, number, pointers, references)? {
        return Ok(Some(bytes_of(number, place)));
    }
    let exports = compare_exports(alloc, number, matching.file, matching.cached)?;
    Ok(exports)
}

/// The first way in which the cached image of a number differs from its file.
fn compare_at(
    alloc: Global,
    chains: Chains<'_>,
    cached: &[Image<'_>],
    set: &Set<'_, '_>,
    words: &[Vec<PlacedWord>],
    number: u32,
) -> Result<Option<Difference>, NoMemory>
    requires placed { AreAllPlaced (set_of set.now) words.now }
    requires streams { length set.now.streams.now ≡ length set.now.images.now }
    requires inside { number < length set.now.images.now }
    requires cached { number < length cached.now }
    requires wanted { (k : ℕ) (i : Img) → slice_get set.now.images.now k ≡ Some i → trie_break i.streams.exports ≡ None }
    requires found { (k : ℕ) (i : Img) → slice_get cached.now k ≡ Some i → trie_break i.streams.exports ≡ None }
    ensures { IfOk result (λ d. d ≡ spec.image_difference (chain_view chains.entry) cached.now (set_of set.now) number) }
{
    let index = number as usize;
    let file = &set.images[index];
    let image = &cached[index];
    let streams = &set.streams[index];
    let matching = Matching::new(chains, cached, file, image);
    let found = compare_image(alloc, &matching, number, &words[index], &streams.references)?;
    Ok(found)
}

/// The first way in which the images of a cache differ from those of a set, one after the other.
pub(crate) fn compare_images(
    alloc: Global,
    chains: Chains<'_>,
    cached: &[Image<'_>],
    set: &Set<'_, '_>,
    words: &[Vec<PlacedWord>],
) -> Result<Option<Difference>, NoMemory>
    requires placed { AreAllPlaced (set_of set.now) words.now }
    requires streams { length set.now.streams.now ≡ length set.now.images.now }
    requires few { length set.now.images.now ≤ 4096 }
    requires same { length cached.now ≡ length set.now.images.now }
    requires wanted { (k : ℕ) (i : Img) → slice_get set.now.images.now k ≡ Some i → trie_break i.streams.exports ≡ None }
    requires found { (k : ℕ) (i : Img) → slice_get cached.now k ≡ Some i → trie_break i.streams.exports ≡ None }
    ensures { IfOk result (λ d. d ≡ first_below (spec.image_difference (chain_view chains.entry) cached.now (set_of set.now)) (length set.now.images.now)) }
{
    for number in 0..set.images.len() as u32 {
        if let Some(found) = compare_at(alloc, chains, cached, set, words, number)? {
            return Ok(Some(found));
        }
    }
    Ok(None)
}
