// Whether the bound words of a cache have the numbers to which their symbols lead.
ghost use Rattle.std.specs.Prelude.{◌≡◌, ◌≤◌, ◌∷◌, [], not, length, position};
ghost use Rattle.dsc_base.specs.declared.fault.ViewFault.TheVariants.{Broken};
ghost use Rattle.cache_header.specs.Findings.{finding};
ghost use Rattle.dsc_base.specs.Refusals.{RefusesView};
ghost use Rattle.cache_check.specs.Images.{each_of};
ghost use Rattle.extractor.specs.Bound.{AreAllBound};
ghost use Rattle.extractor.specs.Homes.{Rise};
ghost use Rattle.extractor.specs.Vetting as spec;

use crate::homes::first_from;
use dsc_base::{Finding, FindingKind, ViewFault};
use macho_image::{Image, Segment, value_at};
use prebind::{PlacedWord, WordTarget};
use slide_chain::ChainWord;

/// Whether a word begins at an address.
fn begins_at(word: &ChainWord, start: u64, address: u64) -> bool
    ensures { result ≡ spec.is_chained start (word.now ∷ []) address }
{
    u128::from(start) + u128::from(word.offset) == u128::from(address)
}

/// Whether a chain word is at an address, where offsets of words count from a start.
fn is_chained(words: &[ChainWord], start: u64, address: u64) -> bool
    requires { Rise words.now }
    ensures { result ≡ spec.is_chained start words.now address }
{
    match words.get(first_from(words, start, u128::from(address))) {
        Some(word) => begins_at(word, start, address),
        None => false,
    }
}

/// Where a segment of an image starts; 0 for none.
fn start_at(images: &[Image<'_>], image: u32, segment: u32) -> u64
    ensures { result ≡ spec.start_at images.now image segment }
{
    match images.get(image as usize) {
        Some(image) => match image.segments.get(segment as usize) {
            Some(segment) => segment.vmaddr,
            None => 0,
        },
        None => 0,
    }
}

/// Whether a number is that of a target, and slides as it should.
fn is_number_of(images: &[Image<'_>], slides: bool, number: u64, target: WordTarget) -> bool
    ensures { result ≡ spec.is_number_of images.now slides number target }
{
    match target {
        WordTarget::Place {
            image,
            segment,
            distance,
        } => slides && number == start_at(images, image, segment).wrapping_add(distance),
        WordTarget::Constant(constant) => !slides && number == constant,
    }
}

/// Whether a bound word has its number.
fn is_set(
    images: &[Image<'_>],
    words: &[ChainWord],
    start: u64,
    segments: &[Segment<'_>],
    word: &PlacedWord,
) -> bool
    requires { Rise words.now }
    ensures { result ≡ spec.is_set start words.now images.now segments.now word.now }
{
    let slides = is_chained(words, start, word.at.address);
    let number = value_at(segments, &word.at);
    is_number_of(images, slides, number, word.target)
}

/// The first of some bound words that hasn't.
fn first_unset(
    images: &[Image<'_>],
    words: &[ChainWord],
    start: u64,
    segments: &[Segment<'_>],
    bound: &[PlacedWord],
) -> Option<usize>
    requires { Rise words.now }
    ensures { result ≡ position (λ w. not (spec.is_set start words.now images.now segments.now w)) bound.now }
{
    bound
        .iter()
        .position(|word| !is_set(images, words, start, segments, word))
}

/// A finding.
pub(crate) fn found(kind: FindingKind, image: u32, at: u64) -> ViewFault
    ensures { result ≡ Broken (finding kind image at) }
{
    ViewFault::Broken(Finding { kind, image, at })
}

/// Refuses the first image with a bound word that hasn't its number, at the index of its first such bind.
pub(crate) fn check_pointers(
    images: &[Image<'_>],
    words: &[ChainWord],
    start: u64,
    bound: &[Vec<PlacedWord>],
) -> Result<(), ViewFault>
    requires rise { Rise words.now }
    requires few { length images.now ≤ 4096 }
    requires bound { AreAllBound (spec.cached_set images.now) bound.now }
    ensures { RefusesView (each_of (spec.pointer_in start words.now (spec.cached_set images.now)) 0 images.now) result }
{
    for (number, image) in images.iter().enumerate() {
        let own = &bound[number];
        if let Some(at) = first_unset(images, words, start, &image.segments, own) {
            return Err(found(FindingKind::PointerNotSymbol, number as u32, at as u64));
        }
    }
    Ok(())
}
