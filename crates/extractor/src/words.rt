// What may be wrong with the words of a cache whose images make a sound set.
ghost use Rattle.std.specs.Prelude.{◌≡◌, ◌≤◌, map, length, IfOk, List};
ghost use Rattle.dsc_base.specs.Refusals.{RefusesView};
ghost use Rattle.extractor.specs.Bound.{AreAllBound};
ghost use Rattle.extractor.specs.Chained.{AreBounds, HaveAddresses};
ghost use Rattle.extractor.specs.Homes.{Rise, each_word};
ghost use Rattle.extractor.specs.Placing.{home_of};
ghost use Rattle.extractor.specs.Reading.{AreRead};
ghost use Rattle.extractor.specs.Vetting as spec;

use crate::bounds::{Bounds, all_bounds};
use crate::chain::{first_foreign, first_outside};
use crate::homes::{Home, homes_of};
use crate::pointers::check_pointers;
use crate::set::LinkedImages;
use dsc_base::ViewFault;
use macho_image::Image;
use slide_chain::ChainWord;
use std::alloc::Global;

/// Where the chain words of a cache begin, and the addresses that each image binds.
#[derive(Drop)]
pub(crate) struct PlacedWords {
    pub homes: Vec<Option<Home>>,
    pub bounds: Vec<Bounds>,
}

/// Places the chain words of a cache in its images, where offsets count from a start.
///
/// Refuses `ChainOutside`, `PointerNotSymbol` and `ForeignPointer`.
pub(crate) fn place_words(
    alloc: Global,
    images: &[Image<'_>],
    linked: &LinkedImages<'_>,
    words: &[ChainWord],
    start: u64,
) -> Result<PlacedWords, ViewFault>
    requires few { length images.now ≤ 4096 }
    requires read { AreRead images.now }
    requires rise { Rise words.now }
    requires addresses { HaveAddresses start words.now }
    requires streams { linked.now.streams.items ≡ map spec.cached_lists images.now }
    requires bound { AreAllBound (spec.cached_set images.now) linked.now.words.items }
    ensures homes { IfOk result (λ p. p.homes.items ≡ each_word (home_of images.now) start words.now) }
    ensures bounds { IfOk result (λ p. AreBounds (map spec.cached_lists images.now) p.bounds.items) }
    ensures cause { RefusesView (spec.words_finding start words.now (spec.cached_set images.now)) result }
{
    let bounds = all_bounds(alloc, &linked.streams)?;
    let homes = homes_of(alloc, words, start, images)?;
    if let Some(finding) = first_outside(images, &bounds, words, start, &homes) {
        return Err(ViewFault::Broken(finding));
    }
    match check_pointers(images, words, start, &linked.words) {
        Ok(()) => {}
        Err(fault) => return Err(fault),
    }
    if let Some(finding) = first_foreign(images, &bounds, words, start, &homes) {
        return Err(ViewFault::Broken(finding));
    }
    Ok(PlacedWords { homes, bounds })
}
