// The words of an image given their places by an index.
ghost use Rattle.std.specs.Prelude.{◌≡◌, ◌≤◌, ◌<◌, ◌+◌, length, map, slice_index_or, IfOk};
ghost use Rattle.dsc_base.specs.Refusals.{Refuses, RefusesSet};
ghost use Rattle.macho_image.specs.Segments.{segments_at};
ghost use Rattle.prebind.specs.Bodies.{body_of, AreOfOneImage, InEachImage};
ghost use Rattle.prebind.specs.Indexed.{AreOfOneSet, InEachSet};
ghost use Rattle.prebind.specs.Probes.{probes, bind_probes};
ghost use Rattle.prebind.specs.Words as spec;
ghost use Rattle.prebind.specs.WordRules as rules;

use crate::PlacedWord;
use crate::body::Body;
use crate::index::Indexed;
use crate::probing::resolve_indexed;
use crate::words::{place_resolved, with_rebases};
use bind_ops::Bind;
use dep_closure::Links;
use dsc_base::{Fault, SetFault};
use export_trie::Steps;
use macho_image::{Image, Location, Segment, SegmentIndex};
use split_info::Reference;
use std::alloc::Global;
use std::sync::ledger::Ledger;

fn place_bind<L: Ledger>(
    alloc: Global,
    links: &Links,
    indexed: &Indexed,
    image: u32,
    index: usize,
    bind: &Bind<'_>,
    steps: &mut Steps<L>,
) -> Result<PlacedWord, Fault>
    requires one { AreOfOneSet links.now indexed.now }
    requires image { image < length indexed.now.frames }
    ensures found { IfOk result (λ w. InEachSet links.now indexed.now (λ set. w ≡ spec.placed_bind set image bind.now)) }
    ensures cause { InEachSet links.now indexed.now (λ set. Refuses (rules.bind_fault set image index bind.now) result) }
    ensures counted { InEachSet links.now indexed.now (λ set. steps.new ≤ steps.old + probes set image bind.now.ordinal bind.now.name) }
{
    let outcome = resolve_indexed(alloc, links, indexed, image, bind.ordinal, bind.name, steps)?;
    place_resolved(index, bind, outcome)
}

/// The bound words, or the first bind that breaks a rule.
pub(crate) fn place_binds<L: Ledger>(
    alloc: Global,
    links: &Links,
    indexed: &Indexed,
    image: u32,
    binds: &[Bind<'_>],
    steps: &mut Steps<L>,
) -> Result<Vec<PlacedWord>, Fault>
    requires one { AreOfOneSet links.now indexed.now }
    requires image { image < length indexed.now.frames }
    ensures found { IfOk result (λ v. InEachSet links.now indexed.now (λ set. v.items ≡ map (spec.placed_bind set image) binds.now)) }
    ensures cause { InEachSet links.now indexed.now (λ set. Refuses (rules.bind_fault_from set image 0 binds.now) result) }
    ensures counted { InEachSet links.now indexed.now (λ set. steps.new ≤ steps.old + bind_probes set image binds.now) }
{
    let mut words = Vec::with_capacity(alloc, binds.len())?;
    for (index, bind) in binds.iter().enumerate() {
        let word = place_bind(alloc, links, indexed, image, index, bind, steps)?;
        words.push(word)?;
    }
    Ok(words)
}

/// All words of an image, by its segments other than `__LINKEDIT` and what its streams spell.
fn image_words<L: Ledger>(
    alloc: Global,
    links: &Links,
    indexed: &Indexed,
    image: u32,
    segments: &[Segment<'_>],
    rebases: &[Location],
    binds: &[Bind<'_>],
    references: &[Reference],
    steps: &mut Steps<L>,
) -> Result<Vec<PlacedWord>, Fault>
    requires { AreOfOneImage links.now indexed.now image segments.now rebases.now binds.now references.now }
    ensures found { IfOk result (λ v. InEachImage links.now indexed.now image segments.now rebases.now binds.now references.now (λ set. spec.AreOrdered (spec.pointers_of set image) v.items)) }
    ensures cause { InEachImage links.now indexed.now image segments.now rebases.now binds.now references.now (λ set. Refuses (rules.word_fault set image (segments_at set.images image) (spec.streams_at set image)) result) }
    ensures counted { InEachImage links.now indexed.now image segments.now rebases.now binds.now references.now (λ set. steps.new ≤ steps.old + bind_probes set image binds.now) }
{
    let placed = place_binds(alloc, links, indexed, image, binds, steps)?;
    let frame = &indexed.frames[image as usize];
    let linkedit = frame.segments[segments.len()];
    let index = SegmentIndex::over(alloc, segments)?;
    let body = Body::new(segments, &index, linkedit);
    match with_rebases(alloc, &body, image, binds, references, rebases, placed) {
        Ok(words) => Ok(words),
        Err(fault) => Err(fault),
    }
}

/// The segments of an image other than `__LINKEDIT`, which is the last one, in command order.
pub fn body_segments<'i, 'a>(image: &'i Image<'a>) -> &'i [Segment<'a>]
    ensures { result.now ≡ body_of image.entry.now.segments }
{
    image.facts();
    let segments = image.segments.as_slice();
    &segments[..segments.len() - 1]
}

/// All words of an image that are bound or rebased, in address order, each with where it leads, found by an
/// index: what `place_words` answers for the set whose links and index these are. `segments` are the image's
/// segments as `body_segments` gives them, and the three lists are those of its streams.
///
/// Refuses what `place_words` refuses: `BadOrdinal`, `UnresolvedSymbol` and `ReexportLoop` with the bind's
/// index, and then `PointsIntoLinkedit`, `RebaseOutside` and `PointerOutOfRange` with the rebase's. `Memory`
/// says that memory ran out.
///
/// It takes at most the steps that `resolve_indexed` takes for each bind, also where it refuses.
pub fn place_words_indexed<L: Ledger>(
    alloc: Global,
    links: &Links,
    indexed: &Indexed,
    image: u32,
    segments: &[Segment<'_>],
    rebases: &[Location],
    binds: &[Bind<'_>],
    references: &[Reference],
    steps: &mut Steps<L>,
) -> Result<Vec<PlacedWord>, SetFault>
    requires { AreOfOneImage links.now indexed.now image segments.now rebases.now binds.now references.now }
    ensures found { IfOk result (λ v. InEachImage links.now indexed.now image segments.now rebases.now binds.now references.now (λ set. spec.ArePlaced (spec.pointers_of set image) v.items)) }
    ensures cause { InEachImage links.now indexed.now image segments.now rebases.now binds.now references.now (λ set. RefusesSet (rules.place_break set image) result) }
    ensures counted { InEachImage links.now indexed.now image segments.now rebases.now binds.now references.now (λ set. steps.new ≤ steps.old + bind_probes set image binds.now) }
{
    match image_words(
        alloc, links, indexed, image, segments, rebases, binds, references, steps,
    ) {
        Ok(words) => Ok(words),
        Err(fault) => Err(fault.in_image(image)),
    }
}
