// The words of an image given their places.
ghost use Rattle.std.specs.Prelude.{◌≡◌, ◌<◌, length, option_map, IfOk};
ghost use Rattle.dsc_base.specs.Refusals.{in_image, RefusesSet};
ghost use Rattle.prebind.specs.Indexed.{IsIndexOf};
ghost use Rattle.prebind.specs.Sets.{IsSoundSet};
ghost use Rattle.prebind.specs.Steps.{set_of};
ghost use Rattle.prebind.specs.Words as spec;
ghost use Rattle.prebind.specs.WordRules as rules;

use crate::place_indexed::place_binds;
use crate::{Indexed, PlacedWord, Set, body_segments, index_set, place_words_indexed};
use dsc_base::SetFault;
use export_trie::Steps;
use std::alloc::Global;
use std::marker::Brand;
use std::sync::ledger::{Blank, Ledger};

/// All words of an image that are bound or rebased, in address order, each with where it leads. A bound
/// word leads where its symbol does, as far behind as its addend says, also where it is rebased too; a weak
/// symbol that is absent counts as 0, so that the word is the addend. Another rebase leads to its own
/// value: in the segment of the section that the split-segment information records for it, else in the
/// segment other than `__LINKEDIT` that contains the value.
///
/// Refuses with the bind's index `BadOrdinal`, `UnresolvedSymbol` (where the symbol isn't weak) and
/// `ReexportLoop`, whichever comes first; and then with the rebase's index `PointsIntoLinkedit` and
/// `RebaseOutside`, where nothing is recorded and the value is in `__LINKEDIT` or in no segment, and
/// `PointerOutOfRange`, where a recorded one leads below the start or above the end of its segment. `Memory`
/// says that memory ran out.
pub fn place_words(
    alloc: Global,
    set: &Set<'_, '_>,
    image: u32,
) -> Result<Vec<PlacedWord>, SetFault>
    requires sound { IsSoundSet (set_of set.now) }
    requires image { image < length set.now.images.now }
    ensures found { IfOk result (λ v. spec.ArePlaced (spec.pointers_of (set_of set.now) image) v.items) }
    ensures cause { RefusesSet (rules.place_break (set_of set.now) image) result }
{
    let indexed = index_set(alloc, set)?;
    place_words_by(alloc, set, &indexed, image)
}

/// What `place_words` answers, by an index of the set that was made before: so the words of all images take
/// one index.
pub fn place_words_by(
    alloc: Global,
    set: &Set<'_, '_>,
    indexed: &Indexed,
    image: u32,
) -> Result<Vec<PlacedWord>, SetFault>
    requires index { IsIndexOf (set_of set.now) indexed.now }
    requires image { image < length set.now.images.now }
    ensures found { IfOk result (λ v. spec.ArePlaced (spec.pointers_of (set_of set.now) image) v.items) }
    ensures cause { RefusesSet (rules.place_break (set_of set.now) image) result }
{
    place_counted::<Brand>(alloc, set, indexed, image, Blank::new(1))
}

/// The same, with a counter of steps of its own.
fn place_counted<L: Ledger>(
    alloc: Global,
    set: &Set<'_, '_>,
    indexed: &Indexed,
    image: u32,
    blank: Blank,
) -> Result<Vec<PlacedWord>, SetFault>
    requires name { blank.name ≡ L.name }
    requires parts { blank.parts ≡ L.parts }
    requires one { blank.parts ≡ 1 }
    requires index { IsIndexOf (set_of set.now) indexed.now }
    requires image { image < length set.now.images.now }
    ensures found { IfOk result (λ v. spec.ArePlaced (spec.pointers_of (set_of set.now) image) v.items) }
    ensures cause { RefusesSet (rules.place_break (set_of set.now) image) result }
{
    let streams = &set.streams[image as usize];
    let segments = body_segments(&set.images[image as usize]);
    let mut steps = Steps::<L>::new(blank);
    place_words_indexed(
        alloc,
        set.links,
        indexed,
        image,
        segments,
        &streams.rebases,
        &streams.binds,
        &streams.references,
        &mut steps,
    )
}

/// The bound words of an image in the order of its binds, each with where it leads, by an index of the set.
///
/// Refuses with the bind's index `BadOrdinal`, `UnresolvedSymbol` and `ReexportLoop`, as `place_words` does.
/// `Memory` says that memory ran out.
pub fn place_binds_by(
    alloc: Global,
    set: &Set<'_, '_>,
    indexed: &Indexed,
    image: u32,
) -> Result<Vec<PlacedWord>, SetFault>
    requires index { IsIndexOf (set_of set.now) indexed.now }
    requires image { image < length set.now.images.now }
    ensures found { IfOk result (λ v. v.items ≡ spec.bound_words (set_of set.now) image) }
    ensures cause { RefusesSet (option_map (in_image image) (rules.symbol_break (set_of set.now) image)) result }
{
    place_binds_counted::<Brand>(alloc, set, indexed, image, Blank::new(1))
}

/// The same, with a counter of steps of its own.
#[tactic(auto, unfolding(crate::specs::Words::bound_words, crate::specs::WordRules::symbol_break))]
fn place_binds_counted<L: Ledger>(
    alloc: Global,
    set: &Set<'_, '_>,
    indexed: &Indexed,
    image: u32,
    blank: Blank,
) -> Result<Vec<PlacedWord>, SetFault>
    requires name { blank.name ≡ L.name }
    requires parts { blank.parts ≡ L.parts }
    requires one { blank.parts ≡ 1 }
    requires index { IsIndexOf (set_of set.now) indexed.now }
    requires image { image < length set.now.images.now }
    ensures found { IfOk result (λ v. v.items ≡ spec.bound_words (set_of set.now) image) }
    ensures cause { RefusesSet (option_map (in_image image) (rules.symbol_break (set_of set.now) image)) result }
{
    let streams = &set.streams[image as usize];
    let mut steps = Steps::<L>::new(blank);
    match place_binds(alloc, set.links, indexed, image, &streams.binds, &mut steps) {
        Ok(words) => Ok(words),
        Err(fault) => Err(fault.in_image(image)),
    }
}
