// Where the exports and the words of a set lead, image by image.
ghost use Rattle.std.specs.Prelude.{◌≡◌, ◌≤◌, ◌<◌, ℕ, List, length, slice_index_or, IfOk};
ghost use Rattle.dsc_base.specs.Refusals.{RefusesSet};
ghost use Rattle.prebind.specs.Places.{export_break};
ghost use Rattle.prebind.specs.Sets.{IsSoundSet};
ghost use Rattle.prebind.specs.Steps.{set_of};
ghost use Rattle.prebind.specs.Words.{pointers_of, ArePlaced};
ghost use Rattle.prebind.specs.WordRules.{place_break};
ghost use Rattle.load_model.specs.Phases.{first_of};
ghost use Rattle.load_model.specs.Placed.{AreAllPlaced};

use dsc_base::SetFault;
use prebind::{PlacedWord, Set, check_exports, index_set, place_words_by};
use std::alloc::Global;

/// Refuses `ExportOutside` of the first image of a set with an export that leads into no segment or into
/// `__LINKEDIT`, as `check_exports` does. `Memory` says that memory ran out.
pub fn check_all_exports(alloc: Global, set: &Set<'_, '_>) -> Result<(), SetFault>
    requires sound { IsSoundSet (set_of set.now) }
    ensures { RefusesSet (first_of (export_break (set_of set.now)) (length set.now.images.now)) result }
{
    for image in 0..set.images.len() as u32 {
        match check_exports(alloc, set, image) {
            Ok(()) => {}
            Err(fault) => return Err(fault),
        }
    }
    Ok(())
}

/// The pointers of each image in address order, each with where it leads, or the first rule that one of them
/// breaks. All are found by one index of the set.
pub(crate) fn place_all_words(
    alloc: Global,
    set: &Set<'_, '_>,
) -> Result<Vec<Vec<PlacedWord>>, SetFault>
    requires sound { IsSoundSet (set_of set.now) }
    ensures placed { IfOk result (λ v. AreAllPlaced (set_of set.now) v.items) }
    ensures cause { RefusesSet (first_of (place_break (set_of set.now)) (length set.now.images.now)) result }
{
    let indexed = index_set(alloc, set)?;
    let mut words = Vec::with_capacity(alloc, set.images.len())?;
    for image in 0..set.images.len() as u32 {
        match place_words_by(alloc, set, &indexed, image) {
            Ok(own) => words.push(own)?,
            Err(fault) => return Err(fault),
        }
    }
    Ok(words)
}
