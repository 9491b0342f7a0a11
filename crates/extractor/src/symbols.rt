// Where the symbols that cached images bind lead.
ghost use Rattle.std.specs.Prelude.{◌≡◌, ◌≤◌, ◌<◌, length, IfOk};
ghost use Rattle.dsc_base.specs.Refusals.{RefusesSet};
ghost use Rattle.load_model.specs.Phases.{first_of};
ghost use Rattle.prebind.specs.Sets.{IsSoundSet};
ghost use Rattle.prebind.specs.Steps.{set_of};
ghost use Rattle.extractor.specs.Bound.{AreAllBound};
ghost use Rattle.extractor.specs.Vetting as spec;

use dsc_base::SetFault;
use prebind::{PlacedWord, Set, index_set, place_binds_by};
use std::alloc::Global;

/// The bound words of each image in the order of its binds, or the first image with a bind that breaks a rule.
/// All are found by one index of the set.
pub(crate) fn place_all(alloc: Global, set: &Set<'_, '_>) -> Result<Vec<Vec<PlacedWord>>, SetFault>
    requires sound { IsSoundSet (set_of set.now) }
    ensures placed { IfOk result (λ v. AreAllBound (set_of set.now) v.items) }
    ensures cause { RefusesSet (first_of (spec.symbol_break_in (set_of set.now)) (length set.now.images.now)) result }
{
    let indexed = index_set(alloc, set)?;
    let mut words = Vec::with_capacity(alloc, set.images.len())?;
    for image in 0..set.images.len() as u32 {
        match place_binds_by(alloc, set, &indexed, image) {
            Ok(own) => words.push(own)?,
            Err(fault) => return Err(fault),
        }
    }
    Ok(words)
}
