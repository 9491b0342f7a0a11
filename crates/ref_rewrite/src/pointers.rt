// The pointers of an image in a cache: the numbers that lead to their targets, and those that are chained.
ghost use Rattle.std.specs.Prelude.{◌≡◌, ◌<◌, ◌^◌, ◌++◌, map, OnOk};
ghost use Rattle.dsc_base.specs.Edits.{AllFit};
ghost use Rattle.prebind.specs.Words.{pointer_word};
ghost use Rattle.ref_rewrite.specs.Moving.{edit_of};
ghost use Rattle.ref_rewrite.specs.Steps.{IsMoving};

use crate::moving::Moving;
use dsc_base::{Edit, NoMemory};
use prebind::{PlacedWord, WordTarget};

#[tactic(auto, unfolding(crate::specs::Moving::new_number, prebind::specs::Numbers::number_to, prebind::specs::Numbers::cut_to, prebind::specs::Numbers::counted_to))]
fn pointer_edit(moving: &Moving<'_, '_>, word: &PlacedWord) -> Edit
    requires { IsMoving moving.now }
    ensures edit { result ≡ edit_of moving.now.layout.now moving.now.number moving.now.segments.now (pointer_word word.now) }
    ensures fits { result.value < 256 ^ result.width }
{
    let value = match word.target {
        WordTarget::Place {
            image,
            segment,
            distance,
        } => moving.start(image, segment).wrapping_add(distance),
        WordTarget::Constant(number) => number,
    };
    Edit {
        at: moving.place(word.at.segment, word.at.address).file,
        width: 8,
        value,
    }
}

/// Appends the edits of pointers, in their order.
pub(crate) fn push_pointers(
    moving: &Moving<'_, '_>,
    words: &[PlacedWord],
    edits: &mut Vec<Edit>,
) -> Result<(), NoMemory>
    requires { IsMoving moving.now }
    ensures edits { OnOk result (edits.new.items ≡ edits.old.items ++ map (edit_of moving.now.layout.now moving.now.number moving.now.segments.now) (map pointer_word words.now)) }
    ensures fit { OnOk result (AllFit edits.old.items → AllFit edits.new.items) }
{
    for word in words {
        edits.push(pointer_edit(moving, word))?;
    }
    Ok(())
}
