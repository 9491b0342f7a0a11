// The segments of an image copied to their places in a cache.
ghost use Rattle.std.specs.Prelude.{◌≡◌, ◌++◌, ◌∷◌, [], IfOk, OnOk};
ghost use Rattle.ref_rewrite.specs.Planned as spec;
ghost use Rattle.ref_rewrite.specs.Steps.{IsMoving, copied};

use crate::Piece;
use crate::moving::Moving;
use dsc_base::NoMemory;
use macho_image::Segment;
use std::alloc::Global;

/// Appends the bytes of a segment, unless it is `__LINKEDIT`.
fn push_copy<'a>(
    moving: &Moving<'_, 'a>,
    number: usize,
    segment: &Segment<'a>,
    copies: &mut Vec<Piece<'a>>,
) -> Result<(), NoMemory>
    requires { IsMoving moving.now }
    ensures { OnOk result (copies.new.items ≡ copies.old.items ++ copied moving.now.layout.now moving.now.number ((number, segment.now) ∷ [])) }
{
    if !segment.is_linkedit() {
        copies.push(Piece {
            at: moving.file(number),
            bytes: segment.bytes,
        })?;
    }
    Ok(())
}

/// The bytes of each segment other than `__LINKEDIT`, in command order.
pub(crate) fn copies<'a>(alloc: Global, moving: &Moving<'_, 'a>) -> Result<Vec<Piece<'a>>, NoMemory>
    requires { IsMoving moving.now }
    ensures { IfOk result (λ v. v.items ≡ spec.copies_of moving.now.layout.now moving.now.number moving.now.segments.now) }
{
    let segments: &[Segment<'a>] = moving.segments;
    let mut copies = Vec::with_capacity(alloc, segments.len())?;
    for (number, segment) in segments.iter().enumerate() {
        push_copy(moving, number, segment, &mut copies)?;
    }
    Ok(copies)
}
