// Where segments go, one after another.
ghost use Rattle.std.specs.Prelude.{◌≡◌, ◌≤◌, ◌+◌, ◌^◌, length, map, OnOk, IfOk};
ghost use Rattle.cache_layout.specs.declared.mapping.Mapping.{Mapping};
ghost use Rattle.cache_layout.specs.Places.{mapping_of, room_of, move_of, shift_of, segments_room, images_room, image_moves, image_shifts, mapping_start, all_moves, all_shifts};
ghost use Rattle.cache_layout.specs.Rooms.{held};

use crate::mapping::mapping_of;
use crate::room::{Room, whole_pages};
use dsc_base::{NoMemory, REGION_START};
use macho_image::{Image, Moved, Moves, Segment};
use std::alloc::Global;

/// The moves and the shifts of the segments of an image.
#[derive(Drop)]
struct Moving {
    moves: Moves,
    shifts: Vec<u64>,
}

/// Puts a segment at the next place of its mapping.
fn put_segment(segment: &Segment<'_>, next: &mut Room) -> Moved
    requires small { (m : Mapping) → held next.old m + room_of m segment.now ≤ 2 ^ 32 }
    ensures moved { result ≡ move_of (mapping_of segment.now) (held next.old) }
    ensures next { (m : Mapping) → held next.new m ≡ held next.old m + room_of m segment.now }
{
    match mapping_of(segment) {
        Some(mapping) => {
            let file = next.of(mapping);
            next.grow(mapping, whole_pages(segment));
            Moved {
                address: REGION_START + file,
                file,
            }
        }
        None => Moved {
            address: 0,
            file: 0,
        },
    }
}

/// The new address of a segment less the old one; 0 for `__LINKEDIT`.
fn shift_of(segment: &Segment<'_>, moved: Moved) -> u64
    ensures { result ≡ shift_of (mapping_of segment.now) moved.address segment.now.vmaddr }
{
    match mapping_of(segment) {
        Some(_) => moved.address.wrapping_sub(segment.vmaddr),
        None => 0,
    }
}

/// Puts the segments of an image at the next places of their mappings.
fn put_segments(
    alloc: Global,
    segments: &[Segment<'_>],
    next: &mut Room,
) -> Result<Moving, NoMemory>
    requires { (m : Mapping) → held next.old m + segments_room m segments.now ≤ 2 ^ 32 }
    ensures moves { IfOk result (λ i. i.moves ≡ image_moves (held next.old) segments.now) }
    ensures shifts { IfOk result (λ i. i.shifts.items ≡ image_shifts (held next.old) segments.now) }
    ensures next { OnOk result ((m : Mapping) → held next.new m ≡ held next.old m + segments_room m segments.now) }
{
    let mut moves = Vec::with_capacity(alloc, segments.len())?;
    let mut shifts = Vec::with_capacity(alloc, segments.len())?;
    for segment in segments {
        let moved = put_segment(segment, next);
        moves.push(moved)?;
        shifts.push(shift_of(segment, moved))?;
    }
    let moves = Moves { segments: moves };
    Ok(Moving { moves, shifts })
}

/// Puts the segments of all images at the next places of their mappings.
pub(crate) fn put_images(
    alloc: Global,
    images: &[Image<'_>],
    starts: Room,
) -> Result<(Vec<Moves>, Vec<Vec<u64>>), NoMemory>
    requires starts { (m : Mapping) → held starts m ≡ mapping_start m images.now }
    requires fits { (m : Mapping) → mapping_start m images.now + images_room m images.now ≤ 2 ^ 32 }
    ensures moves { IfOk result (λ p. p.0.items ≡ all_moves images.now) }
    ensures shifts { IfOk result (λ p. map (λ v. v.items) p.1.items ≡ all_shifts images.now) }
{
    let mut next = starts;
    let mut moves = Vec::with_capacity(alloc, images.len())?;
    let mut shifts = Vec::with_capacity(alloc, images.len())?;
    for image in images {
        let moving = put_segments(alloc, &image.segments, &mut next)?;
        moves.push(moving.moves)?;
        shifts.push(moving.shifts)?;
    }
    Ok((moves, shifts))
}
