// Segment commands that go to another place, each with its sections. Names are those of mach-o/loader.h.
ghost use Rattle.std.specs.Prelude.{◌≡◌, ◌≤◌, ◌+◌, ◌-◌, ◌*◌, ◌/◌, ◌++◌, length, take, drop, OnOk};
ghost use Rattle.dsc_base.specs.Numbers.{number_at};
ghost use Rattle.macho_edit.specs.Segments.{place_for, section_offset, moved_section, moved_fields, moved_sections, placed_segment, moved_segment};

use crate::LinkSpots;
use dsc_base::{NoMemory, get_u32, get_u64, put_u32, put_u64};
use macho_image::{Moved, is_zero_fill};

const LINKEDIT: &[u8] = b"__LINKEDIT\0\0\0\0\0\0";

/// Where a segment goes: its address, its offset in the file, and its sizes in memory and in the file, in
/// bytes.
#[derive(Clone, Copy, Debug, PartialEq, Eq)]
pub struct SegmentPlace {
    pub address: u64,
    pub file: u64,
    pub vmsize: u64,
    pub filesize: u64,
}

/// Where the segment of a segment_command_64 goes.
#[tactic(auto, unfolding(crate::specs::Segments::place_for))]
fn place_for(spots: &LinkSpots, moved: &Moved, command: &[u8]) -> SegmentPlace
    requires { 72 ≤ length command.now }
    ensures { result ≡ place_for spots.now moved.now (take 16 (drop 8 command.now)) (number_at 8 command.now 32) }
{
    if &command[8..24] == LINKEDIT {
        SegmentPlace {
            address: spots.linkedit.address,
            file: spots.linkedit.file,
            vmsize: spots.vmsize,
            filesize: spots.filesize,
        }
    } else {
        let vmsize = get_u64(command, 32);
        SegmentPlace {
            address: moved.address,
            file: moved.file,
            vmsize,
            filesize: vmsize,
        }
    }
}

/// The offset of a section's bytes in the file; 0 for one that is filled with zeros.
fn section_offset(place: &SegmentPlace, flags: u32, distance: u64) -> u32
    ensures { result ≡ section_offset place.now flags distance }
{
    if is_zero_fill(flags) {
        0
    } else {
        (place.file.wrapping_add(distance) % 0x1_0000_0000) as u32
    }
}

/// Appends a section_64 whose segment started at an address and goes to a place.
#[tactic(auto, unfolding(crate::specs::Segments::moved_section))]
fn append_section(
    out: &mut Vec<u8>,
    section: &[u8],
    place: &SegmentPlace,
    start: u64,
) -> Result<(), NoMemory>
    requires { length section.now ≡ 80 }
    ensures { OnOk result (out.new.items ≡ out.old.items ++ moved_section place.now start section.now) }
{
    let distance = get_u64(section, 32).saturating_sub(start);
    let offset = section_offset(place, get_u32(section, 64), distance);
    let mut moved = [0u8; 80];
    moved.copy_from_slice(section);
    put_u64(&mut moved, 32, place.address.wrapping_add(distance));
    put_u32(&mut moved, 48, offset);
    out.extend_from_slice(&moved)?;
    Ok(())
}

/// Appends whole sections, likewise.
fn append_sections(
    out: &mut Vec<u8>,
    sections: &[u8],
    place: &SegmentPlace,
    start: u64,
) -> Result<(), NoMemory>
    ensures { OnOk result (out.new.items ≡ out.old.items ++ moved_sections place.now start (length sections.now / 80) sections.now) }
{
    for k in 0..sections.len() / 80 {
        append_section(out, &sections[80 * k..80 * k + 80], place, start)?;
    }
    Ok(())
}

/// Appends the 72 bytes of a segment_command_64 with its place.
#[tactic(auto, unfolding(crate::specs::Segments::moved_fields))]
fn append_fields(out: &mut Vec<u8>, front: &[u8], place: &SegmentPlace) -> Result<(), NoMemory>
    requires { length front.now ≡ 72 }
    ensures { OnOk result (out.new.items ≡ out.old.items ++ moved_fields place.now front.now) }
{
    let mut moved = [0u8; 72];
    moved.copy_from_slice(front);
    put_u64(&mut moved, 24, place.address);
    put_u64(&mut moved, 32, place.vmsize);
    put_u64(&mut moved, 40, place.file);
    put_u64(&mut moved, 48, place.filesize);
    out.extend_from_slice(&moved)?;
    Ok(())
}

/// Appends a segment_command_64 and its sections at a place.
fn append_placed(out: &mut Vec<u8>, command: &[u8], place: &SegmentPlace) -> Result<(), NoMemory>
    requires { 72 ≤ length command.now }
    ensures { OnOk result (out.new.items ≡ out.old.items ++ placed_segment place.now command.now) }
{
    let (front, sections) = command.split_at(72);
    append_fields(out, front, place)?;
    append_sections(out, sections, place, get_u64(command, 24))?;
    Ok(())
}

/// Appends a segment_command_64 and its sections at the place where the segment goes.
pub(crate) fn append_segment(
    out: &mut Vec<u8>,
    command: &[u8],
    moved: &Moved,
    spots: &LinkSpots,
) -> Result<(), NoMemory>
    requires { 72 ≤ length command.now }
    ensures { OnOk result (out.new.items ≡ out.old.items ++ moved_segment spots.now moved.now command.now) }
{
    let place = place_for(spots, moved, command);
    append_placed(out, command, &place)?;
    Ok(())
}
