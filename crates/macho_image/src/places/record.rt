// Where a word lies, and whether a record may name it.
ghost use Rattle.std.specs.Prelude.{◌≡◌, ◌≤◌, ◌<◌, ◌+◌, ◌^◌, ℕ, Some, length};
ghost use Rattle.std.specs.List.{AllPairs};
ghost use Rattle.macho_image.specs.Places as spec;

use crate::{Image, Location, Section, Segment};
use dsc_base::RECORD_LIMIT;

/// The size of a word, and the last offset in a page at which one is wholly in it.
const WORD: u64 = 8;

const PAGE: u64 = 4096;

const LAST_IN_PAGE: u64 = 0xFF8;

/// The protection of a segment that may be read and written.
const READ_WRITE: u32 = 3;

/// Why a record is refused, in the order in which it is tried.
#[derive(Clone, Copy, Debug, PartialEq, Eq)]
pub enum PlaceFault {
    /// No segment is set, there is none of this number, or the word isn't inside it.
    OutsideSegment,
    NotWritable,
    /// The word isn't wholly in one section of the segment.
    OutsideSection,
    /// The address is no multiple of 4.
    Misaligned,
    CrossesPage,
    /// As many records as a stream may have were read before.
    TooMany,
}

fn lies_in(segment: &Segment<'_>, address: u64) -> bool
    ensures { result ≡ spec.lies_in segment.now address }
{
    segment.vmsize >= WORD
        && address >= segment.vmaddr
        && address - segment.vmaddr <= segment.vmsize - WORD
}

fn segment_fault(segment: &Segment<'_>, address: u64) -> Option<PlaceFault>
    ensures { result ≡ spec.segment_fault segment.now address }
{
    if !lies_in(segment, address) {
        Some(PlaceFault::OutsideSegment)
    } else if segment.initprot != READ_WRITE {
        Some(PlaceFault::NotWritable)
    } else {
        None
    }
}

fn word_fault(address: u64, before: usize) -> Option<PlaceFault>
    ensures { result ≡ spec.word_fault address before }
{
    if address % 4 != 0 {
        Some(PlaceFault::Misaligned)
    } else if address % PAGE > LAST_IN_PAGE {
        Some(PlaceFault::CrossesPage)
    } else if before >= RECORD_LIMIT {
        Some(PlaceFault::TooMany)
    } else {
        None
    }
}

/// The end of so many bytes, which may be 2^64 and more.
fn end_of(start: u64, size: u64) -> u128
    ensures { result ≡ start + size }
{
    u128::from(start) + u128::from(size)
}

fn holds(section: &Section, segment: u32, address: u64, width: u64) -> bool
    ensures { result ≡ spec.holds width segment address section.now }
{
    section.segment == segment
        && section.addr <= address
        && end_of(address, width) <= end_of(section.addr, section.size)
}

fn is_behind(section: &Section, segment: u32, address: u64, width: u64) -> bool
    ensures { result ≡ spec.is_behind width segment address section.now }
{
    section.segment < segment
        || section.segment == segment && end_of(section.addr, section.size) < end_of(address, width)
}

/// The number, from 1, of the section of a segment that holds so many bytes from an address on, or `None`
/// where there is none. Sections are in the order of their segments, and those of one segment in address
/// order, as an image's are. It takes as many steps as the number of sections can be halved.
pub fn section_around(sections: &[Section], segment: u32, address: u64, width: u64) -> Option<u32>
    requires few { length sections.now < 2 ^ 32 }
    requires order { AllPairs spec.Precedes sections.now }
    ensures { result ≡ spec.section_around sections.now segment address width }
{
    let index = sections.partition_point(
        |x: &Section| -> bool
            ensures { result ≡ spec.is_behind width segment address x.now }
        { is_behind(x, segment, address, width) },
    );
    let section = sections.get(index)?;
    if holds(section, segment, address, width) {
        Some(index as u32 + 1)
    } else {
        None
    }
}

/// The word at an offset in the segment of this number, or why a record there is refused.
fn locate_in(
    sections: &[Section],
    number: u32,
    segment: &Segment<'_>,
    offset: u64,
    before: usize,
) -> Result<Location, PlaceFault>
    requires few { length sections.now < 2 ^ 32 }
    requires order { AllPairs spec.Precedes sections.now }
    ensures { result ≡ spec.unless (spec.fault_in sections.now number (Some segment.now) offset before) (spec.location_in sections.now number (Some segment.now) offset) }
{
    let address = segment.vmaddr.wrapping_add(offset);
    if let Some(fault) = segment_fault(segment, address) {
        return Err(fault);
    }
    let Some(section) = section_around(sections, number, address, WORD) else {
        return Err(PlaceFault::OutsideSection);
    };
    match word_fault(address, before) {
        Some(fault) => Err(fault),
        None => Ok(Location {
            segment: number,
            section,
            address,
        }),
    }
}

/// The word at an offset in the segment that is set, or why a record there is refused, after so many of
/// the stream.
pub fn locate(
    image: &Image<'_>,
    segment: Option<u32>,
    offset: u64,
    before: usize,
) -> Result<Location, PlaceFault>
    ensures { result ≡ spec.placed image.now segment offset before }
{
    image.facts();
    let Some(number) = segment else {
        return Err(PlaceFault::OutsideSegment);
    };
    match image.segments.get(number as usize) {
        Some(inside) => locate_in(&image.sections, number, inside, offset, before),
        None => Err(PlaceFault::OutsideSegment),
    }
}
