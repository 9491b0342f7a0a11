// Where the sections stand from which references lead, and to which.
ghost use Rattle.std.specs.Prelude.{◌≡◌, ◌<◌, ◌+◌, ◌^◌, length};
ghost use Rattle.split_info.specs.References as spec;

use crate::{RefKind, Reference};
use macho_image::{Image, Section, Segment, text_number};

/// A section by its number, which is 0 for the Mach header: its segment, its address and its size.
#[derive(Clone, Copy)]
pub(crate) struct Extent {
    pub number: u32,
    pub segment: u32,
    pub address: u64,
    pub size: u64,
}

/// An offset in a section.
#[derive(Clone, Copy)]
pub(crate) struct Target {
    pub section: Extent,
    pub offset: u64,
}

fn section_numbered(sections: &[Section], number: u64) -> Option<Extent>
    requires { length sections.now < 2 ^ 32 }
    ensures { result ≡ spec.section_numbered sections.now number }
{
    let index = number.checked_sub(1)?;
    let section = sections.get(index as usize)?;
    Some(Extent {
        number: number as u32,
        segment: section.segment,
        address: section.addr,
        size: section.size,
    })
}

/// The section from which references lead, by its number from 1.
pub(crate) fn from_section(image: &Image<'_>, number: u64) -> Option<Extent>
    ensures { result ≡ spec.from_section image.now number }
{
    image.facts();
    section_numbered(&image.sections, number)
}

/// The Mach header, as a section that is all of a segment.
fn segment_section(segments: &[Segment<'_>], number: u32) -> Option<Extent>
    ensures { result ≡ spec.segment_section segments.now number }
{
    let text = segments.get(number as usize)?;
    Some(Extent {
        number: 0,
        segment: number,
        address: text.vmaddr,
        size: text.vmsize,
    })
}

fn header_section(image: &Image<'_>) -> Option<Extent>
    ensures { result ≡ spec.header_section image.now.segments }
{
    image.facts();
    let number = text_number(&image.segments)?;
    segment_section(&image.segments, number as u32)
}

/// The section to which references lead, by its number, which is 0 for the Mach header.
pub(crate) fn to_section(image: &Image<'_>, number: u64) -> Option<Extent>
    ensures { result ≡ spec.to_section image.now number }
{
    if number == 0 {
        header_section(image)
    } else {
        from_section(image, number)
    }
}

/// The place that is so far behind an earlier offset in a section.
pub(crate) fn target_in(section: Extent, sum: u64, delta: u64) -> Option<Target>
    ensures { result ≡ spec.target_in section (sum + delta) }
{
    let offset = sum.checked_add(delta)?;
    if offset <= section.size {
        Some(Target { section, offset })
    } else {
        None
    }
}

/// The reference that is so far behind an earlier offset in a section.
pub(crate) fn reference_in(
    kind: RefKind,
    from: Extent,
    target: Target,
    sum: u64,
    delta: u64,
) -> Option<Reference>
    ensures { result ≡ spec.reference_in kind from target (sum + delta) }
{
    let distance = sum.checked_add(delta)?;
    let room = from.size.checked_sub(kind.width())?;
    if distance > room {
        return None;
    }
    Some(Reference {
        kind,
        from: from.address.wrapping_add(distance),
        from_segment: from.segment,
        to_section: target.section.number,
        to_segment: target.section.segment,
        to_offset: target.offset,
    })
}
