// The references of a file that are no pointers, and where they lead.
ghost use Rattle.std.specs.Prelude.{◌≡◌, not, slice_get};
ghost use Rattle.macho_image.specs.Segments.{start_of, number_of, header_address};
ghost use Rattle.split_info.specs.References.{width_of};
ghost use Rattle.split_info.specs.Overlap.{is_pointer};
ghost use Rattle.prebind.specs.Numbers.{led_to};
ghost use Rattle.prebind.specs.Targets.{reference_number, reference_target};
ghost use Rattle.prebind.specs.Words.{reference_location, is_no_pointer};

use crate::words::extended;
use macho_image::{Image, Location, Segment, half_at_address, number_at_address, section_around};
use prebind::WordTarget;
use split_info::{RefKind, Reference};

/// Whether a reference is no pointer.
pub(crate) fn is_no_pointer(reference: &Reference) -> bool
    ensures { result ≡ is_no_pointer reference.now }
{
    !matches!(reference.kind, RefKind::Pointer64)
}

/// The place of a reference, in the section of its segment that holds its bytes.
pub(crate) fn reference_location(image: &Image<'_>, reference: &Reference) -> Location
    ensures { result ≡ reference_location image.now.sections reference.now }
{
    image.facts();
    let width = reference.kind.width();
    let section = section_around(
        &image.sections,
        reference.from_segment,
        reference.from,
        width,
    );
    Location {
        segment: reference.from_segment,
        section: section.unwrap_or(0),
        address: reference.from,
    }
}

/// The number that stands at an address of a segment, in as many bytes as a kind of reference has.
pub(crate) fn number_of(segment: &Segment<'_>, kind: RefKind, address: u64) -> u64
    ensures { result ≡ number_of (width_of kind) segment.now address }
{
    match kind {
        RefKind::Pointer64 | RefKind::Delta64 => number_at_address(segment, address),
        RefKind::Delta32 | RefKind::ImageOff32 => u64::from(half_at_address(segment, address)),
    }
}

/// The number of a reference.
fn reference_number(segments: &[Segment<'_>], reference: &Reference) -> u64
    ensures { result ≡ reference_number segments.now reference.now }
{
    match segments.get(reference.from_segment as usize) {
        Some(segment) => number_of(segment, reference.kind, reference.from),
        None => 0,
    }
}

/// The address to which a number leads from a place, in an image whose header is at another.
#[tactic(auto, unfolding(prebind::specs::Numbers::led_to))]
fn led_to(kind: RefKind, location: u64, header: u64, number: u64) -> u64
    ensures { result ≡ led_to kind location header number }
{
    match kind {
        RefKind::Pointer64 => number,
        RefKind::Delta32 => location.wrapping_add(extended(number)),
        RefKind::Delta64 => location.wrapping_add(number),
        RefKind::ImageOff32 => header.wrapping_add(number),
    }
}

/// Where a segment starts, and 0 where there is none.
fn start_of(segments: &[Segment<'_>], number: u32) -> u64
    ensures { result ≡ start_of (slice_get segments.now number) }
{
    match segments.get(number as usize) {
        Some(segment) => segment.vmaddr,
        None => 0,
    }
}

/// Where a reference leads, in an image of a number whose header is at an address.
#[tactic(auto, unfolding(macho_image::specs::Places::above))]
pub(crate) fn reference_target(
    number: u32,
    image: &Image<'_>,
    header: u64,
    reference: &Reference,
) -> WordTarget
    requires { header ≡ header_address image.now.segments }
    ensures { result ≡ reference_target number image.now.segments reference.now }
{
    let count = reference_number(&image.segments, reference);
    let address = led_to(reference.kind, reference.from, header, count);
    WordTarget::Place {
        image: number,
        segment: reference.to_segment,
        distance: address.wrapping_sub(start_of(&image.segments, reference.to_segment)),
    }
}
