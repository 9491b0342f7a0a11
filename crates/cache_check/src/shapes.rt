// The shapes of images.
ghost use Rattle.std.specs.Prelude.{◌≡◌, ◌<◌, ◌^◌, ◌++◌, ◌∷◌, [], ℕ, IfOk, OnOk, length, filter, nat_eq, not};
ghost use Rattle.std.specs.List.{flat_map};
ghost use Rattle.dsc_base.specs.Numbers.{big_number};
ghost use Rattle.macho_image.specs.Rules.{is_linkedit_segment};
ghost use Rattle.load_model.specs.Corresponds as spec;

use crate::plain::are_bytes;
use byteorder::{BigEndian, ByteOrder};
use dsc_base::NoMemory;
use macho_image::{Image, Section, Segment};
use std::alloc::Global;

/// A name of a segment or of a section as a number, its first byte the highest.
fn name_number(name: [u8; 16]) -> u128
    ensures { result ≡ big_number 16 name }
{
    BigEndian::read_u128(&name)
}

/// Appends three numbers.
fn push_three(numbers: &mut Vec<u128>, three: (u128, u128, u128)) -> Result<(), NoMemory>
    ensures { OnOk result (numbers.new.items ≡ numbers.old.items ++ three.0 ∷ three.1 ∷ three.2 ∷ []) }
{
    numbers.push(three.0)?;
    numbers.push(three.1)?;
    numbers.push(three.2)?;
    Ok(())
}

/// Appends the shape of a section of a segment.
fn push_section(
    numbers: &mut Vec<u128>,
    segment: &Segment<'_>,
    section: &Section,
) -> Result<(), NoMemory>
    ensures { OnOk result (numbers.new.items ≡ numbers.old.items ++ spec.section_shape segment.now section.now) }
{
    let distance = section.addr.wrapping_sub(segment.vmaddr);
    let name = name_number(section.name);
    push_three(
        numbers,
        (name, u128::from(distance), u128::from(section.size)),
    )
}

/// How many sections a segment has, by its number.
fn count_sections(sections: &[Section], number: usize) -> usize
    ensures { result ≡ length (filter (λ s. nat_eq s.segment number) sections.now) }
{
    sections
        .iter()
        .filter(|section| section.segment as usize == number)
        .count()
}

/// Appends the shape of a segment without its sections, of which there are so many.
fn push_fields(numbers: &mut Vec<u128>, segment: &Segment<'_>, count: usize) -> Result<(), NoMemory>
    ensures { OnOk result (numbers.new.items ≡ numbers.old.items ++ (big_number 16 segment.now.name ∷ segment.now.vmsize ∷ segment.now.initprot ∷ count ∷ [])) }
{
    let name = name_number(segment.name);
    push_three(
        numbers,
        (
            name,
            u128::from(segment.vmsize),
            u128::from(segment.initprot),
        ),
    )?;
    numbers.push(count as u128)?;
    Ok(())
}

/// Appends the shapes of the sections of a segment, by its number.
fn push_sections(
    numbers: &mut Vec<u128>,
    segment: &Segment<'_>,
    number: usize,
    sections: &[Section],
) -> Result<(), NoMemory>
    ensures { OnOk result (numbers.new.items ≡ numbers.old.items ++ flat_map (spec.section_shape segment.now) (filter (λ s. nat_eq s.segment number) sections.now)) }
{
    for section in sections {
        if section.segment as usize == number {
            push_section(numbers, segment, section)?;
        }
    }
    Ok(())
}

/// Appends the shape of a segment, by its number.
fn push_segment(
    numbers: &mut Vec<u128>,
    segment: &Segment<'_>,
    number: usize,
    sections: &[Section],
) -> Result<(), NoMemory>
    ensures { OnOk result (numbers.new.items ≡ numbers.old.items ++ spec.segment_shape segment.now (filter (λ s. nat_eq s.segment number) sections.now)) }
{
    push_fields(numbers, segment, count_sections(sections, number))?;
    push_sections(numbers, segment, number, sections)
}

/// How many segments there are besides `__LINKEDIT`.
fn count_segments(segments: &[Segment<'_>]) -> usize
    ensures { result ≡ length (filter (λ s. not (is_linkedit_segment s)) segments.now) }
{
    segments
        .iter()
        .filter(|segment| !segment.is_linkedit())
        .count()
}

/// The shape of an image as a list of numbers: how many segments it has besides `__LINKEDIT`; for each of
/// them its name, size, protection and number of sections; and for each of its sections the name, the distance
/// from its segment's start, and the size.
#[tactic(auto, unfolding(load_model::specs::Corresponds::shape_of))]
pub(crate) fn shape_of(alloc: Global, image: &Image<'_>) -> Result<Vec<u128>, NoMemory>
    ensures shape { IfOk result (λ v. v.items ≡ spec.shape_of image.now) }
    ensures few { IfOk result (λ v. length v.items < 2 ^ 32) }
{
    image.facts();
    are_bytes(image.header);
    let mut numbers = Vec::new(alloc);
    numbers.push(count_segments(&image.segments) as u128)?;
    for (number, segment) in image.segments.iter().enumerate() {
        if !segment.is_linkedit() {
            push_segment(&mut numbers, segment, number, &image.sections)?;
        }
    }
    Ok(numbers)
}
