// The references of an image in a cache that are no pointers: the numbers that lead to their targets.
ghost use Rattle.std.specs.Prelude.{◌≡◌, ◌<◌, ◌^◌, ◌++◌, ◌∷◌, [], not, position, IfOk};
ghost use Rattle.std.specs.List.{list_any};
ghost use Rattle.dsc_base.specs.Edits.{AllFit};
ghost use Rattle.dsc_base.specs.Refusals.{broken, first_break, Refuses};
ghost use Rattle.dsc_base.specs.declared.rule.Rule.TheVariants as rules;
ghost use Rattle.macho_image.specs.Places.{wrap};
ghost use Rattle.split_info.specs.References.{width_of};
ghost use Rattle.prebind.specs.Numbers as numbers;
ghost use Rattle.prebind.specs.Targets.{reference_number};
ghost use Rattle.prebind.specs.Words.{reference_word, is_no_pointer};
ghost use Rattle.ref_rewrite.specs.Moving as spec;
ghost use Rattle.ref_rewrite.specs.Breaks as breaks;
ghost use Rattle.ref_rewrite.specs.Steps as steps;

use crate::moving::Moving;
use dsc_base::{Edit, Fault, NoMemory, Rule, Site};
use macho_image::{Segment, half_at_address, number_at_address};
use split_info::{RefKind, Reference};

/// The number that a reference has in its file.
fn number_of(segments: &[Segment<'_>], reference: &Reference) -> u64
    ensures { result ≡ reference_number segments.now reference.now }
{
    match segments.get(reference.from_segment as usize) {
        Some(segment) => match reference.kind {
            RefKind::Delta32 | RefKind::ImageOff32 => {
                u64::from(half_at_address(segment, reference.from))
            }
            RefKind::Pointer64 | RefKind::Delta64 => number_at_address(segment, reference.from),
        },
        None => 0,
    }
}

/// A number of 4 bytes in two's complement as one of 8 bytes, modulo 2^64.
fn extended(number: u64) -> u64
    ensures { result ≡ wrap (numbers.extended number) }
{
    if number < 1 << 31 {
        number
    } else {
        number.wrapping_add(0xFFFF_FFFF_0000_0000)
    }
}

/// The address to which a number leads from a location, in an image with this header.
#[tactic(auto, unfolding(prebind::specs::Numbers::led_to))]
fn led_to(kind: RefKind, location: u64, header: u64, number: u64) -> u64
    ensures { result ≡ numbers.led_to kind location header number }
{
    match kind {
        RefKind::Pointer64 => number,
        RefKind::Delta32 => location.wrapping_add(extended(number)),
        RefKind::Delta64 => location.wrapping_add(number),
        RefKind::ImageOff32 => header.wrapping_add(number),
    }
}

/// What a word counts to an address.
#[tactic(auto, unfolding(prebind::specs::Numbers::counted_to, macho_image::specs::Places::above))]
fn counted_to(kind: RefKind, location: u64, header: u64, address: u64) -> u64
    ensures { result ≡ numbers.counted_to kind location header address }
{
    match kind {
        RefKind::Pointer64 => address,
        RefKind::Delta32 | RefKind::Delta64 => address.wrapping_sub(location),
        RefKind::ImageOff32 => address.wrapping_sub(header),
    }
}

/// Whether a word has bytes for a number.
#[tactic(auto, unfolding(prebind::specs::Numbers::fits))]
fn fits(kind: RefKind, number: u64) -> bool
    ensures { result ≡ numbers.fits kind number }
{
    match kind {
        RefKind::Delta32 => number < 1 << 31 || 0xFFFF_FFFF_8000_0000 <= number,
        RefKind::ImageOff32 => number < 1 << 32,
        RefKind::Pointer64 | RefKind::Delta64 => true,
    }
}

/// A number as far as the bytes of a word go.
#[tactic(auto, unfolding(prebind::specs::Numbers::cut_to))]
fn cut_to(kind: RefKind, number: u64) -> u64
    ensures value { result ≡ numbers.cut_to kind number }
    ensures fits { result < 256 ^ width_of kind }
{
    match kind {
        RefKind::Delta32 | RefKind::ImageOff32 => number % (1 << 32),
        RefKind::Pointer64 | RefKind::Delta64 => number,
    }
}

/// What a reference counts to its target in the cache.
#[tactic(auto, unfolding(crate::specs::Moving::new_starts))]
fn new_count(moving: &Moving<'_, '_>, reference: &Reference) -> u64
    requires { steps.IsMoving moving.now }
    ensures { result ≡ steps.new_count moving.now.layout.now moving.now.number moving.now.segments.now reference.now }
{
    let number = number_of(moving.segments, reference);
    let address = led_to(reference.kind, reference.from, moving.header, number);
    let distance = moving.distance(reference.to_segment, address);
    let target = moving
        .start(moving.number, reference.to_segment)
        .wrapping_add(distance);
    let location = moving.place(reference.from_segment, reference.from).address;
    counted_to(reference.kind, location, moving.new_header.address, target)
}

#[tactic(auto, unfolding(crate::specs::Moving::new_number, prebind::specs::Numbers::number_to, crate::specs::Moving::new_starts))]
fn reference_edit(moving: &Moving<'_, '_>, reference: &Reference, count: u64) -> Edit
    requires moving { steps.IsMoving moving.now }
    requires count { count ≡ steps.new_count moving.now.layout.now moving.now.number moving.now.segments.now reference.now }
    ensures fits { result.value < 256 ^ result.width }
    ensures edit { result ≡ spec.edit_of moving.now.layout.now moving.now.number moving.now.segments.now (reference_word moving.now.number [] moving.now.segments.now reference.now) }
{
    Edit {
        at: moving.place(reference.from_segment, reference.from).file,
        width: reference.kind.width() as u8,
        value: cut_to(reference.kind, count),
    }
}

fn is_pointer(reference: &Reference) -> bool
    ensures { result ≡ not (is_no_pointer reference.now) }
{
    matches!(reference.kind, RefKind::Pointer64)
}

/// Appends the edit of a reference that is no pointer. Answers whether it has no bytes for its new number.
fn push_reference(
    moving: &Moving<'_, '_>,
    reference: &Reference,
    edits: &mut Vec<Edit>,
) -> Result<bool, NoMemory>
    requires { steps.IsMoving moving.now }
    ensures edits { IfOk result (λ misfit. edits.new.items ≡ edits.old.items ++ steps.edits_of moving.now.layout.now moving.now.number moving.now.segments.now (reference.now ∷ [])) }
    ensures fit { IfOk result (λ misfit. AllFit edits.old.items → AllFit edits.new.items) }
    ensures misfits { IfOk result (λ misfit. misfit ≡ steps.misfits moving.now.layout.now moving.now.number moving.now.segments.now reference.now) }
{
    if is_pointer(reference) {
        return Ok(false);
    }
    let count = new_count(moving, reference);
    edits.push(reference_edit(moving, reference, count))?;
    Ok(!fits(reference.kind, count))
}

/// Appends the edits of the references that are no pointers, in reading order. Answers whether there is one
/// without bytes for its new number.
pub(crate) fn push_references(
    moving: &Moving<'_, '_>,
    references: &[Reference],
    edits: &mut Vec<Edit>,
) -> Result<bool, NoMemory>
    requires { steps.IsMoving moving.now }
    ensures edits { IfOk result (λ misfit. edits.new.items ≡ edits.old.items ++ steps.edits_of moving.now.layout.now moving.now.number moving.now.segments.now references.now) }
    ensures fit { IfOk result (λ misfit. AllFit edits.old.items → AllFit edits.new.items) }
    ensures misfits { IfOk result (λ misfit. misfit ≡ list_any (steps.misfits moving.now.layout.now moving.now.number moving.now.segments.now) references.now) }
{
    let mut misfit = false;
    for reference in references {
        let last = push_reference(moving, reference, edits)?;
        misfit = misfit || last;
    }
    Ok(misfit)
}

fn is_delta(kind: RefKind) -> bool
    ensures { result ≡ breaks.is_delta kind }
{
    matches!(kind, RefKind::Delta32)
}

fn is_offset(kind: RefKind) -> bool
    ensures { result ≡ breaks.is_offset kind }
{
    matches!(kind, RefKind::ImageOff32)
}

#[tactic(auto, unfolding(crate::specs::Moving::can_lead))]
fn is_delta_out(moving: &Moving<'_, '_>, reference: &Reference) -> bool
    requires { steps.IsMoving moving.now }
    ensures { result ≡ breaks.is_out_of_range breaks.is_delta moving.now.layout.now moving.now.number [] moving.now.segments.now reference.now }
{
    is_delta(reference.kind) && !fits(reference.kind, new_count(moving, reference))
}

#[tactic(auto, unfolding(crate::specs::Moving::can_lead))]
fn is_offset_out(moving: &Moving<'_, '_>, reference: &Reference) -> bool
    requires { steps.IsMoving moving.now }
    ensures { result ≡ breaks.is_out_of_range breaks.is_offset moving.now.layout.now moving.now.number [] moving.now.segments.now reference.now }
{
    is_offset(reference.kind) && !fits(reference.kind, new_count(moving, reference))
}

fn first_delta(moving: &Moving<'_, '_>, references: &[Reference]) -> Option<usize>
    requires { steps.IsMoving moving.now }
    ensures { result ≡ position (breaks.is_out_of_range breaks.is_delta moving.now.layout.now moving.now.number [] moving.now.segments.now) references.now }
{
    references.iter().position(|r| is_delta_out(moving, r))
}

fn first_offset(moving: &Moving<'_, '_>, references: &[Reference]) -> Option<usize>
    requires { steps.IsMoving moving.now }
    ensures { result ≡ position (breaks.is_out_of_range breaks.is_offset moving.now.layout.now moving.now.number [] moving.now.segments.now) references.now }
{
    references.iter().position(|r| is_offset_out(moving, r))
}

fn refused(rule: Rule, index: usize) -> Fault
    ensures { result ≡ Fault.Broken (record { rule = rule; at = index }) }
{
    Fault::Broken(Site {
        rule,
        at: index as u64,
    })
}

/// Refuses the first difference without bytes for its new number, and where there is none the first such
/// offset from the header; it is told whether there is one at all.
pub(crate) fn check_references(
    moving: &Moving<'_, '_>,
    references: &[Reference],
    misfit: bool,
) -> Result<(), Fault>
    requires moving { steps.IsMoving moving.now }
    requires misfit { misfit ≡ list_any (steps.misfits moving.now.layout.now moving.now.number moving.now.segments.now) references.now }
    ensures { Refuses (steps.references_break moving.now.layout.now moving.now.number [] moving.now.segments.now references.now) result }
{
    if !misfit {
        return Ok(());
    }
    if let Some(at) = first_delta(moving, references) {
        return Err(refused(Rule::DeltaOutOfRange, at));
    }
    match first_offset(moving, references) {
        Some(at) => Err(refused(Rule::OffsetOutOfRange, at)),
        None => Ok(()),
    }
}
