// The rules on segments' protections and on their sections.
ghost use Rattle.std.specs.Prelude.{◌≡◌, ◌&&◌, not, nat_eq};
ghost use Rattle.std.specs.List.{list_any};
ghost use Rattle.macho_image.specs.Rules as rules;
ghost use Rattle.macho_image.specs.Breaks.{section_break};
ghost use Rattle.dsc_base.specs.Refusals.{Refuses};

use crate::bytes::number32;
use crate::command::Command;
use crate::format::{DYSYMTAB_NEXTREL, DYSYMTAB_NLOCREL};
use crate::header::refuse;
use crate::kinds::least;
use crate::numbers::LC_DYSYMTAB;
use crate::section::SectionFields;
use crate::segment::{SegmentCommand, is_text};
use dsc_base::{Fault, Rule};

const SG_PROTECTED_VERSION_1: u32 = 8;

const S_ZEROFILL: u32 = 1;

const S_GB_ZEROFILL: u32 = 0xC;

const S_THREAD_LOCAL_ZEROFILL: u32 = 0x12;

const S_INTERPOSING: u32 = 0xD;

fn segment_prot(segments: &[SegmentCommand]) -> Option<u64>
    ensures { result ≡ rules.breaks_segment_prot segments.now }
{
    segments
        .iter()
        .find(|s| !matches!(s.initprot, 5 | 3 | 1) || s.flags / SG_PROTECTED_VERSION_1 % 2 == 1)
        .map(|s| s.at)
}

fn section_type(section: &SectionFields) -> u32
    ensures { result ≡ rules.section_type section.now }
{
    section.flags & 0xFF
}

/// Whether the flags of a section say that its bytes are zeros which aren't in the file: `S_ZEROFILL`, `S_GB_ZEROFILL` and
/// `S_THREAD_LOCAL_ZEROFILL` of `mach-o/loader.h`.
pub fn is_zero_fill(flags: u32) -> bool
    ensures { result ≡ rules.is_zero_fill flags }
{
    matches!(
        flags & 0xFF,
        S_ZEROFILL | S_GB_ZEROFILL | S_THREAD_LOCAL_ZEROFILL
    )
}

fn is_interposing(segment: &SegmentCommand) -> bool
    ensures { result ≡ list_any (λ x. nat_eq (rules.section_type x) 0xD) segment.now.sections }
{
    segment
        .sections
        .iter()
        .any(|x| section_type(x) == S_INTERPOSING)
}

fn interposing(segments: &[SegmentCommand]) -> Option<u64>
    ensures { result ≡ rules.breaks_interposing segments.now }
{
    segments.iter().find(|s| is_interposing(s)).map(|s| s.at)
}

fn is_relocated(segment: &SegmentCommand) -> bool
    ensures { result ≡ list_any (λ x. not (nat_eq x.nreloc 0)) segment.now.sections }
{
    segment.sections.iter().any(|x| x.nreloc != 0)
}

fn relocated_segment(segments: &[SegmentCommand]) -> Option<u64>
    ensures { result ≡ rules.first_segment (λ s. list_any (λ x. not (nat_eq x.nreloc 0)) s.sections) segments.now }
{
    segments.iter().find(|s| is_relocated(s)).map(|s| s.at)
}

/// Whether LC_DYSYMTAB counts external or local relocations.
fn names_relocations(command: &Command<'_>) -> bool
    ensures { result ≡ rules.names_relocations command.now }
{
    command.number == LC_DYSYMTAB
        && !(number32(command.bytes, DYSYMTAB_NEXTREL) == 0
            && number32(command.bytes, DYSYMTAB_NLOCREL) == 0)
}

fn relocating_table(commands: &[Command<'_>]) -> Option<u64>
    ensures { result ≡ rules.first_load rules.names_relocations commands.now }
{
    commands.iter().find(|c| names_relocations(c)).map(|c| c.at)
}

fn has_relocations(segments: &[SegmentCommand], commands: &[Command<'_>]) -> Option<u64>
    ensures { result ≡ rules.breaks_has_relocations segments.now commands.now }
{
    least(relocated_segment(segments), relocating_table(commands))
}

fn is_in_file_bytes(segment: &SegmentCommand, section: &SectionFields) -> bool
    ensures { result ≡ rules.is_in_file_bytes segment.now section.now }
{
    let distance = u128::from(section.addr.saturating_sub(segment.vmaddr));
    distance + u128::from(section.size) <= u128::from(segment.filesize)
        && u128::from(section.offset) == u128::from(segment.fileoff) + distance
}

/// Whether a section stands at or above the floor in a segment whose sections begin at `start`.
fn section_stands(
    segment: &SegmentCommand,
    start: u128,
    floor: u128,
    section: &SectionFields,
) -> bool
    ensures { result ≡ rules.section_stands segment.now start floor section.now }
{
    let addr = u128::from(section.addr);
    let end = addr + u128::from(section.size);
    start <= addr
        && floor <= addr
        && end <= u128::from(segment.vmaddr) + u128::from(segment.vmsize)
        && (section.size == 0 || is_zero_fill(section.flags) || is_in_file_bytes(segment, section))
}

/// The sections of a segment, each at or above the end of the one before it.
fn sections_stand(segment: &SegmentCommand, header_size: u64) -> bool
    ensures { result ≡ rules.sections_stand segment.now (rules.sections_start header_size segment.now) 0 segment.now.sections }
{
    let start = sections_start(segment, header_size);
    let mut floor = 0;
    for section in &segment.sections {
        if !section_stands(segment, start, floor, section) {
            return false;
        }
        floor = u128::from(section.addr) + u128::from(section.size);
    }
    true
}

/// The least address of a section: in `__TEXT` the header's end.
fn sections_start(segment: &SegmentCommand, header_size: u64) -> u128
    ensures { result ≡ rules.sections_start header_size segment.now }
{
    let start = u128::from(segment.vmaddr);
    if is_text(segment) {
        start + u128::from(header_size)
    } else {
        start
    }
}

fn fallen_section(segments: &[SegmentCommand], header_size: u64) -> Option<u64>
    ensures { result ≡ rules.first_segment (λ s. not (rules.sections_stand s (rules.sections_start header_size s) 0 s.sections)) segments.now }
{
    segments
        .iter()
        .find(|s| !sections_stand(s, header_size))
        .map(|s| s.at)
}

/// The first segment that has a 256th section.
fn crowded(segments: &[SegmentCommand]) -> Option<u64>
    ensures { result ≡ rules.first_crowded 0 segments.now }
{
    let mut left = 255;
    for segment in segments {
        let count = segment.sections.len();
        if count > left {
            return Some(segment.at);
        }
        left -= count;
    }
    None
}

fn section_shape(segments: &[SegmentCommand], header_size: u64) -> Option<u64>
    ensures { result ≡ rules.breaks_section_shape header_size segments.now }
{
    least(fallen_section(segments, header_size), crowded(segments))
}

/// Refuses protections, sections and relocations that this profile doesn't have.
#[tactic(auto, unfolding(crate::specs::Breaks::section_break))]
pub(crate) fn check_sections(
    segments: &[SegmentCommand],
    commands: &[Command<'_>],
    header_size: u64,
) -> Result<(), Fault>
    ensures { Refuses (section_break header_size segments.now commands.now) result }
{
    refuse(Rule::SegmentProt, segment_prot(segments))?;
    refuse(Rule::SectionShape, section_shape(segments, header_size))?;
    refuse(Rule::Interposing, interposing(segments))?;
    refuse(Rule::HasRelocations, has_relocations(segments, commands))
}
