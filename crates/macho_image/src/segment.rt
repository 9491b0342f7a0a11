// Segment commands with their sections.
ghost use Rattle.std.specs.Prelude.{◌≡◌, ◌≤◌, ◌*◌, length, true, IfOk, IfErr};
ghost use Rattle.dsc_base.specs.declared.fault.Fault.TheVariants as faults;
ghost use Rattle.macho_image.specs.Macho.{is_segment, number_of, section_fields, sections_in, segment_load, segment_loads};
ghost use Rattle.macho_image.specs.Rules.{is_text, is_linkedit};

use crate::bytes::{behind, number32, number64, sixteen};
use crate::command::Command;
use crate::format::{
    SECTION_ADDR, SECTION_FLAGS, SECTION_NRELOC, SECTION_OFFSET, SECTION_SECTNAME, SECTION_SEGNAME,
    SECTION_SIZE, SEGMENT_FILEOFF, SEGMENT_FILESIZE, SEGMENT_FLAGS, SEGMENT_INITPROT,
    SEGMENT_MAXPROT, SEGMENT_NSECTS, SEGMENT_SEGNAME, SEGMENT_VMADDR, SEGMENT_VMSIZE,
    SIZE_OF_SECTION, SIZE_OF_SEGMENT_COMMAND,
};
use crate::numbers::LC_SEGMENT_64;
use crate::section::SectionFields;
use dsc_base::Fault;
use std::alloc::Global;
use std::marker::Model;

/// A segment command: its offset from the start of the header, its length, its fields, and as many
/// sections as it has room for.
#[derive(Drop)]
pub(crate) struct SegmentCommand {
    pub at: u64,
    pub size: u64,
    pub name: [u8; 16],
    pub vmaddr: u64,
    pub vmsize: u64,
    pub fileoff: u64,
    pub filesize: u64,
    pub maxprot: u32,
    pub initprot: u32,
    pub nsects: u32,
    pub flags: u32,
    pub sections: Vec<SectionFields>,
}

impl Model for SegmentCommand {
    ghost use Rattle.macho_image.specs.Records.{SegmentLoad};

    ghost Value = { SegmentLoad };

    ghost view = { λ s. record { at = s.at; size = s.size; name = s.name; vmaddr = s.vmaddr; vmsize = s.vmsize; fileoff = s.fileoff; filesize = s.filesize; maxprot = s.maxprot; initprot = s.initprot; nsects = s.nsects; flags = s.flags; sections = s.sections.items } };
}

#[tactic(auto, unfolding(crate::specs::Macho::section_fields))]
fn section_fields(bytes: &[u8]) -> SectionFields
    requires { 80 ≤ length bytes.now }
    ensures { result ≡ section_fields bytes.now }
{
    SectionFields {
        name: sixteen(bytes, SECTION_SECTNAME),
        segment_name: sixteen(bytes, SECTION_SEGNAME),
        addr: number64(bytes, SECTION_ADDR),
        size: number64(bytes, SECTION_SIZE),
        offset: number32(bytes, SECTION_OFFSET),
        nreloc: number32(bytes, SECTION_NRELOC),
        flags: number32(bytes, SECTION_FLAGS),
    }
}

fn read_sections(alloc: Global, bytes: &[u8], count: usize) -> Result<Vec<SectionFields>, Fault>
    requires { 80 * count ≤ length bytes.now }
    ensures found { IfOk result (λ v. v.items ≡ sections_in count bytes.now) }
    ensures cause { IfErr result (λ e. e ≡ faults.Memory) }
{
    let mut sections = Vec::with_capacity(alloc, count)?;
    let mut rest = bytes;
    for _ in 0..count {
        sections.push(section_fields(rest))?;
        rest = behind(rest, SIZE_OF_SECTION as u64);
    }
    Ok(sections)
}

#[tactic(auto, unfolding(crate::specs::Macho::segment_load))]
fn read_segment(alloc: Global, command: &Command<'_>) -> Result<SegmentCommand, Fault>
    requires { is_segment (number_of command.now.bytes) ≡ true }
    ensures found { IfOk result (λ s. s ≡ segment_load command.now) }
    ensures cause { IfErr result (λ e. e ≡ faults.Memory) }
{
    let bytes = command.bytes;
    let sections = read_sections(
        alloc,
        behind(bytes, SIZE_OF_SEGMENT_COMMAND as u64),
        (bytes.len() - SIZE_OF_SEGMENT_COMMAND) / SIZE_OF_SECTION,
    )?;
    Ok(SegmentCommand {
        at: command.at,
        size: bytes.len() as u64,
        name: sixteen(bytes, SEGMENT_SEGNAME),
        vmaddr: number64(bytes, SEGMENT_VMADDR),
        vmsize: number64(bytes, SEGMENT_VMSIZE),
        fileoff: number64(bytes, SEGMENT_FILEOFF),
        filesize: number64(bytes, SEGMENT_FILESIZE),
        maxprot: number32(bytes, SEGMENT_MAXPROT),
        initprot: number32(bytes, SEGMENT_INITPROT),
        nsects: number32(bytes, SEGMENT_NSECTS),
        flags: number32(bytes, SEGMENT_FLAGS),
        sections,
    })
}

/// The segment commands, in command order.
pub(crate) fn read_segments(
    alloc: Global,
    commands: &[Command<'_>],
) -> Result<Vec<SegmentCommand>, Fault>
    ensures found { IfOk result (λ v. v.items ≡ segment_loads commands.now) }
    ensures cause { IfErr result (λ e. e ≡ faults.Memory) }
{
    let mut segments = Vec::new(alloc);
    for command in commands {
        if command.number == LC_SEGMENT_64 {
            segments.push(read_segment(alloc, command)?)?;
        }
    }
    Ok(segments)
}

pub(crate) const TEXT: [u8; 16] = *b"__TEXT\0\0\0\0\0\0\0\0\0\0";

pub(crate) const LINKEDIT: [u8; 16] = *b"__LINKEDIT\0\0\0\0\0\0";

pub(crate) fn is_text(segment: &SegmentCommand) -> bool
    ensures { result ≡ is_text segment.now }
{
    segment.name == TEXT
}

pub(crate) fn is_linkedit(segment: &SegmentCommand) -> bool
    ensures { result ≡ is_linkedit segment.now }
{
    segment.name == LINKEDIT
}
