// The segments, sections and dependencies of an image, made from its commands.
ghost use Rattle.std.specs.Prelude.{◌≡◌, ◌+◌, ◌<◌, ◌^◌, ◌++◌, length, map, option_map, IfOk, IfErr};
ghost use Rattle.std.specs.List.{filter_map};
ghost use Rattle.dsc_base.specs.declared.fault.Fault.TheVariants as faults;
ghost use Rattle.macho_image.specs.Macho as spec;

use crate::bytes::{behind, front};
use crate::command::Command;
use crate::image::{Dependency, Segment};
use crate::names::dylib_name;
use crate::numbers::link_kind;
use crate::section::{Section, SectionFields};
use crate::segment::SegmentCommand;
use dsc_base::Fault;
use std::alloc::Global;

#[tactic(auto, unfolding(crate::specs::Macho::segment_of))]
fn segment<'a>(bytes: &'a [u8], command: &SegmentCommand) -> Segment<'a>
    ensures { result ≡ spec.segment_of bytes.entry.now command.now }
{
    Segment {
        name: command.name,
        vmaddr: command.vmaddr,
        vmsize: command.vmsize,
        fileoff: command.fileoff,
        filesize: command.filesize,
        maxprot: command.maxprot,
        initprot: command.initprot,
        flags: command.flags,
        bytes: front(behind(bytes, command.fileoff), command.filesize),
    }
}

/// The segments with the parts of the file that they map.
pub(crate) fn segments<'a>(
    alloc: Global,
    bytes: &'a [u8],
    commands: &[SegmentCommand],
) -> Result<Vec<Segment<'a>>, Fault>
    ensures found { IfOk result (λ v. v.items ≡ map (spec.segment_of bytes.entry.now) commands.now) }
    ensures cause { IfErr result (λ e. e ≡ faults.Memory) }
{
    let mut segments = Vec::with_capacity(alloc, commands.len())?;
    for command in commands {
        segments.push(segment(bytes, command))?;
    }
    Ok(segments)
}

#[tactic(auto, unfolding(crate::specs::Macho::section_of))]
fn section(fields: &SectionFields, segment: u32) -> Section
    ensures { result ≡ spec.section_of segment fields.now }
{
    Section {
        name: fields.name,
        segment_name: fields.segment_name,
        segment,
        addr: fields.addr,
        size: fields.size,
        flags: fields.flags,
    }
}

fn append_sections(
    sections: &mut Vec<Section>,
    segment: u32,
    fields: &[SectionFields],
) -> Result<(), Fault>
    ensures found { IfOk result (λ _. sections.new.items ≡ sections.old.items ++ map (spec.section_of segment) fields.now) }
    ensures cause { IfErr result (λ e. e ≡ faults.Memory) }
{
    for section_fields in fields {
        sections.push(section(section_fields, segment))?;
    }
    Ok(())
}

/// The sections of all segments, in command order.
pub(crate) fn sections(alloc: Global, commands: &[SegmentCommand]) -> Result<Vec<Section>, Fault>
    requires { length commands.now < 2 ^ 32 }
    ensures found { IfOk result (λ v. v.items ≡ spec.sections_from 0 commands.now) }
    ensures cause { IfErr result (λ e. e ≡ faults.Memory) }
{
    let mut sections = Vec::new(alloc);
    for (segment, command) in commands.iter().enumerate() {
        append_sections(&mut sections, segment as u32, &command.sections)?;
    }
    Ok(sections)
}

fn dependency<'a>(command: &Command<'a>) -> Option<Dependency<'a>>
    ensures { result ≡ spec.dependency_of command.now.bytes }
{
    let kind = link_kind(command.number)?;
    let name = dylib_name(command.bytes);
    Some(Dependency { kind, name })
}

/// The dylibs that the commands name, in command order.
pub(crate) fn dependencies<'a>(
    alloc: Global,
    commands: &[Command<'a>],
) -> Result<Vec<Dependency<'a>>, Fault>
    ensures found { IfOk result (λ v. v.items ≡ filter_map spec.dependency_of (spec.pieces_of commands.now)) }
    ensures cause { IfErr result (λ e. e ≡ faults.Memory) }
{
    let mut dependencies = Vec::new(alloc);
    for command in commands {
        if let Some(needed) = dependency(command) {
            dependencies.push(needed)?;
        }
    }
    Ok(dependencies)
}
