// Reading an image whole.
ghost use Rattle.std.specs.Prelude.{◌≡◌, ◌<◌, ◌^◌, None, Some, length, IfOk, IfErr};
ghost use Rattle.dsc_base.specs.declared.fault.Fault.TheVariants as faults;
ghost use Rattle.macho_image.specs.Macho as spec;
ghost use Rattle.macho_image.specs.declared.form.Form.TheVariants.{Standalone};
ghost use Rattle.macho_image.specs.Breaks.{image_break, image_at, load_break, IsSound};
ghost use Rattle.dsc_base.specs.Refusals.{Refuses};

use crate::bytes::number32;
use crate::command::Command;
use crate::contents::{dependencies, sections, segments};
use crate::form::Form;
use crate::format::{HEADER_SIZEOFCMDS, SIZE_OF_HEADER};
use crate::header::{header_in, read_header, refuse};
use crate::image::Image;
use crate::kinds::check_kinds;
use crate::names::check_names;
use crate::numbers::{LC_DYSYMTAB, LC_ID_DYLIB, LC_UUID};
use crate::parts::{command_of, dyld_info_of, groups, install_name, streams, uuid};
use crate::protection::check_sections;
use crate::ranges::linkedit_range;
use crate::segment::{SegmentCommand, read_segments};
use crate::shape::segment_shape;
use dsc_base::{Fault, Rule};
use std::alloc::Global;

/// The image that the commands of a header spell, which breaks no rule.
#[tactic(auto, unfolding(crate::specs::Macho::image_from))]
fn make_image<'a>(
    alloc: Global,
    bytes: &'a [u8],
    header: &'a [u8],
    commands: &[Command<'a>],
    loads: &[SegmentCommand],
) -> Result<Image<'a>, Fault>
    requires commands { commands.now ≡ spec.loads_of header.now }
    requires segments { loads.now ≡ spec.segment_loads commands.now }
    requires few { length loads.now < 2 ^ 32 }
    requires sound { IsSound (spec.image_from bytes.now header.now) }
    ensures found { IfOk result (λ image. image ≡ spec.image_from bytes.entry.now header.entry.now) }
    ensures cause { IfErr result (λ e. e ≡ faults.Memory) }
{
    let segments = segments(alloc, bytes, loads)?;
    let sections = sections(alloc, loads)?;
    let dependencies = dependencies(alloc, commands)?;
    Ok(Image {
        install_name: install_name(command_of(commands, LC_ID_DYLIB)),
        segments,
        sections,
        dependencies,
        streams: streams(bytes, commands),
        groups: groups(command_of(commands, LC_DYSYMTAB)),
        uuid: uuid(command_of(commands, LC_UUID)),
        has_dyld_info: dyld_info_of(commands).is_some(),
        header,
    })
}

/// The rules on segments, sections, names and parts of the linkedit, in a file of so many bytes.
#[tactic(auto, unfolding(crate::specs::Breaks::load_break))]
fn check_loads(
    alloc: Global,
    commands: &[Command<'_>],
    loads: &[SegmentCommand],
    header_size: u64,
    len: u64,
    header_at: u64,
) -> Result<(), Fault>
    ensures { Refuses (load_break header_size len header_at loads.now commands.now) result }
{
    let place = segment_shape(alloc, loads, header_size, len, header_at)?;
    refuse(Rule::SegmentShape, place)?;
    check_sections(loads, commands, header_size)?;
    check_names(commands)?;
    refuse(Rule::LinkeditRange, linkedit_range(loads, commands))
}

/// The image that the bytes spell with its header at a place, in one of the two forms. A file of its own,
/// or its slice, has its header at 0; in a cache, file offsets count from the start of the bytes. The format is that
/// of `mach-o/loader.h`.
///
/// Refuses the first of the rules from `NotMachO` to `LinkeditRange`, but for `NoSlice`, that the image
/// breaks, at the least place, counted from the header, at which it breaks it.
pub fn read_image<'a>(
    alloc: Global,
    bytes: &'a [u8],
    header_at: u64,
    form: Form,
) -> Result<Image<'a>, Fault>
    requires { form ≡ Standalone → header_at ≡ 0 }
    ensures image { IfOk result (λ image. image_at form bytes.entry.now header_at ≡ Some image) }
    ensures cause { Refuses (image_break form bytes.entry.now header_at) result }
{
    let header = header_in(bytes, header_at);
    let commands = read_header(alloc, header, form)?;
    check_kinds(&commands)?;
    let loads = read_segments(alloc, &commands)?;
    let size = SIZE_OF_HEADER as u64 + u64::from(number32(header, HEADER_SIZEOFCMDS));
    check_loads(
        alloc,
        &commands,
        &loads,
        size,
        bytes.len() as u64,
        header_at,
    )?;
    let image = make_image(alloc, bytes, header, &commands, &loads)?;
    Ok(image)
}
