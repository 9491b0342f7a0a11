// The Mach-O header, and the rules on what it says of itself.
ghost use Rattle.std.specs.Prelude.{◌≡◌, ◌≤◌, length, IfOk, OnOk};
ghost use Rattle.macho_image.specs.Macho.{header_in, loads_of};
ghost use Rattle.macho_image.specs.Rules.{breaks_not_mach_o, breaks_wrong_kind, flags_fit};
ghost use Rattle.macho_image.specs.Breaks.{kind_break};
ghost use Rattle.dsc_base.specs.Refusals.{broken, Refuses};

use crate::Form;
use crate::bytes::{behind, front, number32};
use crate::command::{Command, read_commands};
use crate::format::{
    HEADER_CPUTYPE, HEADER_FILETYPE, HEADER_FLAGS, HEADER_MAGIC, HEADER_SIZEOFCMDS, SIZE_OF_HEADER,
};
use dsc_base::{Fault, Rule, Site, read_u32};
use std::alloc::Global;

const MH_MAGIC_64: u32 = 0xFEED_FACF;

pub(crate) const CPU_TYPE_X86_64: u32 = 0x0100_0007;

const MH_DYLIB: u32 = 6;

const MH_TWOLEVEL: u32 = 0x80;

const MH_DYLIB_IN_CACHE: u32 = 0x8000_0000;

/// The header at a place of the bytes with its commands, as far as the bytes go.
#[tactic(auto, unfolding(crate::specs::Macho::header_in))]
pub(crate) fn header_in<'a>(bytes: &'a [u8], at: u64) -> &'a [u8]
    ensures { result.now ≡ header_in bytes.entry.now at }
{
    let slice = behind(bytes, at);
    match read_u32(slice, HEADER_SIZEOFCMDS) {
        Some(size) => front(slice, SIZE_OF_HEADER as u64 + u64::from(size)),
        None => slice,
    }
}

/// The place of a magic that isn't there.
pub(crate) fn not_mach_o(header: &[u8]) -> Option<u64>
    ensures { result ≡ breaks_not_mach_o header.now }
{
    if header.len() < SIZE_OF_HEADER || number32(header, HEADER_MAGIC) != MH_MAGIC_64 {
        Some(0)
    } else {
        None
    }
}

fn has_good_flags(flags: u32, form: Form) -> bool
    ensures { result ≡ flags_fit form flags }
{
    // the highest bit of all
    let is_cached = flags >= MH_DYLIB_IN_CACHE;
    let is_two_level = flags / MH_TWOLEVEL % 2 == 1;
    match form {
        Form::Standalone => is_two_level && !is_cached,
        Form::Cached => is_two_level && is_cached,
    }
}

fn wrong_kind(header: &[u8], form: Form) -> Option<u64>
    requires { 32 ≤ length header.now }
    ensures { result ≡ breaks_wrong_kind form header.now }
{
    if number32(header, HEADER_CPUTYPE) != CPU_TYPE_X86_64 {
        Some(HEADER_CPUTYPE as u64)
    } else if number32(header, HEADER_FILETYPE) != MH_DYLIB {
        Some(HEADER_FILETYPE as u64)
    } else if !has_good_flags(number32(header, HEADER_FLAGS), form) {
        Some(HEADER_FLAGS as u64)
    } else {
        None
    }
}

/// Refuses a rule that is broken at a place.
pub(crate) fn refuse(rule: Rule, place: Option<u64>) -> Result<(), Fault>
    ensures { Refuses (broken rule place) result }
{
    match place {
        Some(at) => Err(Fault::Broken(Site { rule, at })),
        None => Ok(()),
    }
}

/// The commands of a header of the given form.
///
/// Refuses what isn't a dylib of this form, and misshapen commands.
#[tactic(auto, unfolding(crate::specs::Breaks::kind_break))]
pub(crate) fn read_header<'a>(
    alloc: Global,
    header: &'a [u8],
    form: Form,
) -> Result<Vec<Command<'a>>, Fault>
    ensures found { IfOk result (λ v. v.items ≡ loads_of header.entry.now) }
    ensures whole { OnOk result (32 ≤ length header.entry.now) }
    ensures cause { Refuses (kind_break form header.entry.now) result }
{
    refuse(Rule::NotMachO, not_mach_o(header))?;
    refuse(Rule::WrongKind, wrong_kind(header, form))?;
    let commands = read_commands(alloc, header)?;
    Ok(commands)
}
