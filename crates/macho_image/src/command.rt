// The load commands behind a Mach-O header, each with its offset from the start of the header.
ghost use Rattle.std.specs.Prelude.{◌≡◌, ◌≤◌, length, Some, None, IfOk, if◌then◌else◌};
ghost use Rattle.dsc_base.specs.declared.fault.Fault.TheVariants as faults;
ghost use Rattle.dsc_base.specs.declared.rule.Rule.TheVariants.{CommandShape};
ghost use Rattle.macho_image.specs.Macho.{loads_of, size_of};
ghost use Rattle.macho_image.specs.Rules.{begins_whole, breaks_command_shape};
ghost use Rattle.dsc_base.specs.Refusals.{broken, Refuses};

use crate::bytes::{behind, number32};
use crate::format::{
    COMMAND_CMD, COMMAND_CMDSIZE, HEADER_NCMDS, HEADER_SIZEOFCMDS, SIZE_OF_HEADER,
};
use crate::numbers::least_size;
use dsc_base::{Fault, Rule, Site};
use std::alloc::Global;
use std::marker::Model;

/// A load command: its offset in bytes from the start of the header, its number, and its bytes, which are
/// at least as many as its structure has.
#[derive(Drop)]
pub struct Command<'a> {
    pub at: u64,
    pub number: u32,
    pub bytes: &'a [u8],
}

impl<'a> Model for Command<'a> {
    ghost use Rattle.macho_image.specs.Records.{Load};
    ghost use Rattle.macho_image.specs.Whole.{IsWhole};

    ghost Value = { Load };

    ghost view = { λ c. record { at = c.at; bytes = c.bytes.now } };

    ghost invariant = { λ c. IsWhole c.number c.bytes.now };
}

/// The size of the whole command at the front of the bytes, or `None` where there is no such command.
#[tactic(auto, unfolding(crate::specs::Rules::begins_whole))]
fn whole_size(bytes: &[u8]) -> Option<usize>
    ensures { result ≡ (if begins_whole bytes.now then Some (size_of bytes.now) else None) }
{
    if bytes.len() < 8 {
        return None;
    }
    let size = number32(bytes, COMMAND_CMDSIZE) as usize;
    let is_whole = size >= 8
        && size % 8 == 0
        && size <= bytes.len()
        && least_size(number32(bytes, COMMAND_CMD)) as usize <= size;
    if is_whole { Some(size) } else { None }
}

/// The commands of a header.
///
/// Refuses the first that is misshapen, and commands that don't end where the header says.
pub(crate) fn read_commands<'a>(alloc: Global, header: &'a [u8]) -> Result<Vec<Command<'a>>, Fault>
    requires { 32 ≤ length header.now }
    ensures found { IfOk result (λ v. v.items ≡ loads_of header.entry.now) }
    ensures cause { Refuses (broken CommandShape (breaks_command_shape header.entry.now)) result }
{
    let size = SIZE_OF_HEADER as u64 + u64::from(number32(header, HEADER_SIZEOFCMDS));
    if (header.len() as u64) < size {
        return Err(misshapen(HEADER_SIZEOFCMDS as u64));
    }
    let count = number32(header, HEADER_NCMDS);
    let mut commands = Vec::new(alloc);
    let mut rest = behind(header, SIZE_OF_HEADER as u64);
    let mut at = SIZE_OF_HEADER as u64;
    for _ in 0..count {
        let Some(size) = whole_size(rest) else {
            return Err(misshapen(at));
        };
        let (bytes, later) = rest.split_at(size);
        commands.push(Command {
            at,
            number: number32(bytes, COMMAND_CMD),
            bytes,
        })?;
        at += size as u64;
        rest = later;
    }
    if !rest.is_empty() {
        return Err(misshapen(HEADER_SIZEOFCMDS as u64));
    }
    Ok(commands)
}

fn misshapen(at: u64) -> Fault
    ensures { result ≡ faults.Broken (record { rule = CommandShape; at = at }) }
{
    Fault::Broken(Site {
        rule: Rule::CommandShape,
        at,
    })
}
