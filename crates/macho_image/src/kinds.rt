// The rules on which commands stand in a header.
ghost use Rattle.std.specs.Prelude.{◌≡◌};
ghost use Rattle.std.specs.List.{list_any};
ghost use Rattle.macho_image.specs.Rules.{breaks_unknown_command, breaks_command_twice, breaks_no_install_name, is_of_kind, second_of};
ghost use Rattle.dsc_base.specs.Refusals.{least, Refuses};
ghost use Rattle.macho_image.specs.Macho.{is_install_name, number_of};
ghost use Rattle.macho_image.specs.Breaks.{command_break};

use crate::command::Command;
use crate::header::refuse;
use crate::numbers::{
    LC_CODE_SIGNATURE, LC_DATA_IN_CODE, LC_DYLD_INFO, LC_DYLD_INFO_ONLY, LC_DYLIB_CODE_SIGN_DRS,
    LC_DYSYMTAB, LC_FUNCTION_STARTS, LC_ID_DYLIB, LC_SEGMENT_SPLIT_INFO, LC_SYMTAB, LC_UUID,
    is_known,
};
use dsc_base::{Fault, Rule};

/// The kinds of which a header has one command at most, each by its numbers.
const ONCE: [(u32, u32); 10] = [
    (LC_ID_DYLIB, LC_ID_DYLIB),
    (LC_UUID, LC_UUID),
    (LC_SYMTAB, LC_SYMTAB),
    (LC_DYSYMTAB, LC_DYSYMTAB),
    (LC_DYLD_INFO, LC_DYLD_INFO_ONLY),
    (LC_SEGMENT_SPLIT_INFO, LC_SEGMENT_SPLIT_INFO),
    (LC_FUNCTION_STARTS, LC_FUNCTION_STARTS),
    (LC_DATA_IN_CODE, LC_DATA_IN_CODE),
    (LC_CODE_SIGNATURE, LC_CODE_SIGNATURE),
    (LC_DYLIB_CODE_SIGN_DRS, LC_DYLIB_CODE_SIGN_DRS),
];

fn unknown_command(commands: &[Command<'_>]) -> Option<u64>
    ensures { result ≡ breaks_unknown_command commands.now }
{
    commands.iter().find(|c| !is_known(c.number)).map(|c| c.at)
}

fn has_install_name(commands: &[Command<'_>]) -> bool
    ensures { result ≡ list_any (λ l. is_install_name (number_of l.bytes)) commands.now }
{
    commands.iter().any(|c| c.number == LC_ID_DYLIB)
}

fn no_install_name(commands: &[Command<'_>]) -> Option<u64>
    ensures { result ≡ breaks_no_install_name commands.now }
{
    if has_install_name(commands) {
        None
    } else {
        Some(0)
    }
}

fn is_of_kind(command: &Command<'_>, kind: (u32, u32)) -> bool
    ensures { result ≡ is_of_kind kind (number_of command.now.bytes) }
{
    command.number == kind.0 || command.number == kind.1
}

/// Where the second command of a kind stands.
fn second_of(commands: &[Command<'_>], kind: (u32, u32)) -> Option<u64>
    ensures { result ≡ second_of commands.now kind }
{
    let mut seen = false;
    for command in commands {
        if is_of_kind(command, kind) {
            if seen {
                return Some(command.at);
            }
            seen = true;
        }
    }
    None
}

/// The lower of two places.
pub(crate) fn least(place: Option<u64>, other: Option<u64>) -> Option<u64>
    ensures { result ≡ least place other }
{
    match (place, other) {
        (Some(a), Some(b)) => Some(a.min(b)),
        (Some(a), None) => Some(a),
        (None, _) => other,
    }
}

fn command_twice(commands: &[Command<'_>]) -> Option<u64>
    ensures { result ≡ breaks_command_twice commands.now }
{
    let mut found = None;
    for kind in ONCE {
        found = least(found, second_of(commands, kind));
    }
    found
}

/// Refuses a command that isn't known, one that stands twice, and a header without an install name.
#[tactic(auto, unfolding(crate::specs::Breaks::command_break))]
pub(crate) fn check_kinds(commands: &[Command<'_>]) -> Result<(), Fault>
    ensures { Refuses (command_break commands.now) result }
{
    refuse(Rule::UnknownCommand, unknown_command(commands))?;
    refuse(Rule::CommandTwice, command_twice(commands))?;
    refuse(Rule::NoInstallName, no_install_name(commands))
}
