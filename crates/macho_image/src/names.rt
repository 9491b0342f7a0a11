// Names of dylibs, and the rules on them.
ghost use Rattle.std.specs.Prelude.{◌≡◌, ◌≤◌, ◌&&◌, not, nat_eq, length, position};
ghost use Rattle.std.specs.List.{before_first, list_all, slice_split};
ghost use Rattle.macho_image.specs.Macho as spec;
ghost use Rattle.macho_image.specs.Rules as rules;
ghost use Rattle.macho_image.specs.Breaks.{name_break};
ghost use Rattle.dsc_base.specs.Refusals.{Refuses};

use crate::bytes::{behind, front, number32};
use crate::command::Command;
use crate::format::DYLIB_NAME_OFFSET;
use crate::header::refuse;
use crate::numbers::{LC_ID_DYLIB, is_dylib};
use dsc_base::{Fault, Rule, is_plain_text};

fn nul_at(bytes: &[u8]) -> Option<usize>
    ensures { result ≡ position (λ x. nat_eq x 0) bytes.now }
{
    bytes.iter().position(|x| *x == 0)
}

/// The bytes before the first NUL, or all where there is none.
fn before_nul<'a>(bytes: &'a [u8]) -> &'a [u8]
    ensures { result.now ≡ before_first (λ x. nat_eq x 0) bytes.entry.now }
{
    match nul_at(bytes) {
        Some(len) => front(bytes, len as u64),
        None => bytes,
    }
}

/// The name that a dylib command spells.
#[tactic(auto, unfolding(crate::specs::Macho::dylib_name))]
pub(crate) fn dylib_name<'a>(bytes: &'a [u8]) -> &'a [u8]
    requires { 24 ≤ length bytes.now }
    ensures { result.now ≡ spec.dylib_name bytes.entry.now }
{
    let offset = number32(bytes, DYLIB_NAME_OFFSET);
    before_nul(behind(bytes, u64::from(offset)))
}

fn is_plain_name(bytes: &[u8]) -> bool
    requires { 24 ≤ length bytes.now }
    ensures { result ≡ rules.is_plain_name bytes.now }
{
    let offset = number32(bytes, DYLIB_NAME_OFFSET);
    let name = dylib_name(bytes);
    offset >= 24
        && u64::from(offset) + (name.len() as u64) < bytes.len() as u64
        && is_plain_text(name)
}

fn has_bad_name(command: &Command<'_>) -> bool
    ensures { result ≡ (spec.is_dylib (spec.number_of command.now.bytes) && not (rules.is_plain_name command.now.bytes)) }
{
    is_dylib(command.number) && !is_plain_name(command.bytes)
}

fn name_text(commands: &[Command<'_>]) -> Option<u64>
    ensures { result ≡ rules.breaks_name_text commands.now }
{
    commands.iter().find(|c| has_bad_name(c)).map(|c| c.at)
}

fn is_safe_part(part: &[u8]) -> bool
    ensures { result ≡ rules.is_safe_part part.now }
{
    !(part.is_empty() || part == b".".as_slice() || part == b"..".as_slice())
}

fn has_safe_parts(path: &[u8]) -> bool
    ensures { result ≡ list_all rules.is_safe_part (slice_split (λ y. nat_eq y 0x2F) path.now) }
{
    path.split(|x| *x == b'/').all(|part| is_safe_part(part))
}

fn is_safe_path(path: &[u8]) -> bool
    ensures { result ≡ rules.is_safe_path path.now }
{
    match path {
        [first, rest @ ..] => *first == b'/' && has_safe_parts(rest),
        [] => false,
    }
}

fn has_unsafe_name(command: &Command<'_>) -> bool
    ensures { result ≡ (spec.is_install_name (spec.number_of command.now.bytes) && not (rules.is_safe_path (spec.dylib_name command.now.bytes))) }
{
    command.number == LC_ID_DYLIB && !is_safe_path(dylib_name(command.bytes))
}

fn unsafe_name(commands: &[Command<'_>]) -> Option<u64>
    ensures { result ≡ rules.breaks_unsafe_name commands.now }
{
    commands.iter().find(|c| has_unsafe_name(c)).map(|c| c.at)
}

/// Refuses a dylib name that isn't plain text, and an install name that isn't a safe absolute path.
#[tactic(auto, unfolding(crate::specs::Breaks::name_break))]
pub(crate) fn check_names(commands: &[Command<'_>]) -> Result<(), Fault>
    ensures { Refuses (name_break commands.now) result }
{
    refuse(Rule::NameText, name_text(commands))?;
    refuse(Rule::UnsafeName, unsafe_name(commands))
}
