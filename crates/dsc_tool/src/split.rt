// The words behind a command's name, taken apart by `clap`.
ghost use Rattle.std.specs.Prelude.{◌≡◌, IfOk, IfErr, map, option_map, string_bytes, false, codes, unwrap_or, []};
ghost use Rattle.clap.specs.Matches.{found_of};
ghost use Rattle.clap.specs.Walk.{all_of, rows_of};
ghost use Rattle.clap.specs.Words.{app_of, kind_of, rule_of};
ghost use Rattle.dsc_tool.specs.ClapCommand.{words_app, option_app, value_rule, HasParts, IsMatched, IsParseFault};
ghost use Rattle.dsc_tool.specs.WordParts.{parts};
ghost use Rattle.dsc_tool.specs.Words.{IsWordsFault};

use crate::command::WordsFault;
use clap::error::ErrorKind;
use clap::{Arg, ArgAction, ArgMatches, Command, Error};
use std::alloc::{AllocError, Global};

/// The value of a command's option, where it is given, and the plain words in their order.
#[derive(Drop)]
pub struct Split<'a> {
    pub value: Option<&'a str>,
    pub plain: Vec<&'a str>,
}

/// Takes apart the words behind a command's name. The command has the option of this name, told without
/// its dashes, or none.
///
/// `BadWords` comes exactly where a word before `--` is another option, or the option lacks its value, has
/// one that looks like an option, or is given twice.
pub(crate) fn split_words<'a>(
    alloc: Global,
    long: Option<&'a str>,
    words: &'a [String],
) -> Result<Split<'a>, WordsFault>
    ensures parts { IfOk result (HasParts (parts (option_map (λ l. l.now) long.entry) false (map string_bytes words.entry.now))) }
    ensures cause { IfErr result (IsWordsFault (parts (option_map (λ l. l.now) long.entry) false (map string_bytes words.entry.now))) }
{
    let command = words_command(alloc, long)?;
    match command.try_get_matches_from(words) {
        Ok(matches) => Ok(matched_parts(alloc, &matches)?),
        Err(error) => Err(parse_fault(&error)),
    }
}

/// A command that takes any number of plain words and, where there is an option of this name, its value.
fn words_command<'a>(alloc: Global, long: Option<&'a str>) -> Result<Command<'a>, AllocError>
    ensures { IfOk result (λ c. app_of c ≡ words_app (option_map (λ l. l.now) long.entry)) }
{
    let plain = Arg::new(alloc, "plain").action(ArgAction::Append);
    option_command(alloc, long)?.arg(plain)
}

fn option_command<'a>(alloc: Global, long: Option<&'a str>) -> Result<Command<'a>, AllocError>
    ensures { IfOk result (λ c. app_of c ≡ option_app (option_map (λ l. l.now) long.entry)) }
{
    let bare = Command::new(alloc, "dsc")
        .no_binary_name(true)
        .disable_help_flag(true);
    match long {
        Some(long) => bare.arg(value_arg(alloc, long)),
        None => Ok(bare),
    }
}

fn value_arg<'a>(alloc: Global, long: &'a str) -> Arg<'a>
    ensures rule { rule_of result ≡ value_rule long.entry.now }
    ensures local { result.global ≡ false }
{
    Arg::new(alloc, "value").long(long).action(ArgAction::Set)
}

fn parse_fault(error: &Error) -> WordsFault
    ensures { IsParseFault (kind_of error.now) result }
{
    match error.kind() {
        ErrorKind::OutOfMemory => WordsFault::Memory,
        _ => WordsFault::BadWords,
    }
}

/// What a parse found.
fn matched_parts<'a>(alloc: Global, matches: &ArgMatches<'a>) -> Result<Split<'a>, AllocError>
    ensures { IfOk result (IsMatched matches.now) }
{
    Ok(Split {
        value: matches.get_str("value"),
        plain: plain_words(alloc, matches)?,
    })
}

fn plain_words<'a>(alloc: Global, matches: &ArgMatches<'a>) -> Result<Vec<&'a str>, AllocError>
    ensures { IfOk result (λ v. map (λ w. w.now) v.items ≡ unwrap_or (all_of (codes "plain") (rows_of (found_of matches.now))) []) }
{
    match matches.get_strs("plain") {
        Some(words) => Vec::from_slice(alloc, words),
        None => Ok(Vec::new(alloc)),
    }
}
