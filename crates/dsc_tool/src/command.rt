// The words of the command line, and the command that they spell.
ghost use Rattle.std.specs.Prelude.{◌≡◌, IfOk, IfErr, Some, None, map, option_and_then, option_map, string_bytes, codes, false};
ghost use Rattle.dsc_tool.specs.WordParts.{parts};
ghost use Rattle.dsc_tool.specs.Words.{command_of, order_of, build_order, with_jobs, check_order, extract_order, cache_word, trial_order, are_few, are_inputs, IsWithin, IsWordsFault};
ghost use Rattle.dsc_tool.specs.declared.command.WordsFault.TheVariants as faults;

use crate::number::{MOST_INPUTS, count_of, jobs_of, seed_of};
use crate::split::split_words;
use cache_build::Options;
use dsc_base::{NoMemory, Text};
use std::alloc::{AllocError, AllocFailed, Global};

/// What the words ask for.
#[derive(Drop)]
pub enum Command {
    /// Builds the cache of the inputs, in their order, and puts it at `out`.
    Build {
        options: Options,
        out: Text,
        inputs: Vec<Text>,
    },
    /// Checks a cache against the inputs, in their order.
    Check {
        cache: Text,
        inputs: Vec<Text>,
    },
    /// Makes files of the images of a cache, or of the one with a path, and puts each at the prefix followed by
    /// its path.
    Extract {
        cache: Text,
        prefix: Text,
        image: Option<Text>,
    },
    /// Lists the images of a cache.
    List {
        cache: Text,
    },
    /// Tells what the head of a cache says.
    Info {
        cache: Text,
    },
    /// Builds a cache of trial dylibs, whose contents the seed decides, and tells of it.
    Trial {
        options: Options,
        seed: u64,
        count: u32,
    },
}

/// Why the words gave no command.
#[derive(Clone, Copy, Debug, PartialEq, Eq)]
pub enum WordsFault {
    /// They spell none.
    BadWords,
    /// Memory ran out.
    Memory,
}

/// How many bits of a pointer tell the distance to the next one of its chain.
const DELTA_BITS: u32 = 16;

/// The command that the words behind the program's name spell:
///
/// * `build [--jobs N] OUT IN...`, with N from 1 to 64, of one or two decimal digits, and 1 to 4,096 inputs,
///   none of which is OUT;
/// * `check CACHE IN...`, with 1 to 4,096 inputs;
/// * `extract [--image PATH] CACHE PREFIX`;
/// * `list CACHE`;
/// * `info CACHE`;
/// * `trial [--jobs N] SEED COUNT`, with SEED below 2^64, of 1 to 20 decimal digits, and COUNT from 1 to 4,096, of
///   1 to 4 digits.
///
/// An option may stand before, between or after the other words, as `--jobs N` or `--jobs=N`, and once. `--`
/// ends the options; before it, a word that begins with a dash and isn't a dash alone is an option.
/// `BadWords` comes exactly where the words spell no command.
#[tactic(auto, unfolding(crate::specs::Words::command_of))]
pub fn read_words(alloc: Global, words: &[String]) -> Result<Command, WordsFault>
    ensures spelled { IfOk result (λ c. command_of (map string_bytes words.now) ≡ Some (order_of c)) }
    ensures within { IfOk result IsWithin }
    ensures cause { IfErr result (IsWordsFault (command_of (map string_bytes words.now))) }
{
    let [name, rest @ ..] = words else {
        return Err(WordsFault::BadWords);
    };
    let name = name.as_str();
    if name == "build" {
        read_build(alloc, rest)
    } else if name == "check" {
        read_check(alloc, rest)
    } else if name == "extract" {
        read_extract(alloc, rest)
    } else if name == "list" {
        let cache = read_cache_name(alloc, rest)?;
        Ok(Command::List { cache })
    } else if name == "info" {
        let cache = read_cache_name(alloc, rest)?;
        Ok(Command::Info { cache })
    } else if name == "trial" {
        read_trial(alloc, rest)
    } else {
        Err(WordsFault::BadWords)
    }
}

/// The build that the words behind its name ask for.
fn read_build(alloc: Global, words: &[String]) -> Result<Command, WordsFault>
    ensures spelled { IfOk result (λ c. option_and_then build_order (parts (Some (codes "jobs")) false (map string_bytes words.now)) ≡ Some (order_of c)) }
    ensures within { IfOk result IsWithin }
    ensures cause { IfErr result (IsWordsFault (option_and_then build_order (parts (Some (codes "jobs")) false (map string_bytes words.now)))) }
{
    let split = split_words(alloc, Some("jobs"), words)?;
    let Some(jobs) = jobs_of(split.value) else {
        return Err(WordsFault::BadWords);
    };
    let [out, inputs @ ..] = split.plain.as_slice() else {
        return Err(WordsFault::BadWords);
    };
    if !are_inputs(out, inputs) {
        return Err(WordsFault::BadWords);
    }
    let out = Text::from_str(alloc, out)?;
    let inputs = copy_names(alloc, inputs)?;
    Ok(Command::Build {
        options: with_jobs(jobs),
        out,
        inputs,
    })
}

/// The check that the words behind its name ask for.
fn read_check(alloc: Global, words: &[String]) -> Result<Command, WordsFault>
    ensures spelled { IfOk result (λ c. option_and_then check_order (parts None false (map string_bytes words.now)) ≡ Some (order_of c)) }
    ensures within { IfOk result IsWithin }
    ensures cause { IfErr result (IsWordsFault (option_and_then check_order (parts None false (map string_bytes words.now)))) }
{
    let split = split_words(alloc, None, words)?;
    let [cache, inputs @ ..] = split.plain.as_slice() else {
        return Err(WordsFault::BadWords);
    };
    if !are_few(inputs) {
        return Err(WordsFault::BadWords);
    }
    let cache = Text::from_str(alloc, cache)?;
    let inputs = copy_names(alloc, inputs)?;
    Ok(Command::Check { cache, inputs })
}

/// The extraction that the words behind its name ask for.
fn read_extract(alloc: Global, words: &[String]) -> Result<Command, WordsFault>
    ensures spelled { IfOk result (λ c. option_and_then extract_order (parts (Some (codes "image")) false (map string_bytes words.now)) ≡ Some (order_of c)) }
    ensures within { IfOk result IsWithin }
    ensures cause { IfErr result (IsWordsFault (option_and_then extract_order (parts (Some (codes "image")) false (map string_bytes words.now)))) }
{
    let split = split_words(alloc, Some("image"), words)?;
    let [cache, prefix] = split.plain.as_slice() else {
        return Err(WordsFault::BadWords);
    };
    let cache = Text::from_str(alloc, cache)?;
    let prefix = Text::from_str(alloc, prefix)?;
    let image = copy_value(alloc, split.value)?;
    Ok(Command::Extract {
        cache,
        prefix,
        image,
    })
}

/// The trial that the words behind its name ask for.
fn read_trial(alloc: Global, words: &[String]) -> Result<Command, WordsFault>
    ensures spelled { IfOk result (λ c. option_and_then trial_order (parts (Some (codes "jobs")) false (map string_bytes words.now)) ≡ Some (order_of c)) }
    ensures within { IfOk result IsWithin }
    ensures cause { IfErr result (IsWordsFault (option_and_then trial_order (parts (Some (codes "jobs")) false (map string_bytes words.now)))) }
{
    let split = split_words(alloc, Some("jobs"), words)?;
    let Some(jobs) = jobs_of(split.value) else {
        return Err(WordsFault::BadWords);
    };
    let [seed, count] = split.plain.as_slice() else {
        return Err(WordsFault::BadWords);
    };
    let Some(seed) = seed_of(seed) else {
        return Err(WordsFault::BadWords);
    };
    let Some(count) = count_of(count) else {
        return Err(WordsFault::BadWords);
    };
    Ok(Command::Trial {
        options: with_jobs(jobs),
        seed,
        count,
    })
}

/// How to build with so many jobs.
fn with_jobs(jobs: u32) -> Options
    ensures { result ≡ with_jobs jobs }
{
    Options {
        jobs,
        delta_bits: DELTA_BITS,
    }
}

/// The name of the cache, which is the one word behind a command's name.
fn read_cache_name(alloc: Global, words: &[String]) -> Result<Text, WordsFault>
    ensures spelled { IfOk result (λ name. option_and_then cache_word (parts None false (map string_bytes words.now)) ≡ Some name) }
    ensures cause { IfErr result (IsWordsFault (option_and_then cache_word (parts None false (map string_bytes words.now)))) }
{
    let split = split_words(alloc, None, words)?;
    let [cache] = split.plain.as_slice() else {
        return Err(WordsFault::BadWords);
    };
    Ok(Text::from_str(alloc, cache)?)
}

/// Whether the names may be the inputs of the cache that is put at `out`.
fn are_inputs(out: &str, names: &[&str]) -> bool
    ensures { result ≡ are_inputs out.now (map (λ name. name.now) names.now) }
{
    are_few(names) && !names.contains(&out)
}

/// Whether there are as many names as a command may have inputs.
fn are_few(names: &[&str]) -> bool
    ensures { result ≡ are_few (map (λ name. name.now) names.now) }
{
    !names.is_empty() && names.len() <= MOST_INPUTS
}

fn copy_value(alloc: Global, value: Option<&str>) -> Result<Option<Text>, NoMemory>
    ensures { IfOk result (λ copy. copy ≡ option_map (λ text. text.now) value.entry) }
{
    match value {
        Some(text) => Ok(Some(Text::from_str(alloc, text)?)),
        None => Ok(None),
    }
}

fn copy_names(alloc: Global, names: &[&str]) -> Result<Vec<Text>, NoMemory>
    ensures { IfOk result (λ copies. copies.items ≡ map (λ name. name.now) names.now) }
{
    let mut copies = Vec::with_capacity(alloc, names.len())?;
    for name in names {
        copies.push(Text::from_str(alloc, name)?)?;
    }
    Ok(copies)
}

impl From<NoMemory> for WordsFault {
    ghost from_gives = { λ _ e. e ≡ faults.Memory };

    fn from(_: NoMemory) -> Self {
        WordsFault::Memory
    }
}

impl From<AllocError> for WordsFault {
    ghost from_gives = { λ _ e. e ≡ faults.Memory };

    fn from(_: AllocError) -> Self {
        WordsFault::Memory
    }
}

impl<T: Drop> From<AllocFailed<T>> for WordsFault {
    ghost from_gives = { λ _ e. e ≡ faults.Memory };

    fn from(_: AllocFailed<T>) -> Self {
        WordsFault::Memory
    }
}
