// What the words come to before anything is put.
ghost use Rattle.std.specs.Prelude.{◌≡◌, ◌⊎◌, ℕ, [], ◌∷◌, Ok, Err, IfOk, IfErr, map, string_bytes};
ghost use Rattle.dsc_tool.specs.Causes.{IsDue};
ghost use Rattle.dsc_tool.specs.Made.{check_halted, ending_of};
ghost use Rattle.dsc_tool.specs.Steps.{IsProduct, made_of, BuildWorks, BuildStop, CheckWorks, CheckStop, IsChecked, FilesStop, found_in, HasHead, TextWorks, HeadStop, TrialWorks, TrialStop};
ghost use Rattle.dsc_tool.specs.Texts.{list_text, info_text};
ghost use Rattle.dsc_tool.specs.Words.{AreFew, IsBuild, IsTrial};
ghost use Rattle.dsc_tool.specs.declared.status.Ending.TheVariants as endings;
ghost use Rattle.dsc_tool.specs.declared.stop.Stop.TheVariants as stops;

use crate::cache_text::{info_text, list_text};
use crate::command::{Command, read_words};
use crate::extraction::prepare_extract;
use crate::inputs::{read_cache, read_files};
use crate::status::Ending;
use crate::stop::Stop;
use crate::text::built_text;
use crate::trial::{summary, trial_cache};
use crate::verdict_text::{broken_text, verdict_text};
use cache_build::{Options, build};
use cache_check::{Verdict, check};
use cache_header::{CacheHead, read_cache_head};
use dsc_base::{Finding, Gate, Store, Text};
use std::alloc::{AllocError, Global};
use std::thread::Threads;

/// A file that is to be put.
#[derive(Drop)]
pub struct NewFile {
    pub name: Text,
    pub bytes: Vec<u8>,
}

/// Files to put, in their order, and then a text for standard output; and how the run ends where all is put.
#[derive(Drop)]
pub struct Product {
    pub ending: Ending,
    pub files: Vec<NewFile>,
    pub text: Vec<u8>,
}

/// Reads the words and the inputs that they name, and makes what they ask for. Nothing is put.
pub(crate) fn prepare<R: Threads + Sync, S: Store, G: Gate + Sync>(
    rt: &R,
    alloc: Global,
    words: &[String],
    store: &mut S,
    gate: &G,
) -> Result<Product, Stop>
    ensures product { IfOk result (IsProduct (map string_bytes words.now) (S.files store.old)
        (S.get_faults store.old) (S.get_faults store.new)) }
    ensures stop { IfErr result (IsDue (map string_bytes words.now) (S.files store.old)
        (S.get_faults store.old) (S.get_faults store.new)) }
    ensures files { S.files store.new ≡ S.files store.old }
    ensures put_count { S.put_faults store.new ≡ S.put_faults store.old }
{
    match read_words(alloc, words)? {
        Command::Build {
            options,
            out,
            inputs,
        } => prepare_build(rt, alloc, &options, out, &inputs, store, gate),
        Command::Check { cache, inputs } => prepare_check(alloc, cache.as_str(), &inputs, store),
        Command::Extract {
            cache,
            prefix,
            image,
        } => prepare_extract(alloc, cache.as_str(), prefix.as_str(), image, store),
        Command::List { cache } => prepare_list(alloc, cache.as_str(), store),
        Command::Info { cache } => prepare_info(alloc, cache.as_str(), store),
        Command::Trial {
            options,
            seed,
            count,
        } => prepare_trial(rt, alloc, &options, seed, count, gate),
    }
}

/// The cache of the inputs, to be put at `out`, and the line that tells of it.
fn prepare_build<R: Threads + Sync, S: Store, G: Gate + Sync>(
    rt: &R,
    alloc: Global,
    options: &Options,
    out: Text,
    inputs: &[Text],
    store: &mut S,
    gate: &G,
) -> Result<Product, Stop>
    requires { IsBuild options.now inputs.now }
    ensures product { IfOk result (λ p. BuildWorks (S.files store.old) out inputs.now (made_of p)) }
    ensures stop { IfErr result (BuildStop (S.files store.old) (S.get_faults store.old) (S.get_faults store.new) out inputs.now) }
    ensures files { S.files store.new ≡ S.files store.old }
    ensures put_count { S.put_faults store.new ≡ S.put_faults store.old }
{
    let files = read_files(alloc, store, 0, inputs)?;
    let cache = build(rt, alloc, &files, options, gate)?;
    let line = built_text(alloc, files.len() as u32, cache.len() as u64)?;
    Ok(one_file(alloc, out, cache, line)?)
}

fn one_file(alloc: Global, name: Text, bytes: Vec<u8>, line: String) -> Result<Product, AllocError>
    ensures { IfOk result (λ p. made_of p ≡ record { ending = endings.Done; files = (name, bytes.items) ∷ []; text = string_bytes line }) }
{
    let mut files = Vec::new(alloc);
    files
        .push(NewFile { name, bytes })
        .map_err(AllocError::from)?;
    Ok(Product {
        ending: Ending::Done,
        files,
        text: line.into_bytes(),
    })
}

/// The verdict on the cache of this name and the inputs. That the cache is too large is one, and no input behind
/// it is read then.
fn prepare_check<S: Store>(
    alloc: Global,
    name: &str,
    inputs: &[Text],
    store: &mut S,
) -> Result<Product, Stop>
    requires { AreFew inputs.now }
    ensures product { IfOk result (λ p. CheckWorks (S.files store.old)
        (S.get_faults store.old) (S.get_faults store.new) name.now inputs.now (made_of p)) }
    ensures stop { IfErr result (CheckStop (S.files store.old) (S.get_faults store.old) (S.get_faults store.new) name.now inputs.now) }
    ensures files { S.files store.new ≡ S.files store.old }
    ensures put_count { S.put_faults store.new ≡ S.put_faults store.old }
{
    match read_cache(alloc, store, name) {
        Ok(cache) => check_files(alloc, &cache, inputs, store),
        Err(stop) => check_halted(alloc, stop),
    }
}

/// What a check comes to, of however many inputs, whose cache isn't read.
fn check_halted(alloc: Global, stop: Stop) -> Result<Product, Stop>
    ensures product { IfOk result (λ p. (images : ℕ) → check_halted images stop ≡ Ok (made_of p)) }
    ensures stop { IfErr result (λ s. (s ≡ stops.Memory) ⊎ ((images : ℕ) → (s ≡ stop) × (check_halted images stop ≡ Err stop))) }
{
    let found = found_in(stop)?;
    let line = broken_text(alloc, &found)?;
    Ok(only_text(alloc, Ending::Differs, line.into_bytes()))
}

/// The finding that is what a check finds, where its inputs aren't all read.
fn found_in(stop: Stop) -> Result<Finding, Stop>
    ensures { result ≡ found_in stop }
{
    match stop {
        Stop::Flawed(found) => Ok(found),
        Stop::BadWords | Stop::Unread(_) | Stop::Refused(_) | Stop::NoImage | Stop::Memory => {
            Err(stop)
        }
    }
}

/// The verdict on the cache and the inputs, which are read behind it.
fn check_files<S: Store>(
    alloc: Global,
    cache: &[u8],
    inputs: &[Text],
    store: &mut S,
) -> Result<Product, Stop>
    requires { AreFew inputs.now }
    ensures product { IfOk result (λ p. IsChecked (S.files store.old) inputs.now cache.now (made_of p)) }
    ensures stop { IfErr result (FilesStop (S.files store.old) (S.get_faults store.old) (S.get_faults store.new) inputs.now cache.now) }
    ensures files { S.files store.new ≡ S.files store.old }
    ensures put_count { S.put_faults store.new ≡ S.put_faults store.old }
{
    let files = read_files(alloc, store, 1, inputs)?;
    let verdict = check(alloc, cache, &files)?;
    let line = verdict_text(alloc, files.len() as u32, &verdict)?;
    Ok(only_text(alloc, ending_of(&verdict), line.into_bytes()))
}

/// A run is done where a cache agrees with its files.
fn ending_of(verdict: &Verdict) -> Ending
    ensures { result ≡ ending_of verdict.now }
{
    match verdict {
        Verdict::Agrees => Ending::Done,
        Verdict::Differs(_) | Verdict::Broken(_) => Ending::Differs,
    }
}

/// The list of the images of the cache of this name.
fn prepare_list<S: Store>(alloc: Global, name: &str, store: &mut S) -> Result<Product, Stop>
    ensures product { IfOk result (λ p. TextWorks list_text (S.files store.old) name.now (made_of p)) }
    ensures stop { IfErr result (HeadStop (S.files store.old) (S.get_faults store.old) (S.get_faults store.new) name.now) }
    ensures files { S.files store.new ≡ S.files store.old }
    ensures put_count { S.put_faults store.new ≡ S.put_faults store.old }
{
    let head = read_head(alloc, name, store)?;
    let text = list_text(alloc, &head)?;
    Ok(only_text(alloc, Ending::Done, text))
}

/// What the head of the cache of this name says.
fn prepare_info<S: Store>(alloc: Global, name: &str, store: &mut S) -> Result<Product, Stop>
    ensures product { IfOk result (λ p. TextWorks info_text (S.files store.old) name.now (made_of p)) }
    ensures stop { IfErr result (HeadStop (S.files store.old) (S.get_faults store.old) (S.get_faults store.new) name.now) }
    ensures files { S.files store.new ≡ S.files store.old }
    ensures put_count { S.put_faults store.new ≡ S.put_faults store.old }
{
    let head = read_head(alloc, name, store)?;
    let text = info_text(alloc, &head)?;
    Ok(only_text(alloc, Ending::Done, text))
}

/// The line that tells of the cache of trial dylibs.
fn prepare_trial<R: Threads + Sync, G: Gate + Sync>(
    rt: &R,
    alloc: Global,
    options: &Options,
    seed: u64,
    count: u32,
    gate: &G,
) -> Result<Product, Stop>
    requires { IsTrial options.now count }
    ensures product { IfOk result (λ p. TrialWorks seed count (made_of p)) }
    ensures stop { IfErr result (TrialStop seed count) }
{
    let cache = trial_cache(rt, alloc, options, seed, count, gate)?;
    let line = summary(alloc, count, &cache)?;
    Ok(only_text(alloc, Ending::Done, line.into_bytes()))
}

fn only_text(alloc: Global, ending: Ending, text: Vec<u8>) -> Product
    ensures { made_of result ≡ record { ending = ending; files = []; text = text.items } }
{
    Product {
        ending,
        files: Vec::new(alloc),
        text,
    }
}

/// The head of the cache of this name. Nothing of the cache is copied but what the head keeps.
fn read_head<S: Store>(alloc: Global, name: &str, store: &mut S) -> Result<CacheHead, Stop>
    ensures head { IfOk result (HasHead (S.files store.old) name.now) }
    ensures stop { IfErr result (HeadStop (S.files store.old) (S.get_faults store.old) (S.get_faults store.new) name.now) }
    ensures files { S.files store.new ≡ S.files store.old }
    ensures put_count { S.put_faults store.new ≡ S.put_faults store.old }
{
    let cache = read_cache(alloc, store, name)?;
    Ok(read_cache_head(alloc, &cache)?)
}
