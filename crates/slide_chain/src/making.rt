// Slide information of given words.
ghost use Rattle.std.specs.Prelude.{◌≡◌, ◌+◌, ◌-◌, ◌*◌, ◌/◌, ◌%◌, ◌^◌, ◌<◌, ◌≤◌, ◌||◌, List, [], ◌∷◌, ◌++◌, length, drop, take, slice_index, nat_eq, nat_lt, IfOk, OnOk, if◌then◌else◌};
ghost use Rattle.dsc_base.specs.Refusals.{Refuses};
ghost use Rattle.slide_chain.specs.Chains.{Slide};
ghost use Rattle.slide_chain.specs.Making.{step, firsts, front, rest, page_firsts, marked_last, extras_for, start_for, starts_of, extras_of, info_of, AreWords, AllBelow, IsMade, extras_site};

use crate::SlideInfo;
use crate::rising::{step_between, words_below};
use dsc_base::{Fault, NoMemory, Rule, Site};
use std::alloc::Global;

/// How many extras starts can lead to.
const EXTRAS_LIMIT: usize = 0x4000;

/// The slide information of `data_size` bytes with chain words at the places `words`, for deltas of
/// `bits` bits, from 1 to 16. `TooManyExtras` says how many extras are needed where these are more than
/// 16,384, as many as starts can lead to.
pub fn make_slide_info(
    alloc: Global,
    data_size: u64,
    words: &[u64],
    bits: u32,
) -> Result<SlideInfo, Fault>
    requires bits { 1 ≤ bits }
    requires most { bits ≤ 16 }
    requires pages { data_size % 4096 ≡ 0 }
    requires room { data_size ≤ 0x20000000 }
    requires words { AreWords 0 words.now }
    requires inside { AllBelow data_size words.now }
    ensures info { IfOk result (λ i. i ≡ info_of bits data_size words.now) }
    ensures made { IfOk result (λ i. IsMade i data_size words.now) }
    ensures cause { Refuses (extras_site bits data_size words.now) result }
{
    let limit = (1u64 << bits) - 1;
    let (starts, extras) = link_pages(alloc, data_size / 4096, words, limit)?;
    if extras.len() > EXTRAS_LIMIT {
        return Err(Fault::Broken(Site {
            rule: Rule::TooManyExtras,
            at: extras.len() as u64,
        }));
    }
    Ok(SlideInfo {
        mask: limit << 48,
        value_add: 0,
        starts,
        extras,
    })
}

/// The starts of so many pages with these words, and the extras. Starts are right only where there
/// are no more extras than starts can lead to.
fn link_pages(
    alloc: Global,
    pages: u64,
    words: &[u64],
    limit: u64,
) -> Result<(Vec<u16>, Vec<u16>), NoMemory>
    requires room { pages ≤ 0x20000 }
    requires words { AreWords 0 words.now }
    ensures extras { IfOk result (λ r. r.1.items ≡ extras_of (page_firsts limit 0 pages words.now)) }
    ensures starts { IfOk result (λ r. length r.1.items ≤ 0x4000
        → r.0.items ≡ starts_of 0 (page_firsts limit 0 pages words.now)) }
{
    let mut starts = Vec::with_capacity(alloc, pages as usize)?;
    let mut extras = Vec::new(alloc);
    let mut firsts = Vec::new(alloc);
    let mut passed = 0;
    for page in 0..pages {
        let end = passed + words_below(&words[passed..], (page + 1) * 4096);
        find_firsts(&words[passed..end], limit, &mut firsts)?;
        starts.push(start_of(&firsts, extras.len()))?;
        push_extras(&firsts, &mut extras)?;
        passed = end;
    }
    Ok((starts, extras))
}

/// Lists the words that begin a chain, in place of what was listed.
fn find_firsts(words: &[u64], limit: u64, found: &mut Vec<u64>) -> Result<(), NoMemory>
    requires { AreWords 0 words.now }
    ensures { OnOk result (found.new.items ≡ firsts limit words.now) }
{
    found.clear();
    for i in 0..words.len() {
        if is_first(words, i, limit) {
            found.push(words[i])?;
        }
    }
    Ok(())
}

/// Whether a chain begins at a word: at the first one, and where no step leads to it.
fn is_first(words: &[u64], i: usize, limit: u64) -> bool
    requires within { i < length words.now }
    requires words { AreWords 0 words.now }
    ensures { result ≡ (nat_eq i 0
        || nat_eq (step limit (slice_index words.now (i - 1)) (slice_index words.now i)) 0) }
{
    i == 0 || step_between(words[i - 1], words[i], limit) == 0
}

/// A page's start, by its first words and the number of extras so far. It is right only where the
/// page's extras are within the limit.
#[tactic(auto, unfolding(crate::specs::Making::start_for))]
fn start_of(firsts: &[u64], count: usize) -> u16
    ensures { count + length (extras_for firsts.now) ≤ 0x4000 → result ≡ start_for count firsts.now }
{
    match firsts {
        [] => 0x4000,
        [first] => (first % 4096 / 4) as u16,
        _ => 0x8000 + (count % EXTRAS_LIMIT) as u16,
    }
}

/// Appends the extras that a page needs: one for each first word, where there are several, the last
/// one marked.
fn push_extras(firsts: &[u64], extras: &mut Vec<u16>) -> Result<(), NoMemory>
    ensures { OnOk result (extras.new.items ≡ extras.old.items ++ extras_for firsts.now) }
{
    if firsts.len() < 2 {
        return Ok(());
    }
    for (i, first) in firsts.iter().enumerate() {
        extras.push(extra(*first, i + 1 == firsts.len()))?;
    }
    Ok(())
}

/// The extra of a first word: a quarter of its place in the page, with the highest bit if it is the
/// last of its page.
fn extra(first: u64, is_last: bool) -> u16
    ensures { result ≡ (if is_last then 0x8000 + first % 4096 / 4 else first % 4096 / 4) }
{
    let quarter = (first % 4096 / 4) as u16;
    if is_last { 0x8000 + quarter } else { quarter }
}
