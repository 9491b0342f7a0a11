// The chain words of the data, read back.
ghost use Rattle.std.specs.Prelude.{◌≡◌, ℕ, ◌+◌, ◌*◌, ◌≤◌, ◌<◌, List, [], length, Option, None, Some, IfOk, OnOk, IfErr, IfSome, IfNone};
ghost use Rattle.dsc_base.specs.Refusals.{IsViewRefusal};
ghost use Rattle.slide_chain.specs.Chains.{Slide, slide_of, Suits, chain_words, chain_finding, leaving, lowest};
ghost use Rattle.slide_chain.specs.Steps.Reading.{WalkIs};

use crate::gathering::gather;
use crate::runs::endless_page;
use crate::sieve::{PLACES, sift_page};
use crate::thinning::thin;
use crate::{ChainWord, SlideInfo};
use dsc_base::{Finding, FindingKind, NoMemory, ViewFault};
use std::alloc::Global;

/// All chain words by rising offset, with their values at slide 0. `ExtrasEnd` shows the first page
/// whose run of extras has no end; `ChainLeavesPage` the least place from which a chain leaves its
/// page; `ChainsOverlap` the least word that shares a byte with another one or is reached twice.
pub fn read_chains(
    alloc: Global,
    info: &SlideInfo,
    area: &[u8],
) -> Result<Vec<ChainWord>, ViewFault>
    requires { Suits info.now area.now }
    ensures words { IfOk result (λ v. v.items ≡ chain_words info.now area.now) }
    ensures sound { OnOk result (chain_finding info.now area.now ≡ None) }
    ensures cause { IfErr result (IsViewRefusal (chain_finding info.now area.now)) }
{
    let words = read_words(
        alloc,
        info.mask,
        info.value_add,
        &info.starts,
        &info.extras,
        area,
    )?;
    Ok(words)
}

fn read_words(
    alloc: Global,
    mask: u64,
    value_add: u64,
    starts: &[u16],
    extras: &[u16],
    area: &[u8],
) -> Result<Vec<ChainWord>, ViewFault>
    requires { Suits (slide_of mask value_add starts.now extras.now) area.now }
    ensures words { IfOk result (λ v. v.items ≡ chain_words
        (slide_of mask value_add starts.now extras.now) area.now) }
    ensures sound { OnOk result (chain_finding (slide_of mask value_add starts.now extras.now) area.now ≡ None) }
    ensures cause { IfErr result (IsViewRefusal
        (chain_finding (slide_of mask value_add starts.now extras.now) area.now)) }
{
    if let Some(page) = endless_page(starts, extras) {
        return Err(ViewFault::Broken(finding(FindingKind::ExtrasEnd, page)));
    }
    let mut words = Vec::new(alloc);
    let mut marks = vec![in alloc; 0u64; PLACES]?;
    match read_pages(
        mask, value_add, starts, extras, area, &mut marks, &mut words,
    )? {
        Walk::Sound => Ok(words),
        Walk::Leaves(at) => Err(ViewFault::Broken(finding(FindingKind::ChainLeavesPage, at))),
        Walk::Overlaps(at) => {
            // A chain that leaves a later page goes before the overlap.
            let (few_starts, few_extras) = thin(alloc, starts, extras)?;
            match first_leaving(mask, &few_starts, &few_extras, area, &mut marks) {
                Some(leaves) => Err(ViewFault::Broken(finding(
                    FindingKind::ChainLeavesPage,
                    leaves,
                ))),
                None => Err(ViewFault::Broken(finding(FindingKind::ChainsOverlap, at))),
            }
        }
    }
}

fn finding(kind: FindingKind, at: usize) -> Finding
    ensures { result ≡ record { kind = kind; image = 0; at = at } }
{
    Finding {
        kind,
        image: 0,
        at: at as u64,
    }
}

/// What a walk over the pages came to.
#[derive(Drop)]
pub(crate) enum Walk {
    Sound,
    Leaves(usize),
    Overlaps(usize),
}

/// Goes through the pages, with counters for the places of one, and appends their chain words, up
/// to the first page with something wrong. What was appended then means nothing.
fn read_pages(
    mask: u64,
    value_add: u64,
    starts: &[u16],
    extras: &[u16],
    area: &[u8],
    marks: &mut [u64],
    words: &mut Vec<ChainWord>,
) -> Result<Walk, NoMemory>
    requires suits { Suits (slide_of mask value_add starts.now extras.now) area.now }
    requires places { length marks.old ≡ 1023 }
    requires empty { words.old.items ≡ [] }
    ensures { IfOk result
        (WalkIs (slide_of mask value_add starts.now extras.now) area.now words.new.items) }
{
    for (i, start) in starts.iter().enumerate() {
        let page = i * 4096;
        if let Some(at) = sift_page(marks, area, mask, extras, page, *start) {
            return Ok(Walk::Leaves(at));
        }
        if let Some(at) = gather(marks, area, mask, value_add, page, words)? {
            return Ok(Walk::Overlaps(at));
        }
    }
    Ok(Walk::Sound)
}

/// The least place where a chain leaves its page, if one does.
fn first_leaving(
    mask: u64,
    starts: &[u16],
    extras: &[u16],
    area: &[u8],
    marks: &mut [u64],
) -> Option<usize>
    requires suits { Suits (slide_of mask 0 starts.now extras.now) area.now }
    requires places { length marks.old ≡ 1023 }
    ensures { result ≡ lowest (leaving (slide_of mask 0 starts.now extras.now) area.now) }
{
    for (i, start) in starts.iter().enumerate() {
        if let Some(at) = sift_page(marks, area, mask, extras, i * 4096, *start) {
            return Some(at);
        }
    }
    None
}
