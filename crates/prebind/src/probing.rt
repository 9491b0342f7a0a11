// Symbols resolved by the search orders and an index of a set.
ghost use Rattle.std.specs.Prelude.{◌≡◌, ◌≤◌, ◌<◌, ◌+◌, ◌^◌, length, IfOk, IfSome, All};
ghost use Rattle.export_trie.specs.Finding.{target_in};
ghost use Rattle.prebind.specs.Framed as framed;
ghost use Rattle.prebind.specs.Indexed.{AreOfOneSet, InEachSet};
ghost use Rattle.prebind.specs.Probes.{searched, step_probes, probes};
ghost use Rattle.prebind.specs.Resolves as spec;
ghost use Rattle.prebind.specs.Steps.{step_seen};

use crate::Resolved;
use crate::index::{Frame, Indexed};
use crate::met::Met;
use crate::resolution::{Step, next_name};
use crate::spans::inside;
use dep_closure::{Dep, Links};
use dsc_base::NoMemory;
use export_trie::{Entry, NameIndex, Steps};
use std::alloc::Global;
use std::sync::ledger::Ledger;

/// The first image of a search order that exports a name, and where its export leads. It takes a step for each
/// image up to that one.
pub(crate) fn first_named<'a, L: Ledger>(
    names: &'a NameIndex,
    order: &[u32],
    name: &[u8],
    steps: &mut Steps<L>,
) -> Option<(u32, Entry<'a>)>
    requires order { All (λ k. k < length names.now) order.now }
    ensures first { framed.entry_seen result ≡ spec.first_exporting names.entry.now name.now order.now }
    ensures within { IfSome result (λ found. found.0 < length names.entry.now) }
    ensures counted { steps.new ≡ steps.old + searched names.entry.now name.now order.now }
{
    for image in order {
        if let Some(entry) = names.probe(*image, name, steps) {
            return Some((*image, entry));
        }
    }
    None
}

/// The place of an offset export of image number `image`.
fn export_place(frame: &Frame, image: u32, offset: u64) -> Resolved
    requires { length frame.now.segments < 2 ^ 32 }
    ensures { result ≡ framed.framed_place frame.now image offset }
{
    let address = frame.header.wrapping_add(offset);
    match inside(&frame.segments, address) {
        Some(place) => Resolved::Place {
            image,
            segment: place.segment,
            distance: place.distance,
        },
        None => Resolved::Constant(address),
    }
}

/// Where an export of image number `number` leads.
fn entry_step<'a>(frame: &Frame, number: u32, entry: Entry<'a>) -> Step<'a>
    requires { length frame.now.segments < 2 ^ 32 }
    ensures { step_seen result ≡ framed.framed_step frame.now number (target_in entry.entry) }
{
    match entry {
        Entry::Offset(offset) => Step::Ends(export_place(frame, number, offset)),
        Entry::Absolute(value) => Step::Ends(Resolved::Constant(value)),
        Entry::Reexport { ordinal, name } => Step::Reexports {
            image: number,
            ordinal,
            name,
        },
    }
}

/// What is found in a search order leads to.
fn found_step<'a>(frames: &[Frame], found: Option<(u32, Entry<'a>)>) -> Step<'a>
    requires few { All (λ f. length f.segments < 2 ^ 32) frames.now }
    requires within { IfSome found (λ f. f.0 < length frames.now) }
    ensures { step_seen result ≡ framed.framed_found frames.now (framed.entry_seen found.entry) }
{
    match found {
        Some((number, entry)) => entry_step(&frames[number as usize], number, entry),
        None => Step::Ends(Resolved::Absent),
    }
}

/// What an ordinal of an image and a name lead to.
fn next_step<'s, L: Ledger>(
    links: &Links,
    indexed: &'s Indexed,
    image: u32,
    ordinal: u64,
    name: &[u8],
    steps: &mut Steps<L>,
) -> Step<'s>
    requires one { AreOfOneSet links.now indexed.now }
    requires image { image < length indexed.now.frames }
    ensures found { InEachSet links.now indexed.entry.now (λ set. step_seen result ≡ spec.step set image ordinal name.now) }
    ensures counted { InEachSet links.now indexed.entry.now (λ set. steps.new ≡ steps.old + step_probes set image ordinal name.now) }
{
    match links.dependency(image, ordinal) {
        Dep::BadOrdinal => Step::Ends(Resolved::BadOrdinal),
        Dep::Missing => Step::Ends(Resolved::Constant(0)),
        Dep::Image(first) => {
            let order = links.search_order(first);
            let found = first_named(&indexed.names, order, name, steps);
            found_step(&indexed.frames, found)
        }
    }
}

/// Where a symbol leads that an image binds by a library ordinal and a name, found by an index: what
/// `resolve` answers for the set whose links and index these are. `NoMemory` says that memory ran out.
///
/// It takes a step for each image that it asks for a name: in each search order that it goes through, those
/// up to the first that exports the name, or all where none does.
pub fn resolve_indexed<L: Ledger>(
    alloc: Global,
    links: &Links,
    indexed: &Indexed,
    image: u32,
    ordinal: u64,
    name: &[u8],
    steps: &mut Steps<L>,
) -> Result<Resolved, NoMemory>
    requires one { AreOfOneSet links.now indexed.now }
    requires image { image < length indexed.now.frames }
    ensures found { IfOk result (λ r. InEachSet links.now indexed.now (λ set. r ≡ spec.resolves set image ordinal name.now)) }
    ensures counted { InEachSet links.now indexed.now (λ set. steps.new ≤ steps.old + probes set image ordinal name.now) }
{
    let mut met = Met::new(alloc);
    let mut from = image;
    let mut by = ordinal;
    let mut sought = name;
    'steps: loop {
        match next_step(links, indexed, from, by, sought, steps) {
            Step::Ends(outcome) => return Ok(outcome),
            Step::Reexports {
                image: next,
                ordinal: next_by,
                name: own,
            } => {
                if !met.insert(next, sought)? {
                    return Ok(Resolved::Loop);
                }
                from = next;
                by = next_by;
                sought = next_name(sought, own);
            }
        }
    }
}
