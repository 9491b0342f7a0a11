// How many images are asked for a name, in a set whose first image needs the second, in whose search order the
// fourth and the fifth come before the third.
ghost use Rattle.std.specs.Prelude.{◌≡◌, ◌≤◌, ◌<◌, ◌+◌, length, true, Some, None};
ghost use Rattle.export_trie.specs.declared.export.Target.TheVariants.{Offset};
ghost use Rattle.prebind.specs.Asked.{IsSearchedInDepth, OrderHas, IsOneBind};
ghost use Rattle.prebind.specs.Bodies.{AreOfOneImage};
ghost use Rattle.prebind.specs.Framed.{entry_seen};
ghost use Rattle.prebind.specs.Indexed.{AreOfOneSet, IsIndexOf};
ghost use Rattle.prebind.specs.Sets.{IsSoundSet};
ghost use Rattle.prebind.specs.Steps.{set_of};

use crate::probing::first_named;
use crate::{
    Indexed, PlacedWord, Resolved, Set, body_segments, index_set, place_words_indexed, resolve,
    resolve_indexed,
};
use bind_ops::Bind;
use dep_closure::{Dep, Links};
use dsc_base::{NoMemory, SetFault};
use export_trie::{Entry, Steps};
use macho_image::{Location, Segment};
use split_info::Reference;
use std::alloc::Global;
use std::sync::ledger::Ledger;

fn is_searched_in_depth(links: &Links) -> bool
    requires dependencies { 0 < length links.now.dependencies }
    requires orders { 1 < length links.now.orders }
    ensures { result ≡ true → IsSearchedInDepth links.now }
{
    let order: &[u32] = &[1, 3, 4, 2];
    match links.dependency(0, 1) {
        Dep::Image(1) => links.search_order(1) == order,
        _ => false,
    }
}

fn is_one_bind(binds: &[Bind<'_>], name: &[u8]) -> bool
    ensures { result ≡ true → IsOneBind binds.now name.now }
{
    if binds.len() != 1 {
        return false;
    }
    let bind = &binds[0];
    bind.ordinal == 1 && bind.name == name
}

fn found_in_order<'s, L: Ledger>(
    links: &Links,
    indexed: &'s Indexed,
    name: &[u8],
    steps: &mut Steps<L>,
) -> Option<(u32, Entry<'s>)>
    requires one { AreOfOneSet links.now indexed.now }
    requires image { 1 < length indexed.now.frames }
    ensures { OrderHas links.now indexed.entry.now.names name.now (entry_seen result) }
{
    first_named(&indexed.names, links.search_order(1), name, steps)
}

/// A name that the fifth image exports takes three steps.
fn resolve_third<L: Ledger>(
    alloc: Global,
    links: &Links,
    indexed: &Indexed,
    name: &[u8],
    offset: u64,
    steps: &mut Steps<L>,
) -> Result<Resolved, NoMemory>
    requires one { AreOfOneSet links.now indexed.now }
    requires image { 0 < length indexed.now.frames }
    requires searched { IsSearchedInDepth links.now }
    requires found { OrderHas links.now indexed.now.names name.now (Some (4, Offset offset)) }
    ensures { steps.new ≤ steps.old + 3 }
{
    let _ = offset;
    resolve_indexed(alloc, links, indexed, 0, 1, name, steps)
}

/// A name that none of the four exports takes four.
fn resolve_absent<L: Ledger>(
    alloc: Global,
    links: &Links,
    indexed: &Indexed,
    name: &[u8],
    steps: &mut Steps<L>,
) -> Result<Resolved, NoMemory>
    requires one { AreOfOneSet links.now indexed.now }
    requires image { 0 < length indexed.now.frames }
    requires searched { IsSearchedInDepth links.now }
    requires found { OrderHas links.now indexed.now.names name.now None }
    ensures { steps.new ≤ steps.old + 4 }
{
    resolve_indexed(alloc, links, indexed, 0, 1, name, steps)
}

/// And the words of an image that binds the former alone take three.
fn place_third<L: Ledger>(
    alloc: Global,
    links: &Links,
    indexed: &Indexed,
    segments: &[Segment<'_>],
    rebases: &[Location],
    binds: &[Bind<'_>],
    references: &[Reference],
    name: &[u8],
    offset: u64,
    steps: &mut Steps<L>,
) -> Result<Vec<PlacedWord>, SetFault>
    requires image { AreOfOneImage links.now indexed.now 0 segments.now rebases.now binds.now references.now }
    requires searched { IsSearchedInDepth links.now }
    requires found { OrderHas links.now indexed.now.names name.now (Some (4, Offset offset)) }
    requires bound { IsOneBind binds.now name.now }
    ensures { steps.new ≤ steps.old + 3 }
{
    let _ = name;
    let _ = offset;
    place_words_indexed(
        alloc, links, indexed, 0, segments, rebases, binds, references, steps,
    )
}

/// Whether a name that no image exports is absent.
fn lacks<L: Ledger>(
    alloc: Global,
    links: &Links,
    indexed: &Indexed,
    name: &[u8],
    steps: &mut Steps<L>,
) -> Result<bool, NoMemory>
    requires one { AreOfOneSet links.now indexed.now }
    requires image { 1 < length indexed.now.frames }
    requires searched { IsSearchedInDepth links.now }
{
    match found_in_order(links, indexed, name, steps) {
        Some(_) => Ok(false),
        None => {
            let outcome = resolve_absent(alloc, links, indexed, name, steps)?;
            Ok(outcome == Resolved::Absent)
        }
    }
}

/// The words of the first image, whose only bind is of a name that the fifth image exports.
fn third_words<L: Ledger>(
    alloc: Global,
    set: &Set<'_, '_>,
    indexed: &Indexed,
    name: &[u8],
    steps: &mut Steps<L>,
) -> Result<Vec<PlacedWord>, SetFault>
    requires index { IsIndexOf (set_of set.now) indexed.now }
    requires some { 1 < length set.now.images.now }
    requires searched { IsSearchedInDepth set.now.links.now }
{
    let streams = &set.streams[0];
    match found_in_order(set.links, indexed, name, steps) {
        Some((4, Entry::Offset(offset))) if is_one_bind(&streams.binds, name) => {
            let third = resolve_third(alloc, set.links, indexed, name, offset, steps)?;
            if third != resolve(alloc, set, 0, 1, name)? {
                return Err(SetFault::Memory);
            }
            place_third(
                alloc,
                set.links,
                indexed,
                body_segments(&set.images[0]),
                &streams.rebases,
                &streams.binds,
                &streams.references,
                name,
                offset,
                steps,
            )
        }
        _ => Err(SetFault::Memory),
    }
}

/// The words of the first image, whose only bind is of `_n`; and want of memory where the set isn't that one.
pub(super) fn counted_words<L: Ledger>(
    alloc: Global,
    set: &Set<'_, '_>,
    steps: &mut Steps<L>,
) -> Result<Vec<PlacedWord>, SetFault>
    requires { IsSoundSet (set_of set.now) }
{
    let indexed = index_set(alloc, set)?;
    if set.images.len() < 2 || !is_searched_in_depth(set.links) {
        return Err(SetFault::Memory);
    }
    if !lacks(alloc, set.links, &indexed, b"_m", steps)? {
        return Err(SetFault::Memory);
    }
    third_words(alloc, set, &indexed, b"_n", steps)
}
