// The images of a cache linked into a set.
ghost use Rattle.std.specs.Prelude.{◌≡◌, ◌≤◌, None, map, length, option_map, IfOk, OnOk};
ghost use Rattle.dsc_base.specs.Refusals.{RefusesSet, RefusesView};
ghost use Rattle.dep_closure.specs.Breaks.{link_break};
ghost use Rattle.dep_closure.specs.Linked.{links_of};
ghost use Rattle.prebind.specs.Sets.{IsSoundSet};
ghost use Rattle.extractor.specs.Bound.{AreAllBound};
ghost use Rattle.extractor.specs.Faults.{in_cache};
ghost use Rattle.extractor.specs.Reading.{AreRead};
ghost use Rattle.extractor.specs.Vetting as spec;

use crate::links::read_all;
use crate::symbols::place_all;
use dep_closure::{Links, link_set};
use dsc_base::{Finding, FindingKind, SetFault, ViewFault};
use load_model::check_all_exports;
use macho_image::Image;
use prebind::{ImageStreams, PlacedWord, Set};
use std::alloc::Global;

/// What makes images of a cache a set, and the bound words of each in the order of its binds, with where they
/// lead.
#[derive(Drop)]
pub(crate) struct LinkedImages<'a> {
    pub streams: Vec<ImageStreams<'a>>,
    pub links: Links,
    pub words: Vec<Vec<PlacedWord>>,
}

/// The bound words of each image, or the first export that leads nowhere, or the first bind that breaks a rule.
#[tactic(auto, unfolding(crate::specs::Vetting::symbols_break))]
fn place_set(
    alloc: Global,
    images: &[Image<'_>],
    streams: &[ImageStreams<'_>],
    links: &Links,
) -> Result<Vec<Vec<PlacedWord>>, SetFault>
    requires sound { IsSoundSet (record { images = images.now; streams = streams.now; links = links.now }) }
    ensures placed { IfOk result (λ v. AreAllBound (record { images = images.now; streams = streams.now; links = links.now }) v.items) }
    ensures cause { RefusesSet (spec.symbols_break (record { images = images.now; streams = streams.now; links = links.now })) result }
{
    let set = Set {
        images,
        streams,
        links,
    };
    check_all_exports(alloc, &set)?;
    let words = place_all(alloc, &set)?;
    Ok(words)
}

/// The set that images of a cache make, or the first rule that they break together.
fn link_images<'a>(alloc: Global, images: &[Image<'a>]) -> Result<LinkedImages<'a>, SetFault>
    requires few { length images.now ≤ 4096 }
    requires read { AreRead images.now }
    ensures streams { IfOk result (λ s. s.streams.items ≡ map spec.cached_lists images.now) }
    ensures links { IfOk result (λ s. s.links ≡ links_of images.now) }
    ensures words { IfOk result (λ s. AreAllBound (spec.cached_set images.now) s.words.items) }
    ensures sound { OnOk result (link_break images.now ≡ None) }
    ensures cause { RefusesSet (spec.set_break images.now) result }
{
    let streams = match read_all(alloc, images) {
        Ok(streams) => streams,
        Err(fault) => return Err(fault),
    };
    let links = match link_set(alloc, images) {
        Ok(links) => links,
        Err(fault) => return Err(fault),
    };
    let words = match place_set(alloc, images, &streams, &links) {
        Ok(words) => words,
        Err(fault) => return Err(fault),
    };
    Ok(LinkedImages {
        streams,
        links,
        words,
    })
}

/// A rule that an image of the set breaks as a finding, at the rule's number.
fn break_found(fault: SetFault) -> ViewFault
    ensures { result ≡ in_cache fault }
{
    match fault {
        SetFault::Broken(b) => ViewFault::Broken(Finding {
            kind: FindingKind::LinkBroken,
            image: b.image,
            at: u64::from(b.rule.number()),
        }),
        SetFault::Memory => ViewFault::Memory,
    }
}

/// The set that the images of a cache make. Refuses the first rule that they break together as `LinkBroken`, at
/// the rule's number.
#[tactic(auto, unfolding(crate::specs::Vetting::link_finding))]
pub(crate) fn link_cached<'a>(
    alloc: Global,
    images: &[Image<'a>],
) -> Result<LinkedImages<'a>, ViewFault>
    requires few { length images.now ≤ 4096 }
    requires read { AreRead images.now }
    ensures streams { IfOk result (λ s. s.streams.items ≡ map spec.cached_lists images.now) }
    ensures links { IfOk result (λ s. s.links ≡ links_of images.now) }
    ensures words { IfOk result (λ s. AreAllBound (spec.cached_set images.now) s.words.items) }
    ensures sound { OnOk result (link_break images.now ≡ None) }
    ensures cause { RefusesView (spec.link_finding images.now) result }
{
    match link_images(alloc, images) {
        Ok(linked) => Ok(linked),
        Err(fault) => Err(break_found(fault)),
    }
}
