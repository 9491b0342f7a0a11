// The streams and tables of a cache's images.
ghost use Rattle.std.specs.Prelude.{◌≡◌, ◌≤◌, not, nat_eq, length};
ghost use Rattle.dsc_base.specs.Refusals.{Refuses, RefusesView};
ghost use Rattle.bind_ops.specs.Weak.{weak_break};
ghost use Rattle.cache_check.specs.Images as spec;

use crate::finding::{found, rule_found};
use bind_ops::{StreamKind, check_weak, read_binds, words_clash};
use dsc_base::{Fault, FindingKind, Rule, ViewFault};
use export_trie::read_trie;
use macho_image::Image;
use nlist_table::read_tables;
use std::alloc::Global;

fn check_weak_binds(stream: &[u8]) -> Result<(), Fault>
    ensures { Refuses (weak_break stream.now) result }
{
    match check_weak(stream) {
        Ok(()) => Ok(()),
        Err(site) => Err(Fault::Broken(site)),
    }
}

/// Refuses the first rule that the streams and tables of an image without rebases break.
#[tactic(auto, unfolding(crate::specs::Images::linkedit_break))]
fn check_linkedit(alloc: Global, image: &Image<'_>) -> Result<(), Fault>
    ensures { Refuses (spec.linkedit_break image.now) result }
{
    let binds = read_binds(alloc, image.streams.bind, StreamKind::Bind, image)?;
    let lazy = read_binds(alloc, image.streams.lazy, StreamKind::Lazy, image)?;
    check_weak_binds(image.streams.weak)?;
    words_clash(alloc, &[], &binds, &lazy)?;
    read_trie(alloc, image.streams.exports)?;
    read_tables(alloc, image)?;
    Ok(())
}

/// Whether an image has a rebase stream.
fn is_rebased(image: &Image<'_>) -> bool
    ensures { result ≡ not (nat_eq (length image.now.streams.rebase) 0) }
{
    !image.streams.rebase.is_empty()
}

/// Refuses a rebase stream that isn't empty, and then what the other streams and the tables break.
fn check_image(alloc: Global, image: &Image<'_>, number: u32) -> Result<(), ViewFault>
    ensures { RefusesView (spec.stream_finding number image.now) result }
{
    if is_rebased(image) {
        let rule = Rule::RebaseBadUleb;
        return Err(found(FindingKind::StreamBroken, number, u64::from(rule.number())));
    }
    match check_linkedit(alloc, image) {
        Ok(()) => Ok(()),
        Err(fault) => Err(rule_found(FindingKind::StreamBroken, number, fault)),
    }
}

/// Refuses the first image with streams or tables that break a rule.
pub(crate) fn check_streams(alloc: Global, images: &[Image<'_>]) -> Result<(), ViewFault>
    requires { length images.now ≤ 4096 }
    ensures { RefusesView (spec.each_of spec.stream_finding 0 images.now) result }
{
    for (number, image) in images.iter().enumerate() {
        check_image(alloc, image, number as u32)?;
    }
    Ok(())
}
