// A cache checked against files.
ghost use Rattle.std.specs.Prelude.{◌≡◌, ◌≤◌, length, IfOk};
ghost use Rattle.dsc_base.specs.Refusals.{RefusesSet};
ghost use Rattle.load_model.specs.Phases.{contents, files_break};
ghost use Rattle.prebind.specs.Sets.{image_set};
ghost use Rattle.prebind.specs.Steps.{set_of};
ghost use Rattle.load_model.specs.Placed.{AreAllPlaced};
ghost use Rattle.cache_check.specs.Agreeing.{CorrespondsEverywhere};
ghost use Rattle.cache_check.specs.declared.verdict.Verdict.TheVariants.{Agrees};
ghost use Rattle.cache_check.specs.Images.{images_finding};
ghost use Rattle.cache_check.specs.Steps.Files.{AreRead, HaveTries, file_set};
ghost use Rattle.cache_check.specs.Steps.Sides.{chain_view};
ghost use Rattle.cache_check.specs.Verdict as spec;

use crate::chains::Chains;
use crate::comparing::{compare_counts, compare_paths};
use crate::differing::compare_images;
use crate::plain::{are_bytes, files_are_bytes};
use crate::sides::chains_of;
use crate::{CacheView, Difference, Verdict, read_cache};
use cache_header::TableImage;
use dsc_base::{NoMemory, SetFault, ViewFault};
use load_model::{FileSet, read_files};
use macho_image::Image;
use prebind::{PlacedWord, Set};
use std::alloc::Global;

/// The set that files make.
fn set_of<'s, 'a>(files: &'s FileSet<'a>) -> Set<'s, 'a>
    ensures { set_of result ≡ file_set files.entry.now }
{
    Set {
        images: &files.images,
        streams: &files.streams,
        links: &files.links,
    }
}

/// The first way in which a cache with these paths and images differs from a set of files.
fn compare(
    alloc: Global,
    entries: &[TableImage],
    chains: Chains<'_>,
    images: &[Image<'_>],
    set: &Set<'_, '_>,
    words: &[Vec<PlacedWord>],
) -> Result<Option<Difference>, NoMemory>
    requires few { length entries.now ≤ 4096 }
    requires same { length images.now ≡ length entries.now }
    requires found { HaveTries images.now }
    requires wanted { HaveTries set.now.images.now }
    requires files { length set.now.images.now ≤ 4096 }
    requires streams { length set.now.streams.now ≡ length set.now.images.now }
    requires placed { AreAllPlaced (set_of set.now) words.now }
    ensures { IfOk result (λ d. d ≡ spec.difference_by entries.now (chain_view chains.entry) images.now (set_of set.now)) }
{
    let wanted = set.images;
    if let Some(count) = compare_counts(entries.len() as u32, wanted.len() as u32) {
        return Ok(Some(count));
    }
    if let Some(path) = compare_paths(alloc, entries, wanted)? {
        return Ok(Some(path));
    }
    let found = compare_images(alloc, chains, images, set, words)?;
    Ok(found)
}

/// What comes of checking a cache that was read.
fn check_view(alloc: Global, view: &CacheView, files: &FileSet<'_>) -> Result<Verdict, NoMemory>
    requires read { AreRead files.now }
    ensures { IfOk result (λ v. v ≡ spec.verdict_by (images_finding view.now) (spec.difference_of view.now (image_set files.now.images.items))) }
{
    let images = match view.images(alloc) {
        Ok(images) => images,
        Err(ViewFault::Broken(finding)) => return Ok(Verdict::Broken(finding)),
        Err(ViewFault::Memory) => return Err(NoMemory),
    };
    view.facts();
    let entries = view.head.images.as_slice();
    let set = set_of(files);
    match compare(alloc, entries, chains_of(view), &images, &set, &files.words)? {
        Some(difference) => Ok(Verdict::Differs(difference)),
        None => Ok(Verdict::Agrees),
    }
}

/// Checks a cache against files: whether each image, in the order of the files, is the file's dylib moved,
/// with each of its words leading to where it leads in the file and all its other bytes the same.
///
/// `Broken` tells what is wrong with the cache itself, as `read_cache` and then `CacheView::images` tell it. Else
/// `Differs` tells the first difference, in this order: the number of images; the paths; and of one image after
/// the other its shape, then its sections by rising offset, and then its exports. At a word that leads to a place
/// and is an address, a word of the cache has to slide that is the place's address; at one that is a constant, none
/// slides and the number has to be that constant; at a difference or an offset from the header, the number has to
/// lead to the same place. No other word of a section slides, and each other byte is the file's. Exports are
/// compared where they lead. Time is linear in the bytes of the cache and the files, but for sorting words and
/// finding them by their addresses.
///
/// Refuses files that break a rule, with the first rule that they break, as `read_files` does, before anything of
/// the cache is told. `Memory` says that memory ran out.
#[tactic(auto, unfolding(crate::specs::Verdict::verdict_of, crate::specs::Verdict::finding_of))]
pub fn check(alloc: Global, cache: &[u8], files: &[Vec<u8>]) -> Result<Verdict, SetFault>
    requires few { length files.now ≤ 4096 }
    ensures verdict { IfOk result (λ v. v ≡ spec.verdict_of cache.now (contents files.now)) }
    ensures cause { RefusesSet (files_break (contents files.now)) result }
    // A cache that agrees corresponds to the files, wherever they are loaded and at every slide that its header permits.
    ensures agrees { IfOk result (λ v. v ≡ Agrees → CorrespondsEverywhere (contents files.now) cache.now) }
{
    are_bytes(cache);
    files_are_bytes(files);
    let set = match read_files(alloc, files) {
        Ok(set) => set,
        Err(fault) => return Err(fault),
    };
    let view = match read_cache(alloc, cache) {
        Ok(view) => view,
        Err(ViewFault::Broken(finding)) => return Ok(Verdict::Broken(finding)),
        Err(ViewFault::Memory) => return Err(SetFault::Memory),
    };
    match check_view(alloc, &view, &set) {
        Ok(verdict) => Ok(verdict),
        Err(NoMemory) => Err(SetFault::Memory),
    }
}
