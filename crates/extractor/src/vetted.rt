// A cache that was vetted whole.
ghost use Rattle.std.specs.Prelude.{◌≡◌, ◌<◌, ℕ, List, All, None, position, IfOk};
ghost use Rattle.dsc_base.specs.Refusals.{RefusesView};
ghost use Rattle.macho_image.specs.Rules.{same_bytes};
ghost use Rattle.cache_check.specs.Shape.{data_mapping};
ghost use Rattle.cache_check.specs.Views.{view_of, view_finding};
ghost use Rattle.extractor.specs.Extracted.{AreExtracted};
ghost use Rattle.extractor.specs.Loads.{IsExtraction};
ghost use Rattle.extractor.specs.Placing.{data_start};
ghost use Rattle.extractor.specs.Vetting.{vet_finding};

use crate::free::free_words;
use crate::homes::are_bytes;
use crate::limits::check_sizes;
use crate::set::link_cached;
use crate::words::place_words;
use cache_check::CacheView;
use cache_header::{Mapping, TableImage};
use dep_closure::Links;
use dsc_base::ViewFault;
use macho_image::{Image, Location};
use prebind::ImageStreams;
use slide_chain::ChainWord;
use std::alloc::Global;
use std::marker::Model;

/// A cache of which nothing is found: none of `ImageBroken` to `ExtractTooLarge`. `images` are its images in
/// the order of its tables, `streams` what their streams spell and `links` what links them, which together are
/// a sound set; and `free` has of each image the words that slide and aren't bound, in address order.
#[derive(Drop)]
pub struct Vetted<'a> {
    pub view: &'a CacheView,
    pub images: Vec<Image<'a>>,
    pub streams: Vec<ImageStreams<'a>>,
    pub links: Links,
    pub free: Vec<Vec<Location>>,
}

impl<'a> Model for Vetted<'a> {
    ghost use Rattle.extractor.specs.Vets.{Parts};

    ghost Value = { Parts };

    ghost use Rattle.extractor.specs.Vets.{parts_of, IsVettedInside};

    ghost view = { parts_of };

    ghost invariant = { IsVettedInside };
}

/// Where the data of some mappings start in memory.
fn start_in(mappings: &[Mapping]) -> u64
    ensures { result ≡ (data_mapping mappings.now).address }
{
    match mappings {
        [_, writable, ..] => writable.address,
        _ => 0,
    }
}

/// Where the data of a cache start in memory.
fn data_start(view: &CacheView) -> u64
    ensures { result ≡ data_start view.now }
{
    start_in(&view.head.mappings)
}

/// The bytes of a cache at slide 0.
fn flat_of(view: &CacheView) -> &[u8]
    ensures { result.now ≡ view.entry.now.flat }
{
    view.flat.as_slice()
}

/// The words of a cache that slide.
fn words_of(view: &CacheView) -> &[ChainWord]
    ensures { result.now ≡ view.entry.now.words }
{
    view.words.as_slice()
}

/// The images of a cache's tables.
fn entries_of(view: &CacheView) -> &[TableImage]
    ensures { result.now ≡ view.entry.now.head.images }
{
    view.head.images.as_slice()
}

/// Vets a cache: it is one of which each image can be made a file of its own, in which all is as in the cache.
/// Time grows with the bytes, and with the names that are searched.
///
/// Refuses the first of these that holds, each tried of all images before the next: `ImageBroken` to
/// `StreamBroken`, as `CacheView::images` does; `LinkBroken` where the images break one of the rules from
/// `SetTooLarge` to `ReexportLoop` together, at the rule's number; `ChainOutside` where a word that slides isn't
/// wholly in one section of one image's segment of data with a number up to 15, overlaps a bind without being at
/// it, or its image has no dyld info, at its offset in the data; `PointerNotSymbol` where a bound word hasn't the
/// number to which its symbol leads, or slides where that is a constant, at the bind's index; `ForeignPointer`
/// where a word that slides and isn't bound leads out of its image, at its offset in the data; and
/// `ExtractTooLarge` where the linkedit of an image's file would have more than 0x40000000 bytes, at the offset of
/// the image's header. `Memory` says that memory ran out.
pub fn vet(alloc: Global, view: &CacheView) -> Result<Vetted<'_>, ViewFault>
    ensures view { IfOk result (λ v. v.view ≡ view.now) }
    ensures cause { RefusesView (vet_finding view.now) result }
{
    view.facts();
    are_bytes(flat_of(view));
    let images = view.images(alloc)?;
    let linked = link_cached(alloc, &images)?;
    let start = data_start(view);
    let words = words_of(view);
    let placed = place_words(alloc, &images, &linked, words, start)?;
    let free = free_words(alloc, &images, &placed.bounds, words, start, &placed.homes)?;
    check_sizes(alloc, entries_of(view), &images, words, start, &free)?;
    Ok(Vetted {
        view,
        images,
        streams: linked.streams,
        links: linked.links,
        free,
    })
}

/// Whether the path of an image in the tables is this one.
fn has_path(entry: &TableImage, path: &[u8]) -> bool
    ensures { result ≡ same_bytes path.now entry.now.path }
{
    path == entry.path.as_slice()
}

fn position_of(entries: &[TableImage], path: &[u8]) -> Option<usize>
    ensures { result ≡ position (λ e. same_bytes path.now e.path) entries.now }
{
    entries.iter().position(|entry| has_path(entry, path))
}

/// The number of the first image of a cache with a path.
fn number_in(view: &CacheView, path: &[u8]) -> Option<u32>
    ensures { result ≡ position (λ e. same_bytes path.now e.path) view.now.head.images }
{
    view.facts();
    match position_of(entries_of(view), path) {
        Some(number) => Some(number as u32),
        None => None,
    }
}

impl<'a> Vetted<'a> {
    /// The number of the first image whose path in the tables is this one; `None` where no image has it.
    pub fn number(&self, path: &[u8]) -> Option<u32>
        ensures { result ≡ position (λ e. same_bytes path.now e.path) self.now.view.head.images }
    {
        number_in(self.view, path)
    }

    /// Does nothing; its contract tells what the files are that `extract` makes of the images: each is a dylib
    /// that breaks no rule of its shape and binds and exports what its image in the cache does; and together
    /// their names lead where they do in the cache. Of a cache that this view is of, it tells that these files,
    /// loaded together, each at the same slide that the cache's header permits, have on each of their sections
    /// the bytes of the cache mapped at that slide.
    pub fn promise(&self)
        ensures files { AreExtracted self.now.view }
        ensures loads { (cache : List ℕ) → All (λ b. b < 256) cache → view_finding cache ≡ None → view_of cache ≡ self.now.view → IsExtraction cache }
    {
        let _ = &self.free;
    }
}
