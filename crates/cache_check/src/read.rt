// Reading a cache.
ghost use Rattle.std.specs.Prelude.{◌≡◌, ◌≤◌, ◌+◌, ◌++◌, None, length, map, take, drop, IfOk};
ghost use Rattle.std.specs.List.{range_with_len};
ghost use Rattle.dsc_base.specs.Refusals.{RefusesView};
ghost use Rattle.dsc_base.specs.declared.fault.Span.{Span};
ghost use Rattle.slide_chain.specs.Chains.{Suits, chain_words, chain_finding, slid_area};
ghost use Rattle.slide_chain.specs.Info.{info_read};
ghost use Rattle.cache_header.specs.Reading.{image_count};
ghost use Rattle.load_model.specs.Mapped.{cached_image};
ghost use Rattle.cache_check.specs.Images.{cached_images};
ghost use Rattle.cache_check.specs.Shape as shape;
ghost use Rattle.cache_check.specs.Views as spec;

use crate::CacheView;
use crate::shape::{check_shape, data_mapping};
use cache_header::{CacheHead, read_cache_head};
use dsc_base::{NoMemory, Span, ViewFault};
use slide_chain::{ChainWord, SlideInfo, read_chains, read_slide_info, unslide};
use std::alloc::Global;

/// The bytes of a range.
fn range_of<'a>(bytes: &'a [u8], range: Span) -> &'a [u8]
    requires { range.at + range.len ≤ length bytes.now }
    ensures { result.now ≡ take range.len (drop range.at bytes.entry.now) }
{
    let start = range.at as usize;
    &bytes[start..start + range.len as usize]
}

/// Where the data stand in a cache.
fn data_range(head: &CacheHead) -> Span
    requires { length head.now.mappings ≡ 3 }
    ensures { result ≡ record { at = (shape.data_mapping head.now.mappings).file; len = (shape.data_mapping head.now.mappings).size } }
{
    let data = data_mapping(head);
    Span {
        at: data.file,
        len: data.size,
    }
}

/// The slide information of a cache and its chain words.
///
/// Refuses `SlideInfoShape` to `ChainsOverlap`.
#[tactic(auto, unfolding(crate::specs::Views::slide_finding))]
fn read_words(
    alloc: Global,
    cache: &[u8],
    head: &CacheHead,
) -> Result<(SlideInfo, Vec<ChainWord>), ViewFault>
    requires shaped { shape.shape_finding (length cache.now) head.now ≡ None }
    ensures info { IfOk result (λ r. r.0 ≡ info_read (spec.slide_bytes head.now cache.now)) }
    ensures words { IfOk result (λ r. r.1.items ≡ chain_words (info_read (spec.slide_bytes head.now cache.now)) (spec.data_bytes head.now cache.now)) }
    ensures suits { IfOk result (λ r. Suits (info_read (spec.slide_bytes head.now cache.now)) (spec.data_bytes head.now cache.now)) }
    ensures cause { RefusesView (spec.slide_finding head.now cache.now) result }
{
    let range = data_range(head);
    let info = read_slide_info(alloc, range_of(cache, head.slide_info), range.len)?;
    let words = read_chains(alloc, &info, range_of(cache, range))?;
    Ok((info, words))
}

/// Sets the data in a range to what they are at slide 0.
fn unslide_range(bytes: &mut [u8], range: Span, info: &SlideInfo)
    requires inside { range.at + range.len ≤ length bytes.old }
    requires suits { Suits info.now (take range.len (drop range.at bytes.old)) }
    requires sound { chain_finding info.now (take range.len (drop range.at bytes.old)) ≡ None }
    ensures { bytes.new ≡ take range.at bytes.old ++ (slid_area info.now 0 (take range.len (drop range.at bytes.old)) ++ drop (range.at + range.len) bytes.old) }
{
    let start = range.at as usize;
    unslide(&mut bytes[start..start + range.len as usize], info);
}

/// The bytes of a cache as they are mapped at slide 0, in file order.
#[tactic(auto, unfolding(crate::specs::Views::flat_with))]
fn flatten(
    alloc: Global,
    cache: &[u8],
    head: &CacheHead,
    info: &SlideInfo,
) -> Result<Vec<u8>, NoMemory>
    requires shaped { shape.shape_finding (length cache.now) head.now ≡ None }
    requires suits { Suits info.now (spec.data_bytes head.now cache.now) }
    requires sound { chain_finding info.now (spec.data_bytes head.now cache.now) ≡ None }
    ensures { IfOk result (λ v. v.items ≡ spec.flat_with info.now head.now cache.now) }
{
    let mut flat = Vec::from_slice(alloc, cache)?;
    unslide_range(&mut flat, data_range(head), info);
    Ok(flat)
}

/// Reads a cache: its head, its slide information, the words that slide, and its bytes as they are mapped at
/// slide 0. Time is linear in the file's length, and so is memory. The format is that of
/// `dyld_cache_format.h`.
///
/// Refuses the first of these that holds, in this order: `NotCache` to `NameNotPlain` of the head, as
/// `read_cache_head` does; `MappingShape` where the mappings aren't text, data and linkedit of whole pages, one
/// behind the other from the shared region's start on and together the file, where they exceed 0x20000000
/// bytes, or where the greatest slide leads out of the region; `SlideInfoShape` where slide information isn't in the linkedit mapping or
/// isn't of version 2, of pages of 4096 bytes, with a start for each page of the data and both arrays inside; `MaskShape` where its mask isn't
/// one run of ones from bit 2 or above; and of the chains `ExtrasEnd`, `ChainLeavesPage` and `ChainsOverlap`, as `read_chains` does.
/// `Memory` says that memory ran out.
#[tactic(auto, unfolding(crate::specs::Views::view_finding))]
pub fn read_cache(alloc: Global, cache: &[u8]) -> Result<CacheView, ViewFault>
    ensures view { IfOk result (λ v. v ≡ spec.view_of cache.now) }
    // Its images are those that the cache has where it is mapped.
    ensures images { IfOk result (λ v. cached_images v ≡ map (cached_image cache.now) (range_with_len 0 (image_count cache.now))) }
    ensures cause { RefusesView (spec.view_finding cache.now) result }
{
    let head = read_cache_head(alloc, cache)?;
    check_shape(&head, cache.len() as u64)?;
    let (info, words) = read_words(alloc, cache, &head)?;
    let flat = flatten(alloc, cache, &head, &info)?;
    Ok(CacheView {
        head,
        info,
        words,
        flat,
    })
}
