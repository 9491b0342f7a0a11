// The merged linkedit of a set of images.
ghost use Rattle.std.specs.Prelude.{◌≡◌, ◌≤◌, ◌+◌, ◌++◌, ◌∷◌, [], None, map, length, All, IfOk, IfErr, OnOk};
ghost use Rattle.std.specs.List.{flat_map};
ghost use Rattle.dsc_base.specs.Limits.{span_limit};
ghost use Rattle.dsc_base.specs.Refusals.{RefusesSet};
ghost use Rattle.export_trie.specs.Order.{trie_break};
ghost use Rattle.dsc_base.specs.Numbers.{little_bytes};
ghost use Rattle.export_trie.specs.Writing.{IsWritable};
ghost use Rattle.cache_layout.specs.Layouts.{layout_of, layout_break};
ghost use Rattle.prebind.specs.Agree.{HaveExportsInside};
ghost use Rattle.prebind.specs.Sets.{IsSoundSet};
ghost use Rattle.prebind.specs.Steps.{set_of};
ghost use Rattle.linkedit_merge.specs.Conditions.{HaveTables, HaveMoves};
ghost use Rattle.linkedit_merge.specs.Indices.{names_of, pool_len, IsPool};
ghost use Rattle.linkedit_merge.specs.Linkedit as spec;
ghost use Rattle.linkedit_merge.specs.Parts.{joined, end_behind, lens_of, span_behind, spans_behind};
ghost use Rattle.linkedit_merge.specs.Pool.{pool_bytes};
ghost use Rattle.linkedit_merge.specs.ReadBack.{AllReadBack, AreTries, HaveMovedTries};
ghost use Rattle.linkedit_merge.specs.Shares.{shares_of};
ghost use Rattle.linkedit_merge.specs.Sizes as size;
ghost use Rattle.linkedit_merge.specs.Spots.{IsLow};
ghost use Rattle.linkedit_merge.specs.Written.{IsWritten};

use crate::fields::read_fields;
use crate::images::{indirect_size, move_all, put_all_streams, streams_size, symbols_size};
use crate::merged::{put_indices, put_pool, put_symbols};
use crate::pool::{Pool, pool_of_all};
use crate::sizes::{SizeFault, end_behind, too_large};
use crate::spots::{Frame, all_spots};
use crate::streams::StreamSpots;
use cache_layout::Layout;
use dsc_base::{NoMemory, SPAN_LIMIT, SetFault, page_up};
use export_trie::Export;
use macho_edit::LinkSpots;
use macho_image::Image;
use nlist_table::Tables;
use prebind::Set;
use std::alloc::Global;

/// How many bytes the entries of all symbol tables have, those of all indirect tables, and the linkedit.
#[derive(Clone, Copy)]
pub(crate) struct Sizes {
    pub symbols: u64,
    pub indirect: u64,
    pub whole: u64,
}

/// The sizes of a linkedit, before any of it is written.
pub(crate) fn measure(
    alloc: Global,
    images: &[Image<'_>],
    exports: &[Vec<Export>],
    tables: &[Tables<'_>],
    pool_len: u64,
) -> Result<Sizes, SizeFault>
    requires one_each { length exports.now ≡ length images.now }
    requires writable { All (λ e. IsWritable e.items) exports.now }
    ensures symbols { IfOk result (λ s. size.IsSize span_limit (size.symbols_size tables.now) s.symbols) }
    ensures indirect { IfOk result (λ s. size.IsSize span_limit (size.indirect_size tables.now) s.indirect) }
    ensures whole { IfOk result (λ s. size.IsSize span_limit (size.whole_size (map (λ e. e.items) exports.now) images.now tables.now pool_len) s.whole) }
    ensures cause { IfErr result (size.Exceeds span_limit (size.whole_size (map (λ e. e.items) exports.now) images.now tables.now pool_len)) }
{
    let symbols = symbols_size(tables)?;
    let indirect = indirect_size(tables)?;
    let streams = streams_size(alloc, images, exports)?;
    let whole = end_behind(streams, &[symbols, indirect, pool_len], SPAN_LIMIT)?;
    Ok(Sizes {
        symbols,
        indirect,
        whole,
    })
}

/// A linkedit, where the streams of each image stand in the file, and where its parts for all images do.
#[derive(Drop)]
pub(crate) struct Written {
    pub bytes: Vec<u8>,
    pub streams: Vec<StreamSpots>,
    pub frame: Frame,
}

/// Writes a linkedit that has these sizes and starts at a place in the file. Its bytes are allocated once.
fn write(
    alloc: Global,
    start: u64,
    sizes: Sizes,
    images: &[Image<'_>],
    exports: &[Vec<Export>],
    tables: &[Tables<'_>],
    layout: &Layout,
    pool: &Pool<'_>,
) -> Result<Written, NoMemory>
    requires start { start ≤ span_limit }
    requires whole { sizes.whole ≤ span_limit }
    requires symbols { size.IsSize span_limit (size.symbols_size tables.now) sizes.symbols }
    requires indirect { size.IsSize span_limit (size.indirect_size tables.now) sizes.indirect }
    requires one_each { length exports.now ≡ length images.now }
    requires writable { All (λ e. IsWritable e.items) exports.now }
    requires few { length images.now ≤ 4097 }
    requires tables { HaveTables images.now tables.now }
    requires moves { HaveMoves images.now layout.now.moves }
    requires pool { IsPool span_limit pool.now }
    ensures low { IfOk result (λ w. IsLow w.frame) }
    ensures tries { OnOk result (AreTries (map (λ e. e.items) exports.now) (length images.now)) }
    ensures written { IfOk result (IsWritten start sizes.whole (length images.now) (size.all_streams (map (λ e. e.items) exports.now) images.now) (spec.tables_in (names_of pool.now) (shares_of images.now tables.now layout.now.moves))) }
{
    let mut bytes = Vec::with_capacity(alloc, sizes.whole as usize)?;
    let streams = put_all_streams(alloc, &mut bytes, start, images, exports)?;
    let symbols = put_symbols(
        &mut bytes,
        start,
        sizes.symbols,
        pool,
        images,
        tables,
        layout,
    )?;
    let indirect = put_indices(&mut bytes, start, sizes.indirect, tables)?;
    let strings = put_pool(&mut bytes, start, pool)?;
    let frame = Frame {
        start,
        size: sizes.whole,
        symbols,
        indirect,
        strings,
    };
    Ok(Written {
        bytes,
        streams,
        frame,
    })
}

/// Where the linkedit starts in the file, behind so many bytes of slide information.
#[tactic(auto, unfolding(crate::specs::Linkedit::linkedit_start))]
fn linkedit_start(layout: &Layout, slide_size: u64) -> u64
    requires segments { layout.now.fixed.at + layout.now.fixed.len ≤ span_limit }
    requires slide { slide_size ≤ span_limit }
    ensures start { result ≡ spec.linkedit_start layout.now slide_size }
    ensures low { result ≤ 0x4000_1000 }
{
    let fixed = layout.fixed();
    page_up(fixed.at + fixed.len + slide_size)
}

/// The merged linkedit of images, and where each of them finds its parts.
fn merge_images(
    alloc: Global,
    images: &[Image<'_>],
    tables: &[Tables<'_>],
    layout: &Layout,
    slide_size: u64,
) -> Result<(Vec<u8>, Vec<LinkSpots>), SetFault>
    requires few { length images.now ≤ 4097 }
    requires accepted { All (λ i. trie_break i.streams.exports ≡ None) images.now }
    requires tables { HaveTables images.now tables.now }
    requires moves { HaveMoves images.now layout.now.moves }
    requires segments { layout.now.fixed.at + layout.now.fixed.len ≤ span_limit }
    requires slide { slide_size ≤ span_limit }
    ensures bytes { IfOk result (λ r. r.0.items ≡ spec.linkedit_of (shares_of images.now tables.now layout.now.moves)) }
    ensures spots { IfOk result (λ r. r.1.items ≡ spec.spots_of (spec.linkedit_start layout.now slide_size) (shares_of images.now tables.now layout.now.moves)) }
    ensures cause { RefusesSet (spec.merge_break layout.now slide_size (shares_of images.now tables.now layout.now.moves)) result }
    ensures read_back { IfOk result (λ r. AllReadBack (spec.linkedit_start layout.now slide_size) r.0.items (shares_of images.now tables.now layout.now.moves) r.1.items) }
    ensures exports { OnOk result (HaveMovedTries images.now layout.now.moves) }
{
    read_fields(tables);
    let exports = move_all(alloc, images, layout)?;
    let pool = pool_of_all(alloc, tables, SPAN_LIMIT)?;
    let sizes = measure(alloc, images, &exports, tables, pool.len)?;
    let start = linkedit_start(layout, slide_size);
    if start + page_up(sizes.whole) > SPAN_LIMIT {
        return Err(SetFault::Broken(too_large()));
    }
    let written = write(alloc, start, sizes, images, &exports, tables, layout, &pool)?;
    let spots = all_spots(alloc, written.frame, &written.streams, tables)?;
    Ok((written.bytes, spots))
}

/// The linkedit of a cache of a set: of each image its bind stream, lazy stream, export trie, function starts
/// and data in code, then the symbols of all images without stabs, then their indirect tables, then a pool
/// of their names, after `mach-o/loader.h` and `mach-o/nlist.h` of Apple's published sources. Each part stands at the
/// next multiple of 8. Offsets of exports and values of symbols move with their segments. With it come the spots
/// of each image, in bytes from the start of the cache's file. `slide_size` is the size in bytes of the
/// slide information that stands before the linkedit.
///
/// No export lies outside of the segments or in `__LINKEDIT`, `tables` has what `read_tables` gives of each
/// image, and `layout` what `lay_out` gives of all.
///
/// `LinkeditTooLarge` of image 0, at `SPAN_LIMIT`, says that the cache would span more than that; sizes alone tell it, so no
/// bytes of a linkedit are allocated before. `Memory` says that memory ran out. Time and memory are in proportion to the bytes of the
/// streams, the tables and the names.
pub fn merge(
    alloc: Global,
    set: &Set<'_, '_>,
    tables: &[Tables<'_>],
    layout: &Layout,
    slide_size: u64,
) -> Result<(Vec<u8>, Vec<LinkSpots>), SetFault>
    requires sound { IsSoundSet (set_of set.now) }
    requires inside { HaveExportsInside (set_of set.now) }
    requires tables { HaveTables set.now.images.now tables.now }
    requires layout { layout.now ≡ layout_of set.now.images.now }
    requires fits { layout_break set.now.images.now ≡ None }
    ensures bytes { IfOk result (λ r. r.0.items ≡ spec.linkedit_of (shares_of set.now.images.now tables.now layout.now.moves)) }
    ensures spots { IfOk result (λ r. r.1.items ≡ spec.spots_of (spec.linkedit_start layout.now slide_size) (shares_of set.now.images.now tables.now layout.now.moves)) }
    ensures cause { RefusesSet (spec.merge_break layout.now slide_size (shares_of set.now.images.now tables.now layout.now.moves)) result }
    // By its spots each image finds its own streams, and its tables with moved values.
    ensures read_back { IfOk result (λ r. AllReadBack (spec.linkedit_start layout.now slide_size) r.0.items (shares_of set.now.images.now tables.now layout.now.moves) r.1.items) }
    // Each trie is accepted, and its exports are the moved ones.
    ensures exports { OnOk result (HaveMovedTries set.now.images.now layout.now.moves) }
{
    if slide_size > SPAN_LIMIT {
        return Err(SetFault::Broken(too_large()));
    }
    merge_images(alloc, set.images, tables, layout, slide_size)
}
