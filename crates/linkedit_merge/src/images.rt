// The streams and tables of all images.
ghost use Rattle.std.specs.Prelude.{◌≡◌, ◌≤◌, ◌++◌, ◌^◌, None, map, length, slice_index_or, All, IfOk, IfErr, OnOk};
ghost use Rattle.std.specs.List.{flat_map};
ghost use Rattle.dsc_base.specs.Limits.{span_limit};
ghost use Rattle.dsc_base.specs.Numbers.{little_bytes};
ghost use Rattle.export_trie.specs.Order.{trie_break};
ghost use Rattle.export_trie.specs.Writing.{IsWritable};
ghost use Rattle.cache_layout.specs.Places.{numbered};
ghost use Rattle.linkedit_merge.specs.Parts.{end_behind, lens_of, joined_behind, spans_behind};
ghost use Rattle.linkedit_merge.specs.ReadBack.{AreTries};
ghost use Rattle.linkedit_merge.specs.Sizes as sizes;

use crate::exports::move_exports;
use crate::sizes::{SizeFault, with_entries};
use crate::streams::{StreamSpots, put_streams, streams_end};
use crate::tables::append_indices;
use cache_layout::Layout;
use dsc_base::{NoMemory, SPAN_LIMIT};
use export_trie::Export;
use macho_image::Image;
use nlist_table::Tables;
use std::alloc::Global;

/// The exports of all images after the moves of a layout.
pub(crate) fn move_all(
    alloc: Global,
    images: &[Image<'_>],
    layout: &Layout,
) -> Result<Vec<Vec<Export>>, NoMemory>
    requires few { length images.now ≤ 4097 }
    requires accepted { All (λ i. trie_break i.streams.exports ≡ None) images.now }
    requires one_each { length layout.now.moves ≡ length images.now }
    ensures moved { IfOk result (λ v. map (λ e. e.items) v.items ≡ numbered (sizes.moved_at layout.now.moves) images.now) }
    ensures writable { IfOk result (λ v. All (λ e. IsWritable e.items) v.items) }
{
    let mut exports = Vec::with_capacity(alloc, images.len())?;
    for (number, image) in images.iter().enumerate() {
        exports.push(move_exports(alloc, image, layout.moves(number as u32))?)?;
    }
    Ok(exports)
}

/// Where the streams of all images end.
pub(crate) fn streams_size(
    alloc: Global,
    images: &[Image<'_>],
    exports: &[Vec<Export>],
) -> Result<u64, SizeFault>
    requires one_each { length exports.now ≡ length images.now }
    requires writable { All (λ e. IsWritable e.items) exports.now }
    ensures size { IfOk result (sizes.IsSize span_limit (end_behind 0 (lens_of (sizes.all_streams (map (λ e. e.items) exports.now) images.now)))) }
    ensures cause { IfErr result (sizes.Exceeds span_limit (end_behind 0 (lens_of (sizes.all_streams (map (λ e. e.items) exports.now) images.now)))) }
{
    let mut end = 0;
    for (number, image) in images.iter().enumerate() {
        end = streams_end(alloc, end, &image.streams, &exports[number])?;
    }
    Ok(end)
}

/// How many bytes the entries of all symbol tables have.
pub(crate) fn symbols_size(tables: &[Tables<'_>]) -> Result<u64, SizeFault>
    ensures size { IfOk result (sizes.IsSize span_limit (sizes.symbols_size tables.now)) }
    ensures cause { IfErr result (sizes.Exceeds span_limit (sizes.symbols_size tables.now)) }
{
    let mut size = 0;
    for table in tables {
        size = with_entries(size, table.symbols.len(), 16, SPAN_LIMIT)?;
    }
    Ok(size)
}

/// How many bytes the entries of all indirect tables have.
pub(crate) fn indirect_size(tables: &[Tables<'_>]) -> Result<u64, SizeFault>
    ensures size { IfOk result (sizes.IsSize span_limit (sizes.indirect_size tables.now)) }
    ensures cause { IfErr result (sizes.Exceeds span_limit (sizes.indirect_size tables.now)) }
{
    let mut size = 0;
    for table in tables {
        size = with_entries(size, table.indirect.len(), 4, SPAN_LIMIT)?;
    }
    Ok(size)
}

/// Puts the streams of all images one behind the other; gives where those of each image stand.
pub(crate) fn put_all_streams(
    alloc: Global,
    out: &mut Vec<u8>,
    start: u64,
    images: &[Image<'_>],
    exports: &[Vec<Export>],
) -> Result<Vec<StreamSpots>, NoMemory>
    requires start { start ≤ 2 ^ 32 }
    requires one_each { length exports.now ≡ length images.now }
    requires writable { All (λ e. IsWritable e.items) exports.now }
    ensures bytes { OnOk result (out.new.items ≡ joined_behind out.old.items (sizes.all_streams (map (λ e. e.items) exports.now) images.now)) }
    ensures spots { IfOk result (λ v. flat_map sizes.spans_of v.items ≡ spans_behind start (length out.old.items) (lens_of (sizes.all_streams (map (λ e. e.items) exports.now) images.now))) }
    ensures many { IfOk result (λ v. length v.items ≡ length images.now) }
    ensures tries { OnOk result (AreTries (map (λ e. e.items) exports.now) (length images.now)) }
{
    let mut spots = Vec::with_capacity(alloc, images.len())?;
    for (number, image) in images.iter().enumerate() {
        spots.push(put_streams(alloc, out, start, &image.streams, &exports[number])?)?;
    }
    Ok(spots)
}

/// Appends the entries of all indirect tables.
pub(crate) fn append_all_indices(out: &mut Vec<u8>, tables: &[Tables<'_>]) -> Result<(), NoMemory>
    ensures { OnOk result (out.new.items ≡ out.old.items ++ flat_map (little_bytes 4) (flat_map (λ t. t.indirect) tables.now)) }
{
    for table in tables {
        append_indices(out, &table.indirect)?;
    }
    Ok(())
}
