// Where each image finds its streams and tables in a cache.
ghost use Rattle.std.specs.Prelude.{◌≡◌, ◌≤◌, ◌<◌, ◌+◌, ◌*◌, ◌^◌, length, slice_index_or, IfOk};
ghost use Rattle.dsc_base.specs.Limits.{span_limit};
ghost use Rattle.cache_layout.specs.Places.{numbered};
ghost use Rattle.linkedit_merge.specs.Linkedit as spec;
ghost use Rattle.linkedit_merge.specs.Sizes.{symbols_size, indirect_size};
ghost use Rattle.linkedit_merge.specs.Spots.{image_spots, spots_from, IsLow};

use crate::streams::StreamSpots;
use dsc_base::{NoMemory, REGION_START, Span, page_up};
use macho_edit::LinkSpots;
use macho_image::Moved;
use nlist_table::Tables;
use std::alloc::Global;

/// Where a linkedit starts in the file and how many bytes it has, and the ranges of the parts that all images
/// share.
#[derive(Clone, Copy)]
pub(crate) struct Frame {
    pub start: u64,
    pub size: u64,
    pub symbols: Span,
    pub indirect: Span,
    pub strings: Span,
}

/// So many bytes of a range, behind others in it; 0 and 0 for none.
fn within(whole: Span, before: u64, len: u64) -> Span
    requires { whole.at + before < 2 ^ 64 }
    ensures { result ≡ spec.within whole before len }
{
    if len == 0 {
        return Span { at: 0, len: 0 };
    }
    Span {
        at: whole.at + before,
        len,
    }
}

/// The spots of an image, by those of its streams and by how many bytes of each shared table belong to earlier
/// images.
#[tactic(auto, unfolding(crate::specs::Spots::image_spots))]
fn image_spots(
    frame: Frame,
    streams: StreamSpots,
    symbols_before: u64,
    indirect_before: u64,
    table: &Tables<'_>,
) -> LinkSpots
    requires low { IsLow frame }
    requires symbols { symbols_before + 16 * length table.now.symbols ≤ span_limit }
    requires indirect { indirect_before + 4 * length table.now.indirect ≤ span_limit }
    ensures { result ≡ image_spots frame streams symbols_before indirect_before table.now }
{
    let nothing = Span { at: 0, len: 0 };
    let symbols = 16 * table.symbols.len() as u64;
    let indirect = 4 * table.indirect.len() as u64;
    LinkSpots {
        linkedit: Moved {
            address: REGION_START + frame.start,
            file: frame.start,
        },
        vmsize: page_up(frame.size),
        filesize: frame.size,
        rebase: nothing,
        bind: streams.bind,
        lazy: streams.lazy,
        exports: streams.exports,
        function_starts: streams.function_starts,
        data_in_code: streams.data_in_code,
        symbols: within(frame.symbols, symbols_before, symbols),
        indirect: within(frame.indirect, indirect_before, indirect),
        strings: frame.strings,
        groups: table.groups,
    }
}

/// The spots of all images.
pub(crate) fn all_spots(
    alloc: Global,
    frame: Frame,
    streams: &[StreamSpots],
    tables: &[Tables<'_>],
) -> Result<Vec<LinkSpots>, NoMemory>
    requires low { IsLow frame }
    requires one_each { length tables.now ≡ length streams.now }
    requires symbols { symbols_size tables.now ≤ span_limit }
    requires indirect { indirect_size tables.now ≤ span_limit }
    ensures { IfOk result (λ v. v.items ≡ numbered (spots_from frame tables.now) streams.now) }
{
    let mut spots = Vec::with_capacity(alloc, streams.len())?;
    let mut symbols_before = 0;
    let mut indirect_before = 0;
    for (number, own) in streams.iter().enumerate() {
        let table = &tables[number];
        spots.push(image_spots(frame, *own, symbols_before, indirect_before, table))?;
        symbols_before += 16 * table.symbols.len() as u64;
        indirect_before += 4 * table.indirect.len() as u64;
    }
    Ok(spots)
}
