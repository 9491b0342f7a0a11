// The exports of an image moved with its segments.
ghost use Rattle.std.specs.Prelude.{◌≡◌, length, map, None, IfOk};
ghost use Rattle.macho_image.specs.Index.{Indexes};
ghost use Rattle.macho_image.specs.Segments.{header_address};
ghost use Rattle.export_trie.specs.Exports.{exports_of};
ghost use Rattle.export_trie.specs.Order.{trie_break};
ghost use Rattle.export_trie.specs.Writing.{IsWritable};
ghost use Rattle.linkedit_merge.specs.Exports as spec;

use dsc_base::NoMemory;
use export_trie::{Export, Target};
use macho_image::{Image, Moves, Segment, SegmentIndex, header_address, text_number};
use prebind::read_exports;
use std::alloc::Global;

/// Where a segment starts after the moves; 0 for one that isn't there.
fn new_start(moves: &Moves, segment: usize) -> u64
    ensures { result ≡ spec.new_start moves.now segment }
{
    match moves.segments.get(segment) {
        Some(moved) => moved.address,
        None => 0,
    }
}

/// Where the header is after the moves.
#[tactic(auto, unfolding(crate::specs::Exports::new_header))]
fn new_header(segments: &[Segment<'_>], moves: &Moves) -> u64
    ensures { result ≡ spec.new_header segments.now moves.now }
{
    match text_number(segments) {
        Some(text) => new_start(moves, text),
        None => 0,
    }
}

/// Where the header of an image was and is.
#[derive(Clone, Copy)]
struct Header {
    old: u64,
    new: u64,
}

/// The offset that leads to the same byte after the moves.
#[tactic(auto, unfolding(crate::specs::Exports::moved_offset, macho_image::specs::Places::above))]
fn moved_offset(
    segments: &[Segment<'_>],
    index: &SegmentIndex,
    moves: &Moves,
    header: Header,
    offset: u64,
) -> u64
    requires index { Indexes segments.now index.now }
    requires old { header.old ≡ header_address segments.now }
    requires new { header.new ≡ spec.new_header segments.now moves.now }
    ensures { result ≡ spec.moved_offset segments.now moves.now offset }
{
    match index.find(header.old.wrapping_add(offset)) {
        Some(place) => new_start(moves, place.segment as usize)
            .wrapping_add(place.distance)
            .wrapping_sub(header.new),
        None => offset,
    }
}

/// Where an export leads after the moves.
fn moved_target(
    segments: &[Segment<'_>],
    index: &SegmentIndex,
    moves: &Moves,
    header: Header,
    target: Target,
) -> Target
    requires index { Indexes segments.now index.now }
    requires old { header.old ≡ header_address segments.now }
    requires new { header.new ≡ spec.new_header segments.now moves.now }
    ensures { result ≡ spec.moved_target segments.now moves.now target }
{
    match target {
        Target::Offset(offset) => {
            Target::Offset(moved_offset(segments, index, moves, header, offset))
        }
        kept => kept,
    }
}

/// An export after the moves.
fn moved_export(
    segments: &[Segment<'_>],
    index: &SegmentIndex,
    moves: &Moves,
    header: Header,
    export: Export,
) -> Export
    requires index { Indexes segments.now index.now }
    requires old { header.old ≡ header_address segments.now }
    requires new { header.new ≡ spec.new_header segments.now moves.now }
    ensures { result ≡ spec.moved_export segments.now moves.now export }
{
    Export {
        name: export.name,
        flags: export.flags,
        target: moved_target(segments, index, moves, header, export.target),
    }
}

/// All exports of an image after the moves.
fn move_each(
    alloc: Global,
    segments: &[Segment<'_>],
    index: &SegmentIndex,
    moves: &Moves,
    exports: Vec<Export>,
) -> Result<Vec<Export>, NoMemory>
    requires index { Indexes segments.now index.now }
    ensures { IfOk result (λ v. v.items ≡ spec.moved_exports segments.now moves.now exports.items) }
{
    let header = Header {
        old: header_address(segments),
        new: new_header(segments, moves),
    };
    let mut moved = Vec::with_capacity(alloc, exports.len())?;
    for export in exports {
        moved.push(moved_export(segments, index, moves, header, export))?;
    }
    Ok(moved)
}

/// The exports of an image whose segments go where the moves say: an offset leads to the same byte as
/// before, with the segment that has it. Names, flags, absolute values and re-exports are kept.
pub(crate) fn move_exports(
    alloc: Global,
    image: &Image<'_>,
    moves: &Moves,
) -> Result<Vec<Export>, NoMemory>
    requires { trie_break image.now.streams.exports ≡ None }
    ensures moved { IfOk result (λ v. v.items ≡ spec.moved_exports image.now.segments moves.now (exports_of image.now.streams.exports)) }
    ensures writable { IfOk result (λ v. IsWritable v.items) }
{
    let exports = read_exports(alloc, image.streams.exports)?;
    let index = SegmentIndex::new(alloc, image)?;
    let moved = move_each(alloc, &image.segments, &index, moves, exports)?;
    Ok(moved)
}
