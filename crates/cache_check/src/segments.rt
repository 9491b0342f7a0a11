// Where the segments of a cache's images lie.
ghost use Rattle.std.specs.Prelude.{◌≡◌, ◌≤◌, ◌++◌, ◌/◌, List, [], true, position, length};
ghost use Rattle.std.specs.List.{list_any};
ghost use Rattle.dsc_base.specs.Limits.{span_limit};
ghost use Rattle.dsc_base.specs.Refusals.{RefusesView};
ghost use Rattle.macho_image.specs.Records.{Seg};
ghost use Rattle.cache_check.specs.Shape as shape;
ghost use Rattle.cache_check.specs.Images as spec;
ghost use Rattle.cache_check.specs.Steps.Pages as pages;

use crate::finding::found;
use cache_header::Mapping;
use dsc_base::{FindingKind, PAGE, REGION_START, ViewFault};
use macho_image::{Image, Segment};
use std::alloc::Global;

/// Whether a segment's addresses are in a mapping of its protection, with its bytes at the same distance.
fn is_within(segment: &Segment<'_>, mapping: &Mapping) -> bool
    ensures { result ≡ spec.is_within segment.now mapping.now }
{
    mapping.init_prot == segment.initprot
        && mapping.address <= segment.vmaddr
        && u128::from(segment.vmaddr) + u128::from(segment.vmsize)
            <= u128::from(mapping.address) + u128::from(mapping.size)
        && u128::from(segment.fileoff)
            == u128::from(mapping.file) + u128::from(segment.vmaddr - mapping.address)
}

/// Whether one of some mappings is of this kind.
fn is_within_any(segment: &Segment<'_>, mappings: &[Mapping]) -> bool
    ensures { result ≡ list_any (spec.is_within segment.now) mappings.now }
{
    mappings.iter().any(|mapping| is_within(segment, mapping))
}

/// Whether a segment is in the mapping of its protection, with a byte of the file for each address.
#[tactic(auto, unfolding(crate::specs::Images::is_placed))]
fn is_placed(mappings: &[Mapping], segment: &Segment<'_>) -> bool
    ensures { result ≡ spec.is_placed mappings.now segment.now }
{
    is_within_any(segment, mappings) && segment.filesize == segment.vmsize
}

/// Of so many pages from the region's start on, the first one in which a segment lies and the one behind the
/// last.
#[tactic(auto, unfolding(crate::specs::Steps::Pages::first_page, crate::specs::Steps::Pages::end_page))]
fn page_range(segment: &Segment<'_>, count: usize) -> (usize, usize)
    ensures first { result.0 ≡ pages.first_page count segment.now }
    ensures end { result.1 ≡ pages.end_page count segment.now }
    ensures order { result.0 ≤ result.1 }
    ensures within { result.1 ≤ count }
{
    let start = segment.vmaddr.saturating_sub(REGION_START) / PAGE;
    let above = u128::from(segment.vmaddr) + u128::from(segment.vmsize);
    let above = above.saturating_sub(u128::from(REGION_START));
    let end = (above + u128::from(PAGE - 1)) / u128::from(PAGE);
    (
        start.min(count as u64) as usize,
        end.min(count as u128) as usize,
    )
}

/// Whether a page of a segment is marked.
#[tactic(auto, unfolding(crate::specs::Steps::Pages::is_marked))]
fn is_marked(marks: &[bool], segment: &Segment<'_>) -> bool
    ensures { result ≡ pages.is_marked marks.now segment.now }
{
    let (first, end) = page_range(segment, marks.len());
    marks[first..end].iter().any(|mark| *mark)
}

/// Marks the pages of a segment.
#[tactic(auto, unfolding(crate::specs::Steps::Pages::marked))]
fn mark(marks: &mut [bool], segment: &Segment<'_>)
    ensures { marks.new ≡ pages.marked marks.old segment.now }
{
    let (first, end) = page_range(segment, marks.len());
    marks[first..end].fill(true);
}

/// Marks the pages of all segments.
fn mark_all(marks: &mut [bool], segments: &[Segment<'_>])
    requires { pages.AreAligned segments.now }
    ensures marked { (earlier : List Seg) → pages.AreMarked marks.old earlier → pages.AreMarked marks.new (earlier ++ segments.now) }
    ensures count { length marks.new ≡ length marks.old }
{
    for segment in segments {
        mark(marks, segment);
    }
}

/// Whether a segment besides `__LINKEDIT` isn't placed, or lies in a marked page.
#[tactic(auto, unfolding(crate::specs::Steps::Pages::is_taken))]
fn is_taken(mappings: &[Mapping], marks: &[bool], segment: &Segment<'_>) -> bool
    ensures { result ≡ pages.is_taken mappings.now marks.now segment.now }
{
    !segment.is_linkedit() && (!is_placed(mappings, segment) || is_marked(marks, segment))
}

/// The number of the first such segment.
fn first_taken(mappings: &[Mapping], marks: &[bool], segments: &[Segment<'_>]) -> Option<usize>
    ensures { result ≡ position (pages.is_taken mappings.now marks.now) segments.now }
{
    segments
        .iter()
        .position(|segment| is_taken(mappings, marks, segment))
}

/// Refuses the first image with a segment that isn't placed or shares an address with one of an earlier image,
/// where there is a mark for each page and none is set.
fn check_each(
    mappings: &[Mapping],
    images: &[Image<'_>],
    size: u64,
    marks: &mut [bool],
) -> Result<(), ViewFault>
    requires few { length images.now ≤ 4096 }
    requires mapped { shape.are_three size mappings.now ≡ true }
    requires count { length marks.old ≡ size / 4096 }
    requires unset { pages.AreMarked marks.old [] }
    ensures { RefusesView (spec.each_of (spec.segment_finding mappings.now images.now) 0 images.now) result }
{
    for (number, image) in images.iter().enumerate() {
        if let Some(at) = first_taken(mappings, marks, &image.segments) {
            return Err(found(FindingKind::SegmentOutside, number as u32, at as u64));
        }
        mark_all(marks, &image.segments);
    }
    Ok(())
}

/// Refuses the first image with a segment besides `__LINKEDIT` that isn't in the mapping of its protection
/// at the same distance in the file, whose filesize isn't its vmsize, or that shares an address with a segment
/// of an earlier image, at that segment's number. The mappings are those of a cache of so many bytes.
///
/// A mark for each page tells where segments of earlier images lie: those besides `__LINKEDIT` share none, so
/// time is bounded by the number of segments and by the pages, those once for each image's `__LINKEDIT`.
pub(crate) fn check_segments(
    alloc: Global,
    mappings: &[Mapping],
    images: &[Image<'_>],
    size: u64,
) -> Result<(), ViewFault>
    requires few { length images.now ≤ 4096 }
    requires low { size ≤ span_limit }
    requires mapped { shape.are_three size mappings.now ≡ true }
    ensures { RefusesView (spec.each_of (spec.segment_finding mappings.now images.now) 0 images.now) result }
{
    let mut marks = vec![in alloc; false; (size / PAGE) as usize]?;
    check_each(mappings, images, size, &mut marks)
}
