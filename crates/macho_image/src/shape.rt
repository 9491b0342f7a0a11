// The rules on the shape and the place of segments.
ghost use Rattle.std.specs.Prelude.{◌≡◌, ◌+◌, not, nat_lt, if◌then◌else◌, Some, None, IfOk, IfErr};
ghost use Rattle.dsc_base.specs.declared.fault.Fault.TheVariants as faults;
ghost use Rattle.macho_image.specs.Rules as rules;
ghost use Rattle.dsc_base.specs.Refusals.{least};

use crate::kinds::least;
use crate::segment::{SegmentCommand, is_linkedit, is_text};
use crate::shared::first_crossing;
use dsc_base::Fault;
use std::alloc::Global;

const PAGE: u64 = 4096;

const TOP: u64 = 1 << 47;

fn is_well_shaped(segment: &SegmentCommand) -> bool
    ensures { result ≡ rules.is_well_shaped segment.now }
{
    segment.size == 72 + 80 * u64::from(segment.nsects)
        && segment.vmaddr % PAGE == 0
        && segment.filesize <= segment.vmsize
        && segment.vmsize <= TOP
        && segment.vmaddr <= TOP - segment.vmsize
}

fn ill_shaped(segments: &[SegmentCommand]) -> Option<u64>
    ensures { result ≡ rules.first_segment (λ s. not (rules.is_well_shaped s)) segments.now }
{
    segments.iter().find(|s| !is_well_shaped(s)).map(|s| s.at)
}

fn is_good_text(segment: &SegmentCommand, header_size: u64) -> bool
    ensures { result ≡ rules.is_good_text header_size segment.now }
{
    is_text(segment) && segment.initprot == 5 && header_size <= segment.filesize
}

fn is_good_linkedit(segment: &SegmentCommand) -> bool
    ensures { result ≡ rules.is_good_linkedit segment.now }
{
    is_linkedit(segment) && segment.initprot == 1 && segment.nsects == 0
}

/// The first segment between the first and the last one that has the name of either.
fn misnamed(between: &[SegmentCommand]) -> Option<u64>
    ensures { result ≡ rules.first_segment rules.has_reserved_name between.now }
{
    between
        .iter()
        .find(|s| is_text(s) || is_linkedit(s))
        .map(|s| s.at)
}

fn bad_linkedit(last: &SegmentCommand) -> Option<u64>
    ensures { result ≡ (if rules.is_good_linkedit last.now then None else Some last.now.at) }
{
    if is_good_linkedit(last) {
        None
    } else {
        Some(last.at)
    }
}

/// Of the segments behind the first one, the first that isn't in its place.
fn misplaced_behind(segments: &[SegmentCommand]) -> Option<u64>
    ensures { result ≡ rules.misplaced_behind segments.now }
{
    let (last, between) = segments.split_last()?;
    misnamed(between).or(bad_linkedit(last))
}

fn misplaced(segments: &[SegmentCommand], header_size: u64) -> Option<u64>
    ensures { result ≡ rules.misplaced header_size segments.now }
{
    let (first, behind) = segments.split_first()?;
    if is_good_text(first, header_size) {
        misplaced_behind(behind)
    } else {
        Some(first.at)
    }
}

fn leaves_file(segments: &[SegmentCommand], len: u64) -> Option<u64>
    ensures { result ≡ rules.first_segment (λ s. nat_lt len (s.fileoff + s.filesize)) segments.now }
{
    segments
        .iter()
        .find(|s| u128::from(s.fileoff) + u128::from(s.filesize) > u128::from(len))
        .map(|s| s.at)
}

fn starts_elsewhere(segments: &[SegmentCommand], header_at: u64) -> Option<u64>
    ensures { result ≡ rules.starts_elsewhere header_at segments.now }
{
    let first = segments.first()?;
    if first.fileoff == header_at {
        None
    } else {
        Some(first.at)
    }
}

fn header_shape(
    alloc: Global,
    segments: &[SegmentCommand],
    header_size: u64,
) -> Result<Option<u64>, Fault>
    ensures found { IfOk result (λ place. place ≡ rules.breaks_segment_shape header_size segments.now) }
    ensures cause { IfErr result (λ e. e ≡ faults.Memory) }
{
    if segments.len() < 2 {
        return Ok(Some(0));
    }
    let crossing = first_crossing(alloc, segments)?;
    Ok(least(
        ill_shaped(segments),
        least(crossing, misplaced(segments, header_size)),
    ))
}

fn file_place(segments: &[SegmentCommand], len: u64, header_at: u64) -> Option<u64>
    ensures { result ≡ rules.breaks_segment_place len header_at segments.now }
{
    least(
        leaves_file(segments, len),
        starts_elsewhere(segments, header_at),
    )
}

/// The first segment that is broken, by the header or by its place in a file of so many bytes.
pub(crate) fn segment_shape(
    alloc: Global,
    segments: &[SegmentCommand],
    header_size: u64,
    len: u64,
    header_at: u64,
) -> Result<Option<u64>, Fault>
    ensures found { IfOk result (λ place. place ≡ least (rules.breaks_segment_shape header_size segments.now) (rules.breaks_segment_place len header_at segments.now)) }
    ensures cause { IfErr result (λ e. e ≡ faults.Memory) }
{
    let shape = header_shape(alloc, segments, header_size)?;
    Ok(least(shape, file_place(segments, len, header_at)))
}
