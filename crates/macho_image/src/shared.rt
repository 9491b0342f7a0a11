// The rule that no two segments share an address.
ghost use Rattle.std.specs.Prelude.{◌≡◌, ◌≤◌, ◌<◌, ◌+◌, ℕ, [], length, is_none, slice_index_or, IfOk, IfErr, IsPermutation};
ghost use Rattle.dsc_base.specs.declared.fault.Fault.TheVariants as faults;
ghost use Rattle.macho_image.specs.Addresses as spec;
ghost use Rattle.macho_image.specs.Rules.{first_crossing};

use crate::segment::SegmentCommand;
use dsc_base::Fault;
use std::alloc::Global;

/// The addresses of the segments that have some, each range by its first one and the one behind its last.
fn ranges(alloc: Global, segments: &[SegmentCommand]) -> Result<Vec<(u128, u128)>, Fault>
    ensures found { IfOk result (λ v. v.items ≡ spec.ranges_of segments.now) }
    ensures cause { IfErr result (λ e. e ≡ faults.Memory) }
{
    let mut ranges = Vec::with_capacity(alloc, segments.len())?;
    for segment in segments {
        if segment.vmsize > 0 {
            let start = u128::from(segment.vmaddr);
            ranges.push((start, start + u128::from(segment.vmsize)))?;
        }
    }
    Ok(ranges)
}

/// The same, sorted.
fn sorted_ranges(alloc: Global, segments: &[SegmentCommand]) -> Result<Vec<(u128, u128)>, Fault>
    ensures same { IfOk result (λ v. IsPermutation (spec.ranges_of segments.now) v.items) }
    ensures sorted { IfOk result (λ v. (k : ℕ) (d : ℕ × ℕ) → k + 1 < length v.items → (slice_index_or v.items k d).0 ≤ (slice_index_or v.items (k + 1) d).0) }
    ensures cause { IfErr result (λ e. e ≡ faults.Memory) }
{
    let mut ranges = ranges(alloc, segments)?;
    ranges.sort_unstable();
    Ok(ranges)
}

fn are_in_turn(ranges: &[(u128, u128)]) -> bool
    ensures { result ≡ spec.are_in_turn 0 ranges.now }
{
    let mut floor = 0;
    for range in ranges {
        if range.0 < floor {
            return false;
        }
        floor = range.1;
    }
    true
}

/// Whether no segment shares an address with an earlier one.
fn share_none(alloc: Global, segments: &[SegmentCommand]) -> Result<bool, Fault>
    ensures found { IfOk result (λ b. b ≡ is_none (first_crossing [] segments.now)) }
    ensures cause { IfErr result (λ e. e ≡ faults.Memory) }
{
    let ranges = sorted_ranges(alloc, segments)?;
    Ok(are_in_turn(&ranges))
}

/// The first segment that shares an address with an earlier one: one sort where there is none, and else
/// one for each step of a search for the least number of segments that share an address.
pub(crate) fn first_crossing(
    alloc: Global,
    segments: &[SegmentCommand],
) -> Result<Option<u64>, Fault>
    ensures found { IfOk result (λ place. place ≡ first_crossing [] segments.now) }
    ensures cause { IfErr result (λ e. e ≡ faults.Memory) }
{
    if share_none(alloc, segments)? {
        return Ok(None);
    }
    let mut apart = 0;
    let mut crossing = segments.len();
    while crossing - apart > 1 {
        let middle = apart + (crossing - apart) / 2;
        if share_none(alloc, &segments[..middle])? {
            apart = middle;
        } else {
            crossing = middle;
        }
    }
    let segment = &segments[apart];
    Ok(Some(segment.at))
}
