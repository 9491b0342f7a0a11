// The bytes of a section that are in no word.
ghost use Rattle.std.specs.Prelude.{◌≡◌, ◌≤◌, ◌<◌, ◌+◌, ◌^◌, ℕ, None, IfSome, length, nat_eq, nat_le, nat_lt, slice_index_or};
ghost use Rattle.std.specs.List.Sorted.{IsNonDecreasingBy};
ghost use Rattle.cache_check.specs.Bytes as spec;
ghost use Rattle.cache_check.specs.Steps.Sides.{pair_view};
ghost use Rattle.cache_check.specs.Steps.Gaps as steps;
ghost use Rattle.cache_check.specs.declared.extents.Extent.{Extent};

use crate::Seen;
use crate::extents::Extent;
use crate::mismatch::Mismatch;
use crate::pairs::Pair;
use macho_image::Segment;

/// The byte at an address of a segment; what lies behind the file's bytes is 0.
fn byte_in(segment: &Segment<'_>, address: u64) -> u8
    ensures { result ≡ spec.byte_in segment.now address }
{
    let distance = address.saturating_sub(segment.vmaddr) as usize;
    segment.bytes.get(distance).copied().unwrap_or(0)
}

/// The bytes at an offset of a section: what the cache has, and what the file has.
#[tactic(auto, unfolding(crate::specs::Steps::Gaps::found_byte, crate::specs::Steps::Gaps::wanted_byte))]
fn bytes_at(pair: &Pair<'_, '_, '_>, offset: u64) -> (u8, u8)
    requires here { pair.now.here.now.addr + offset < 2 ^ 64 }
    requires there { pair.now.there.now.addr + offset < 2 ^ 64 }
    ensures found { result.0 ≡ steps.found_byte (pair_view pair.now) offset }
    ensures wanted { result.1 ≡ steps.wanted_byte (pair_view pair.now) offset }
{
    (
        byte_in(pair.cached, pair.there.addr + offset),
        byte_in(pair.own, pair.here.addr + offset),
    )
}

/// The first offset from one on and below another at which the bytes differ.
fn first_other(pair: &Pair<'_, '_, '_>, from: u64, to: u64) -> Option<u64>
    requires here { pair.now.here.now.addr + to < 2 ^ 64 }
    requires there { pair.now.there.now.addr + to < 2 ^ 64 }
    ensures { steps.IsFirstOther (pair_view pair.now) from to result }
{
    for offset in from..to {
        let (found, wanted) = bytes_at(pair, offset);
        if found != wanted {
            return Some(offset);
        }
    }
    None
}

/// What is found and wanted at an offset whose byte isn't the file's.
fn other_byte(pair: &Pair<'_, '_, '_>, number: u32, offset: u64) -> Mismatch
    requires here { pair.now.here.now.addr + offset < 2 ^ 64 }
    requires there { pair.now.there.now.addr + offset < 2 ^ 64 }
    ensures { result ≡ steps.other_byte number (pair_view pair.now) offset }
{
    let (found, wanted) = bytes_at(pair, offset);
    Mismatch {
        section: number,
        offset,
        found: Seen::Number(u64::from(found)),
        wanted: Seen::Number(u64::from(wanted)),
    }
}

/// How many words end by an address, as far as 8 bytes from each tell.
fn count_before(extents: &[Extent], address: u64) -> usize
    requires { IsNonDecreasingBy (λ e. e.at) extents.now }
    ensures bound { result ≤ length extents.now }
    ensures before { (i : ℕ) (d : Extent) → i < result → (slice_index_or extents.now i d).at + 8 ≤ address }
{
    extents.partition_point(
        |e: &Extent| -> bool
            ensures { result ≡ nat_le (e.now.at + 8) address }
        { address >= 8 && e.at <= address - 8 },
    )
}

/// How many words begin below an address.
fn count_below(extents: &[Extent], address: u64) -> usize
    requires { IsNonDecreasingBy (λ e. e.at) extents.now }
    ensures bound { result ≤ length extents.now }
    ensures below { (i : ℕ) (d : Extent) → i < result → (slice_index_or extents.now i d).at < address }
    ensures above { (i : ℕ) (d : Extent) → result ≤ i → i < length extents.now → address ≤ (slice_index_or extents.now i d).at }
{
    extents.partition_point(
        |e: &Extent| -> bool
            ensures { result ≡ nat_lt e.now.at address }
        { e.at < address },
    )
}

/// The first byte of the section of a number that is in no word and isn't the file's.
pub(crate) fn byte_mismatch(
    extents: &[Extent],
    number: u32,
    pair: &Pair<'_, '_, '_>,
) -> Option<Mismatch>
    requires sorted { IsNonDecreasingBy (λ e. e.at) extents.now }
    requires narrow { (i : ℕ) (d : Extent) → i < length extents.now → (slice_index_or extents.now i d).width ≤ 8 }
    requires here { pair.now.here.now.addr + pair.now.here.now.size < 2 ^ 63 }
    requires there { pair.now.there.now.addr + pair.now.here.now.size < 2 ^ 63 }
    ensures { result ≡ steps.held_mismatch extents.now number (pair_view pair.now) }
{
    let start = pair.here.addr;
    let end = start + pair.here.size;
    let mut at = 0;
    for index in count_before(extents, start)..count_below(extents, end) {
        let extent = extents[index];
        let from = extent.at.saturating_sub(start);
        if let Some(offset) = first_other(pair, at, from) {
            return Some(other_byte(pair, number, offset));
        }
        at = at.max((extent.at + extent.width).saturating_sub(start));
    }
    match first_other(pair, at, pair.here.size) {
        Some(offset) => Some(other_byte(pair, number, offset)),
        None => None,
    }
}
