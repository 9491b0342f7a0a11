// Numbers at addresses.
ghost use Rattle.std.specs.Prelude.{◌≡◌, ◌≤◌, ◌+◌, ◌<◌, length};
ghost use Rattle.dsc_base.specs.Numbers.{number_at};
ghost use Rattle.macho_image.specs.Segments.{number_in, number_of, value_of};

use crate::bytes::are_bytes;
use crate::{Location, Segment};
use dsc_base::{get_u64, read_u64};

/// The number of up to 8 bytes from a place that is inside, as if zeros followed.
fn number_at_end(bytes: &[u8], at: usize) -> u64
    requires { at ≤ length bytes.now }
    ensures { result ≡ number_at 8 bytes.now at }
{
    let rest = &bytes[at..];
    let len = rest.len().min(8);
    let mut eight = [0; 8];
    eight[..len].copy_from_slice(&rest[..len]);
    get_u64(&eight, 0)
}

/// The little-endian number of 8 bytes that a segment has in memory at an address; one below the segment's
/// start counts as the start. What lies behind the bytes of the file is 0.
#[tactic(auto, unfolding(crate::specs::Segments::number_of))]
pub fn number_at_address(segment: &Segment<'_>, address: u64) -> u64
    ensures { result ≡ number_in segment.now address }
{
    let distance = address.saturating_sub(segment.vmaddr);
    let len = segment.bytes.len() as u64;
    if distance >= len {
        return 0;
    }
    let at = distance as usize;
    match read_u64(segment.bytes, at) {
        Some(number) => number,
        None => number_at_end(segment.bytes, at),
    }
}

/// The same of 4 bytes.
#[tactic(auto, unfolding(crate::specs::Segments::number_of), using(crate::proofs::NumberLaws::number_low))]
pub fn half_at_address(segment: &Segment<'_>, address: u64) -> u32
    ensures { result ≡ number_of 4 segment.now address }
{
    are_bytes(segment.bytes);
    (number_at_address(segment, address) % (1 << 32)) as u32
}

/// The number of 8 bytes that a word's segment, one of these, has at the word's address; 0 where there is
/// no such segment.
#[tactic(auto, unfolding(crate::specs::Segments::value_of))]
pub fn value_at(segments: &[Segment<'_>], word: &Location) -> u64
    ensures { result ≡ value_of segments.now word.now }
{
    match segments.get(word.segment as usize) {
        Some(segment) => number_at_address(segment, word.address),
        None => 0,
    }
}
