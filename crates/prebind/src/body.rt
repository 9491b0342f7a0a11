// The segments of an image, looked up by their numbers and by addresses.
ghost use Rattle.std.specs.Prelude.{◌≡◌, slice_get};
ghost use Rattle.macho_image.specs.Segments as places;
ghost use Rattle.prebind.specs.Bodies.{IsBody, whole_of};
ghost use Rattle.prebind.specs.Places as exports;
ghost use Rattle.prebind.specs.WordRules as rules;

use crate::spans::covers;
use dsc_base::Span;
use macho_image::{Inside, Location, Segment, SegmentIndex, value_at};
use std::marker::Model;

/// All segments of an image, of which `__LINKEDIT`, the last one, is told by its addresses alone, with an index
/// of the others.
#[derive(Drop)]
pub(crate) struct Body<'s, 'a> {
    segments: &'s [Segment<'a>],
    index: &'s SegmentIndex,
    linkedit: Span,
}

impl<'s, 'a> Model for Body<'s, 'a> {
    ghost use Rattle.std.specs.Prelude.{List};
    ghost use Rattle.macho_image.specs.Records.{Seg};
    ghost use Rattle.prebind.specs.Bodies.{IsBody, whole_of};

    ghost Value = { List Seg };

    ghost view = { λ b. whole_of b.segments.now b.linkedit };

    ghost invariant = { λ b. IsBody b.segments.now b.index.now };
}

fn start_of(segments: &[Segment<'_>], number: u32) -> u64
    ensures { result ≡ places.start_of (slice_get segments.now number) }
{
    match segments.get(number as usize) {
        Some(segment) => segment.vmaddr,
        None => 0,
    }
}

fn is_out_of(segments: &[Segment<'_>], number: u32, address: u64) -> bool
    ensures { result ≡ rules.is_out_of (slice_get segments.now number) address }
{
    match segments.get(number as usize) {
        Some(segment) => address < segment.vmaddr || address - segment.vmaddr > segment.vmsize,
        None => true,
    }
}

/// The place of an address, by the segments before `__LINKEDIT` and the addresses of that.
fn find_in(
    segments: &[Segment<'_>],
    index: &SegmentIndex,
    linkedit: Span,
    address: u64,
) -> Option<Inside>
    requires { IsBody segments.now index.now }
    ensures { result ≡ places.inside (whole_of segments.now linkedit) address }
{
    match index.find(address) {
        Some(place) => Some(place),
        None if covers(&linkedit, address) => Some(Inside {
            segment: segments.len() as u32,
            distance: address - linkedit.at,
        }),
        None => None,
    }
}

fn start_in(segments: &[Segment<'_>], linkedit: Span, number: u32) -> u64
    ensures { result ≡ places.start_of (slice_get (whole_of segments.now linkedit) number) }
{
    if number as usize == segments.len() {
        linkedit.at
    } else {
        start_of(segments, number)
    }
}

fn is_out_in(segments: &[Segment<'_>], linkedit: Span, number: u32, address: u64) -> bool
    ensures { result ≡ rules.is_out_of (slice_get (whole_of segments.now linkedit) number) address }
{
    if number as usize == segments.len() {
        address < linkedit.at || address - linkedit.at > linkedit.len
    } else {
        is_out_of(segments, number, address)
    }
}

impl<'s, 'a> Body<'s, 'a> {
    pub(crate) fn new(segments: &'s [Segment<'a>], index: &'s SegmentIndex, linkedit: Span) -> Self
        requires { IsBody segments.now index.now }
        ensures { result ≡ whole_of segments.entry.now linkedit }
    {
        Body {
            segments,
            index,
            linkedit,
        }
    }

    /// The segment that contains an address, and how far the address lies above its start.
    pub(crate) fn find(&self, address: u64) -> Option<Inside>
        ensures { result ≡ places.inside self.now address }
    {
        find_in(self.segments, self.index, self.linkedit, address)
    }

    /// Whether a number is that of `__LINKEDIT`, or of no segment.
    pub(crate) fn is_linkedit_at(&self, number: u32) -> bool
        ensures { result ≡ exports.is_linkedit_at (slice_get self.now number) }
    {
        number as usize >= self.segments.len()
    }

    /// The start of a segment, or 0 where there is none.
    pub(crate) fn start_of(&self, number: u32) -> u64
        ensures { result ≡ places.start_of (slice_get self.now number) }
    {
        start_in(self.segments, self.linkedit, number)
    }

    /// Whether an address lies below the start of a segment or above its end. Where there is no such segment,
    /// each address does.
    pub(crate) fn is_out_of(&self, number: u32, address: u64) -> bool
        ensures { result ≡ rules.is_out_of (slice_get self.now number) address }
    {
        is_out_in(self.segments, self.linkedit, number, address)
    }

    /// The number of 8 bytes that a word's segment has at the word's address.
    pub(crate) fn value_at(&self, word: &Location) -> u64
        ensures { result ≡ places.value_of self.now word.now }
    {
        value_at(self.segments, word)
    }
}
