// The parts that images have of the mappings.
ghost use Rattle.std.specs.Prelude.{◌≡◌, ◌≤◌, ◌+◌, ◌^◌};
ghost use Rattle.cache_layout.specs.declared.mapping.Mapping.{Mapping};
ghost use Rattle.cache_layout.specs.Places.{segments_room};
ghost use Rattle.ref_rewrite.specs.Spans.{span_of, end_of};

use cache_layout::{Layout, Mapping};
use dsc_base::{Span, page_up};
use macho_image::{Image, Segment};

/// What an image has of each range of the file that holds the segments of a mapping.
#[derive(Clone, Copy)]
pub(crate) struct Parts {
    pub text: Span,
    pub writable: Span,
    pub fixed: Span,
}

/// What segments take of a mapping, in bytes of whole pages.
fn room_in(mapping: Mapping, segments: &[Segment<'_>]) -> u64
    requires { segments_room mapping segments.now ≤ 2 ^ 47 }
    ensures { result ≡ segments_room mapping segments.now }
{
    let mut room = 0;
    for segment in segments {
        if mapping.has(segment) {
            room += page_up(segment.vmsize);
        }
    }
    room
}

/// The part of a mapping behind another one that segments take.
fn behind(span: Span, mapping: Mapping, segments: &[Segment<'_>]) -> Span
    requires room { segments_room mapping segments.now ≤ 2 ^ 47 }
    requires end { span.at + span.len ≤ 2 ^ 47 }
    ensures at { result.at ≡ span.at + span.len }
    ensures len { result.len ≡ segments_room mapping segments.now }
{
    Span {
        at: span.at + span.len,
        len: room_in(mapping, segments),
    }
}

impl Parts {
    /// The empty parts at the starts of the ranges of a layout.
    pub(crate) fn at_start(layout: &Layout) -> Parts
        ensures text { result.text ≡ record { at = layout.now.text.at; len = 0 } }
        ensures writable { result.writable ≡ record { at = layout.now.writable.at; len = 0 } }
        ensures fixed { result.fixed ≡ record { at = layout.now.fixed.at; len = 0 } }
    {
        let start = |span: Span| Span {
            at: span.at,
            len: 0,
        };
        Parts {
            text: start(layout.text()),
            writable: start(layout.writable()),
            fixed: start(layout.fixed()),
        }
    }

    /// The parts behind these that an image takes.
    pub(crate) fn next(&self, image: &Image<'_>) -> Parts
        requires { (m : Mapping) → end_of self.now m ≤ 2 ^ 47 }
        ensures at { (m : Mapping) → (span_of result m).at ≡ end_of self.now m }
        ensures len { (m : Mapping) → (span_of result m).len ≡ segments_room m image.now.segments }
    {
        image.facts();
        let segments = image.segments.as_slice();
        Parts {
            text: behind(self.text, Mapping::Text, segments),
            writable: behind(self.writable, Mapping::Writable, segments),
            fixed: behind(self.fixed, Mapping::Fixed, segments),
        }
    }
}
