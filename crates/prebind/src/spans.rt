// The segments of an image by their addresses alone.
ghost use Rattle.std.specs.Prelude.{◌≡◌, length, map, ◌<◌, ◌^◌};
ghost use Rattle.macho_image.specs.Segments as places;
ghost use Rattle.prebind.specs.Indexed.{bare_segment};

use dsc_base::Span;
use macho_image::Inside;

/// Whether a span has an address.
pub(crate) fn covers(span: &Span, address: u64) -> bool
    ensures { result ≡ places.contains (bare_segment span.now) address }
{
    span.at <= address && address - span.at < span.len
}

/// The segment that contains an address, and how far the address lies above its start. It goes over the
/// segments once.
pub(crate) fn inside(spans: &[Span], address: u64) -> Option<Inside>
    requires { length spans.now < 2 ^ 32 }
    ensures { result ≡ places.inside (map bare_segment spans.now) address }
{
    for (number, span) in spans.iter().enumerate() {
        if covers(span, address) {
            return Some(Inside {
                segment: number as u32,
                distance: address - span.at,
            });
        }
    }
    None
}
