// The segments of an image by their addresses.
ghost use Rattle.std.specs.Prelude.{◌≡◌, length, ◌<◌, ◌^◌, nat_lt, ◌+◌};
ghost use Rattle.macho_image.specs.Segments as places;

use macho_image::{Inside, Segment};

fn contains(segment: &Segment<'_>, address: u64) -> bool
    ensures { result ≡ places.contains segment.now address }
{
    segment.vmaddr <= address && address - segment.vmaddr < segment.vmsize
}

/// The segment that contains an address, and how far the address lies above its start. It goes over the
/// segments once.
pub(crate) fn inside(segments: &[Segment<'_>], address: u64) -> Option<Inside>
    requires { length segments.now < 2 ^ 32 }
    ensures { result ≡ places.inside segments.now address }
{
    for (number, segment) in segments.iter().enumerate() {
        if contains(segment, address) {
            return Some(Inside {
                segment: number as u32,
                distance: address - segment.vmaddr,
            });
        }
    }
    None
}
