// The words of a file against what stands in the cached image.
ghost use Rattle.std.specs.Prelude.{◌≡◌};
ghost use Rattle.macho_image.specs.Places.{wrap};
ghost use Rattle.macho_image.specs.Segments.{number_of};
ghost use Rattle.split_info.specs.References.{width_of};
ghost use Rattle.split_info.specs.declared.reference.RefKind.TheVariants.{Pointer64};
ghost use Rattle.prebind.specs.Numbers.{extended, counted_to, led_to};
ghost use Rattle.prebind.specs.Targets.{reference_number, reference_target};
ghost use Rattle.prebind.specs.Words.{reference_location, pointer_word, reference_word, is_no_pointer};
ghost use Rattle.cache_check.specs.Bytes as spec;
ghost use Rattle.cache_check.specs.Differences.{cached_starts};
ghost use Rattle.cache_check.specs.Steps.Sides.{chain_view};

use crate::Seen;
use crate::chains::Chains;
use crate::exports::own_start;
use crate::lookup::chain_at;
use crate::matching::Matching;
use crate::mismatch::Mismatch;
use crate::pairs::pair_of;
use macho_image::{Image, Location, Segment, half_at_address, number_at_address};
use prebind::WordTarget;
use split_info::RefKind;

/// Where a segment of an image of the cache starts; one that the image lacks counts as starting at 0.
#[tactic(auto, unfolding(crate::specs::Differences::own_start))]
fn start_at(images: &[Image<'_>], image: u32, segment: u32) -> u64
    ensures { result ≡ cached_starts images.now image segment }
{
    match images.get(image as usize) {
        Some(cached) => own_start(&cached.segments, segment),
        None => 0,
    }
}

/// A number of 4 bytes in two's complement, as one of 8 bytes.
pub(crate) fn extended(half: u64) -> u64
    ensures { result ≡ wrap (extended half) }
{
    if half < 1 << 31 {
        half
    } else {
        half.wrapping_add(0xFFFF_FFFF_0000_0000)
    }
}

/// What stands at an address of a segment of the cache.
fn seen_at(chains: &Chains<'_>, cached: &Segment<'_>, kind: RefKind, address: u64) -> Seen
    ensures { result ≡ spec.seen_at (chain_view chains.now) cached.now kind address }
{
    match kind {
        RefKind::Pointer64 => match chain_at(chains, address) {
            Some(word) => Seen::Address(word.value),
            None => Seen::Number(number_at_address(cached, address)),
        },
        RefKind::Delta32 => Seen::Number(extended(u64::from(half_at_address(cached, address)))),
        RefKind::Delta64 => Seen::Number(number_at_address(cached, address)),
        RefKind::ImageOff32 => Seen::Number(u64::from(half_at_address(cached, address))),
    }
}

/// What should stand at an address, in a cached image whose header is at another.
#[tactic(auto, unfolding(prebind::specs::Numbers::counted_to, macho_image::specs::Places::above))]
fn wanted_at(
    images: &[Image<'_>],
    header: u64,
    kind: RefKind,
    address: u64,
    target: WordTarget,
) -> Seen
    ensures { result ≡ spec.wanted_at (cached_starts images.now) header kind address target }
{
    let place = match target {
        WordTarget::Constant(number) => return Seen::Number(number),
        WordTarget::Place {
            image,
            segment,
            distance,
        } => start_at(images, image, segment).wrapping_add(distance),
    };
    match kind {
        RefKind::Pointer64 => Seen::Address(place),
        RefKind::Delta32 | RefKind::Delta64 => Seen::Number(place.wrapping_sub(address)),
        RefKind::ImageOff32 => Seen::Number(place.wrapping_sub(header)),
    }
}

/// A word of the file that doesn't lead in the cached image to where it should.
#[tactic(auto, unfolding(crate::specs::Bytes::word_mismatch, macho_image::specs::Places::above))]
pub(crate) fn word_mismatch(
    matching: &Matching<'_, '_, '_>,
    at: Location,
    kind: RefKind,
    target: WordTarget,
) -> Option<Mismatch>
    ensures { result ≡ spec.word_mismatch (chain_view matching.now.chains) (cached_starts matching.now.all.now) matching.now.file.now matching.now.cached.now (record { at = at; kind = kind; target = target }) }
{
    let pair = pair_of(matching.file, matching.cached, at.section)?;
    let offset = at.address.wrapping_sub(pair.here.addr);
    let address = pair.there.addr.wrapping_add(offset);
    let found = seen_at(&matching.chains, pair.cached, kind, address);
    let wanted = wanted_at(matching.all, matching.to, kind, address, target);
    Mismatch::between(at.section, offset, found, wanted)
}
