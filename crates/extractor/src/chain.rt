// Where the chain words of a cache may lie, and where those may lead that aren't bound.
ghost use Rattle.std.specs.Prelude.{◌≡◌, ◌≤◌, ◌<◌, ◌+◌, Some, is_some, map, slice_get};
ghost use Rattle.std.specs.List.{list_any};
ghost use Rattle.macho_image.specs.Places as places;
ghost use Rattle.rebase_ops.specs.Writing.{offset_in};
ghost use Rattle.extractor.specs.Chained as spec;
ghost use Rattle.extractor.specs.Homes.{each_word};
ghost use Rattle.extractor.specs.Placing.{home_of};
ghost use Rattle.extractor.specs.Vetting.{earlier, by_image, reaches};

use crate::bounds::Bounds;
use crate::homes::Home;
use dsc_base::{Finding, FindingKind};
use macho_image::{Image, Segment, locate, section_around};
use slide_chain::ChainWord;

/// The size of a word, and half of it, at whose multiples words stand.
const WORD: u64 = 8;

const HALF: u64 = 4;

/// The last segment for whose number a rebase opcode has room, after `mach-o/loader.h`.
const LAST_SEGMENT: u32 = 15;

/// Whether a bind shares a part of the word at an address.
fn is_crossed(bounds: &Bounds, address: u64) -> bool
    requires { spec.IsAddress address }
    ensures { result ≡ spec.is_crossed bounds.now address }
{
    bounds.has(address - HALF) || bounds.has(address + HALF)
}

/// The number of the section of an image's segment that has the word at an address.
pub(crate) fn section_at(image: &Image<'_>, segment: u32, address: u64) -> Option<u32>
    ensures { result ≡ places.section_at image.now.sections segment address }
{
    image.facts();
    section_around(&image.sections, segment, address, WORD)
}

/// How far an address lies above the start of an image's segment; 0 where there is no such segment.
#[tactic(auto, unfolding(rebase_ops::specs::Writing::offset_in))]
fn offset_in(image: &Image<'_>, segment: u32, address: u64) -> u64
    ensures { result ≡ offset_in image.now segment address }
{
    match image.segments.get(segment as usize) {
        Some(found) => address.saturating_sub(found.vmaddr),
        None => 0,
    }
}

/// Whether no record may name the word at an address of a segment.
fn is_misplaced(image: &Image<'_>, segment: u32, address: u64) -> bool
    ensures { result ≡ is_some (places.place_fault image.now (Some segment) (offset_in image.now segment address) 0) }
{
    let offset = offset_in(image, segment, address);
    match locate(image, Some(segment), offset, 0) {
        Ok(_) => false,
        Err(_) => true,
    }
}

/// Whether a chain word that begins in a segment of an image may not be there.
fn is_outside(image: &Image<'_>, bounds: &Bounds, segment: u32, address: u64) -> bool
    requires { spec.IsAddress address }
    ensures { result ≡ spec.is_outside image.now bounds.now segment address }
{
    segment > LAST_SEGMENT
        || !image.has_dyld_info
        || is_misplaced(image, segment, address)
        || is_crossed(bounds, address)
}

fn outside_in(images: &[Image<'_>], bounds: &[Bounds], home: Home, address: u64) -> bool
    requires { spec.IsAddress address }
    ensures { result ≡ spec.outside_in (slice_get images.now home.image) (slice_get bounds.now home.image) home.segment address }
{
    match images.get(home.image as usize) {
        Some(image) => match bounds.get(home.image as usize) {
            Some(own) => is_outside(image, own, home.segment, address),
            None => true,
        },
        None => true,
    }
}

/// The finding of a chain word at an address that may not be there.
fn outside_at(
    images: &[Image<'_>],
    bounds: &[Bounds],
    offset: u64,
    address: u64,
    home: Option<Home>,
) -> Option<Finding>
    requires { spec.IsAddress address }
    ensures { result ≡ spec.outside_at images.now bounds.now offset address home }
{
    let kind = FindingKind::ChainOutside;
    match home {
        None => Some(Finding {
            kind,
            image: 0,
            at: offset,
        }),
        Some(home) => {
            if outside_in(images, bounds, home, address) {
                Some(Finding {
                    kind,
                    image: home.image,
                    at: offset,
                })
            } else {
                None
            }
        }
    }
}

/// Of a finding and those of later places the one of the least image.
fn earlier(found: Option<Finding>, others: Option<Finding>) -> Option<Finding>
    ensures { result ≡ earlier found others }
{
    match (found, others) {
        (None, others) => others,
        (Some(f), None) => Some(f),
        (Some(f), Some(g)) => { if g.image < f.image { Some(g) } else { Some(f) } }
    }
}

/// The first image with a chain word that may not be where it is, and its first one.
#[tactic(auto, unfolding(crate::specs::Vetting::by_image))]
pub(crate) fn first_outside(
    images: &[Image<'_>],
    bounds: &[Bounds],
    words: &[ChainWord],
    start: u64,
    homes: &[Option<Home>],
) -> Option<Finding>
    requires addresses { spec.HaveAddresses start words.now }
    requires homes { homes.now ≡ each_word (home_of images.now) start words.now }
    ensures { result ≡ by_image (map (spec.outside_of images.now bounds.now start) words.now) }
{
    let mut first = None;
    for n in 0..words.len() {
        let k = words.len() - 1 - n;
        let offset = words[k].offset;
        let found = outside_at(images, bounds, offset, start + offset, homes[k]);
        first = earlier(found, first);
    }
    first
}

/// Whether a value is from the start to the end of a segment other than `__LINKEDIT`.
fn reaches(segment: &Segment<'_>, value: u64) -> bool
    ensures { result ≡ reaches value segment.now }
{
    !segment.is_linkedit()
        && segment.vmaddr <= value
        && u128::from(value) <= u128::from(segment.vmaddr) + u128::from(segment.vmsize)
}

fn reaches_any(segments: &[Segment<'_>], value: u64) -> bool
    ensures { result ≡ list_any (reaches value) segments.now }
{
    segments.iter().any(|segment| reaches(segment, value))
}

/// Whether a chain word of an image that isn't bound leads out of it.
fn is_foreign(image: &Image<'_>, bounds: &Bounds, address: u64, value: u64) -> bool
    ensures { result ≡ spec.is_foreign image.now.segments bounds.now address value }
{
    !bounds.has(address) && !reaches_any(&image.segments, value)
}

fn foreign_in(images: &[Image<'_>], bounds: &[Bounds], home: Home, address: u64, value: u64) -> bool
    ensures { result ≡ spec.foreign_in (slice_get images.now home.image) (slice_get bounds.now home.image) address value }
{
    match images.get(home.image as usize) {
        Some(image) => match bounds.get(home.image as usize) {
            Some(own) => is_foreign(image, own, address, value),
            None => true,
        },
        None => true,
    }
}

/// The finding of a chain word that leads out of its image.
fn foreign_at(
    images: &[Image<'_>],
    bounds: &[Bounds],
    word: ChainWord,
    address: u64,
    home: Option<Home>,
) -> Option<Finding>
    ensures { result ≡ spec.foreign_at images.now bounds.now word address home }
{
    let home = home?;
    if foreign_in(images, bounds, home, address, word.value) {
        Some(Finding {
            kind: FindingKind::ForeignPointer,
            image: home.image,
            at: word.offset,
        })
    } else {
        None
    }
}

/// The first image with a chain word that isn't bound and leads out of it, and its first one.
#[tactic(auto, unfolding(crate::specs::Vetting::by_image))]
pub(crate) fn first_foreign(
    images: &[Image<'_>],
    bounds: &[Bounds],
    words: &[ChainWord],
    start: u64,
    homes: &[Option<Home>],
) -> Option<Finding>
    requires addresses { spec.HaveAddresses start words.now }
    requires homes { homes.now ≡ each_word (home_of images.now) start words.now }
    ensures { result ≡ by_image (map (spec.foreign_of images.now bounds.now start) words.now) }
{
    let mut first = None;
    for n in 0..words.len() {
        let word = words[words.len() - 1 - n];
        let home = homes[words.len() - 1 - n];
        let found = foreign_at(images, bounds, word, start + word.offset, home);
        first = earlier(found, first);
    }
    first
}
