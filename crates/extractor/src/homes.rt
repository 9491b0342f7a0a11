// Which image and segment each chain word of a cache lies in.
ghost use Rattle.std.specs.Prelude.{◌≡◌, ◌≤◌, ◌<◌, ◌+◌, ◌-◌, ◌++◌, ◌^◌, ℕ, Some, None, nat_lt, length, map, take, drop, replicate, slice_index, IfOk};
ghost use Rattle.macho_image.specs.Breaks.{IsSound};
ghost use Rattle.extractor.specs.Homes as spec;
ghost use Rattle.extractor.specs.Placing.{home_of};

use dsc_base::NoMemory;
use macho_image::{Image, Segment};
use slide_chain::ChainWord;
use std::alloc::Global;

/// The protection of a segment that may be read and written, after `mach/vm_prot.h`.
const READ_WRITE: u32 = 3;

/// A segment of data, by the numbers of its image and of the segment in it.
#[derive(Clone, Copy, Debug, PartialEq, Eq)]
pub struct Home {
    pub image: u32,
    pub segment: u32,
}

/// Whether a word lies below an address.
fn is_below(word: &ChainWord, start: u64, bound: u128) -> bool
    ensures { result ≡ nat_lt (start + word.now.offset) bound }
{
    u128::from(start) + u128::from(word.offset) < bound
}

/// The number of the first word that doesn't lie below an address, where offsets count from a start.
pub(crate) fn first_from(words: &[ChainWord], start: u64, bound: u128) -> usize
    requires { spec.Rise words.now }
    ensures { spec.IsFirstFrom start words.now bound result }
{
    words.partition_point(
        |w: &ChainWord| -> bool
            ensures { result ≡ nat_lt (start + w.now.offset) bound }
        { is_below(w, start, bound) },
    )
}

/// Notes a home for words.
fn fill(homes: &mut [Option<Home>], home: Home)
    ensures { homes.new ≡ replicate (length homes.old) (Some home) }
{
    for k in 0..homes.len() {
        homes[k] = Some(home);
    }
}

/// Notes a home for the words from one number up to another one.
fn fill_range(homes: &mut [Option<Home>], first: usize, end: usize, home: Home)
    requires order { first ≤ end }
    requires within { end ≤ length homes.old }
    ensures { homes.new ≡ take first homes.old ++ (replicate (end - first) (Some home) ++ drop end homes.old) }
{
    fill(&mut homes[first..end], home);
}

/// Notes a segment as the home of the words in it, if it is one of data.
fn fill_segment(
    homes: &mut [Option<Home>],
    words: &[ChainWord],
    start: u64,
    segment: &Segment<'_>,
    home: Home,
)
    requires rise { spec.Rise words.now }
    requires many { length homes.old ≡ length words.now }
    ensures homes { spec.Become start words.now homes.old homes.new (spec.segment_first segment.now home) }
    ensures many { length homes.new ≡ length homes.old }
{
    if segment.initprot == READ_WRITE {
        let low = u128::from(segment.vmaddr);
        let first = first_from(words, start, low);
        let end = first_from(words, start, low + u128::from(segment.vmsize));
        fill_range(homes, first, end, home);
    }
}

/// Does nothing; its contract tells what is true of each slice of bytes.
pub(crate) fn are_bytes(bytes: &[u8])
    ensures { (k : ℕ) → slice_index bytes.now k < 256 }
{
    let _ = bytes;
}

/// Notes the segments of data of an image as the homes of the words in them, the first ones last.
fn fill_segments(
    homes: &mut [Option<Home>],
    words: &[ChainWord],
    start: u64,
    segments: &[Segment<'_>],
    image: u32,
)
    requires rise { spec.Rise words.now }
    requires many { length homes.old ≡ length words.now }
    requires few { length segments.now < 2 ^ 32 }
    ensures homes { spec.Become start words.now homes.old homes.new (spec.segments_first image 0 segments.now) }
    ensures many { length homes.new ≡ length homes.old }
{
    for n in 0..segments.len() {
        let number = segments.len() - 1 - n;
        let home = Home {
            image,
            segment: number as u32,
        };
        fill_segment(homes, words, start, &segments[number], home);
    }
}

/// The same of an image.
fn fill_image(
    homes: &mut [Option<Home>],
    words: &[ChainWord],
    start: u64,
    image: &Image<'_>,
    number: u32,
)
    requires rise { spec.Rise words.now }
    requires many { length homes.old ≡ length words.now }
    ensures homes { spec.Become start words.now homes.old homes.new (spec.segments_first number 0 image.now.segments) }
    ensures many { length homes.new ≡ length homes.old }
{
    image.facts();
    are_bytes(image.header);
    fill_segments(homes, words, start, &image.segments, number);
}

/// Notes the segments of data of all images, those of the first ones last.
fn fill_images(homes: &mut [Option<Home>], words: &[ChainWord], start: u64, images: &[Image<'_>])
    requires rise { spec.Rise words.now }
    requires few { length images.now ≤ 4096 }
    requires none { homes.old ≡ replicate (length words.now) None }
    ensures { homes.new ≡ spec.each_word (home_of images.now) start words.now }
{
    for n in 0..images.len() {
        let number = images.len() - 1 - n;
        fill_image(homes, words, start, &images[number], number as u32);
    }
}

/// No home for so many words.
fn no_homes(alloc: Global, count: usize) -> Result<Vec<Option<Home>>, NoMemory>
    ensures { IfOk result (λ v. v.items ≡ replicate count None) }
{
    let mut homes = Vec::with_capacity(alloc, count)?;
    for k in 0..count {
        homes.push(None)?;
    }
    Ok(homes)
}

/// The first image with a segment of data in which each word begins, and the number of the segment; nothing
/// where there is none. Offsets of words count from a start. Time grows with the words, and with the segments
/// as often as the number of words can be halved.
pub(crate) fn homes_of(
    alloc: Global,
    words: &[ChainWord],
    start: u64,
    images: &[Image<'_>],
) -> Result<Vec<Option<Home>>, NoMemory>
    requires rise { spec.Rise words.now }
    requires few { length images.now ≤ 4096 }
    ensures { IfOk result (λ v. v.items ≡ spec.each_word (home_of images.now) start words.now) }
{
    let mut homes = no_homes(alloc, words.len())?;
    fill_images(&mut homes, words, start, images);
    Ok(homes)
}
