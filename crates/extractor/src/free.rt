// The chain words of each image that aren't bound.
ghost use Rattle.std.specs.Prelude.{◌≡◌, ◌≤◌, ◌<◌, ◌+◌, ◌++◌, ◌∷◌, [], Some, length, map, replicate, slice_index_or, slice_set, unwrap_or, OnOk, IfOk};
ghost use Rattle.macho_image.specs.Places as places;
ghost use Rattle.extractor.specs.Chained.{AreBounds, IsAddress, HaveAddresses};
ghost use Rattle.extractor.specs.Free.{AreFree, AreGrown, lists};
ghost use Rattle.extractor.specs.Homes.{each_word};
ghost use Rattle.extractor.specs.Placing.{home_of};
ghost use Rattle.extractor.specs.Vetting.{cached_lists};

use crate::bounds::Bounds;
use crate::chain::section_at;
use crate::homes::Home;
use dsc_base::NoMemory;
use macho_image::{Image, Location};
use slide_chain::ChainWord;
use std::alloc::Global;

/// Appends a location to a list.
fn push_location(
    free: &mut Vec<Vec<Location>>,
    number: usize,
    location: Location,
) -> Result<(), NoMemory>
    requires { number < length free.old.items }
    ensures { OnOk result (lists free.new.items ≡ slice_set (lists free.old.items) number (slice_index_or (lists free.old.items) number [] ++ location ∷ [])) }
{
    let own = &mut free[number];
    own.push(location)?;
    Ok(())
}

/// So many lists without locations.
fn no_locations(alloc: Global, count: usize) -> Result<Vec<Vec<Location>>, NoMemory>
    ensures { IfOk result (λ v. lists v.items ≡ replicate count []) }
{
    let mut free = Vec::with_capacity(alloc, count)?;
    for k in 0..count {
        free.push(Vec::new(alloc))?;
    }
    Ok(free)
}

/// A word of an image by its segment and section.
fn location_in(image: &Image<'_>, segment: u32, address: u64) -> Location
    ensures { result ≡ record { segment = segment; section = unwrap_or (places.section_at image.now.sections segment address) 0; address = address } }
{
    Location {
        segment,
        section: section_at(image, segment, address).unwrap_or(0),
        address,
    }
}

/// Appends a chain word to the list of its image, unless it is bound.
fn keep_at(
    free: &mut Vec<Vec<Location>>,
    images: &[Image<'_>],
    bounds: &[Bounds],
    word: ChainWord,
    start: u64,
    home: Home,
) -> Result<(), NoMemory>
    requires count { length free.old.items ≡ length images.now }
    requires bounds { AreBounds (map cached_lists images.now) bounds.now }
    requires address { IsAddress (start + word.offset) }
    requires home { Some home ≡ home_of images.now (start + word.offset) }
    ensures { OnOk result (AreGrown start (word ∷ []) images.now (lists free.old.items) (lists free.new.items)) }
{
    let number = home.image as usize;
    let address = start + word.offset;
    if bounds[number].has(address) {
        return Ok(());
    }
    let location = location_in(&images[number], home.segment, address);
    push_location(free, number, location)?;
    Ok(())
}

/// The same, unless it is in no image.
fn keep_word(
    free: &mut Vec<Vec<Location>>,
    images: &[Image<'_>],
    bounds: &[Bounds],
    word: ChainWord,
    start: u64,
    home: Option<Home>,
) -> Result<(), NoMemory>
    requires count { length free.old.items ≡ length images.now }
    requires bounds { AreBounds (map cached_lists images.now) bounds.now }
    requires address { IsAddress (start + word.offset) }
    requires home { home ≡ home_of images.now (start + word.offset) }
    ensures { OnOk result (AreGrown start (word ∷ []) images.now (lists free.old.items) (lists free.new.items)) }
{
    match home {
        Some(home) => keep_at(free, images, bounds, word, start, home)?,
        None => {}
    }
    Ok(())
}

/// Of each image the chain words in it that aren't bound, in address order.
pub(crate) fn free_words(
    alloc: Global,
    images: &[Image<'_>],
    bounds: &[Bounds],
    words: &[ChainWord],
    start: u64,
    homes: &[Option<Home>],
) -> Result<Vec<Vec<Location>>, NoMemory>
    requires bounds { AreBounds (map cached_lists images.now) bounds.now }
    requires addresses { HaveAddresses start words.now }
    requires homes { homes.now ≡ each_word (home_of images.now) start words.now }
    ensures { IfOk result (λ v. AreFree start words.now images.now (lists v.items)) }
{
    let mut free = no_locations(alloc, images.len())?;
    for n in 0..words.len() {
        keep_word(&mut free, images, bounds, words[n], start, homes[n])?;
    }
    Ok(free)
}
