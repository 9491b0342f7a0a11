// How much room segments take in each mapping.
ghost use Rattle.std.specs.Prelude.{◌≡◌, ◌≤◌, ◌+◌, ◌^◌, length, All, Some};
ghost use Rattle.dsc_base.specs.Region.{paged};
ghost use Rattle.cache_layout.specs.declared.mapping.Mapping.{Mapping};
ghost use Rattle.cache_layout.specs.Places.{share, segments_room, images_room, head_size, path_size};
ghost use Rattle.cache_layout.specs.Rooms.{held};

use crate::mapping::{Mapping, mapping_of};
use dsc_base::page_up;
use macho_image::{Image, Segment};

/// A number of bytes for each mapping: a size or an offset in the file.
#[derive(Clone, Copy)]
pub(crate) struct Room {
    pub text: u64,
    pub writable: u64,
    pub fixed: u64,
}

impl Room {
    pub(crate) const NONE: Room = Room {
        text: 0,
        writable: 0,
        fixed: 0,
    };

    pub(crate) fn of(&self, mapping: Mapping) -> u64
        ensures { result ≡ held self.now mapping }
    {
        match mapping {
            Mapping::Text => self.text,
            Mapping::Writable => self.writable,
            Mapping::Fixed => self.fixed,
        }
    }

    /// Adds bytes to one mapping.
    pub(crate) fn grow(&mut self, mapping: Mapping, size: u64)
        requires { held self.old mapping + size ≤ 2 ^ 62 }
        ensures { (m : Mapping) → held self.new m ≡ held self.old m + share m (Some mapping) size }
    {
        match mapping {
            Mapping::Text => self.text += size,
            Mapping::Writable => self.writable += size,
            Mapping::Fixed => self.fixed += size,
        }
    }

    /// Adds the bytes of each mapping.
    fn add(&mut self, other: Room)
        requires { (m : Mapping) → held self.old m + held other m ≤ 2 ^ 62 }
        ensures { (m : Mapping) → held self.new m ≡ held self.old m + held other m }
    {
        self.text += other.text;
        self.writable += other.writable;
        self.fixed += other.fixed;
    }
}

/// The size of a segment in memory, in bytes of whole pages.
pub(crate) fn whole_pages(segment: &Segment<'_>) -> u64
    requires { segment.now.vmsize ≤ 2 ^ 62 }
    ensures { result ≡ paged segment.now.vmsize }
{
    page_up(segment.vmsize)
}

/// What the segments of an image take of each mapping, in bytes.
fn segments_room(segments: &[Segment<'_>]) -> Room
    requires { (m : Mapping) → segments_room m segments.now ≤ 2 ^ 47 }
    ensures { (m : Mapping) → held result m ≡ segments_room m segments.now }
{
    let mut room = Room::NONE;
    for segment in segments {
        if let Some(mapping) = mapping_of(segment) {
            room.grow(mapping, whole_pages(segment));
        }
    }
    room
}

/// What the segments of all images take of each mapping, in bytes.
pub(crate) fn images_room(images: &[Image<'_>]) -> Room
    requires { length images.now ≤ 4096 }
    ensures rooms { (m : Mapping) → held result m ≡ images_room m images.now }
    ensures fits { (m : Mapping) → images_room m images.now ≤ 2 ^ 59 }
{
    let mut room = Room::NONE;
    for image in images {
        image.facts();
        room.add(segments_room(&image.segments));
    }
    room
}

/// The size of the head of a cache of these images, in bytes, after mach-o/dyld_cache_format.h: the
/// header, three mappings, an entry for each image in both tables of images, and the NUL-ended paths.
pub(crate) fn head_size(images: &[Image<'_>]) -> u64
    requires few { length images.now ≤ 4096 }
    requires names { All (λ i. length i.install_name ≤ 1024) images.now }
    ensures size { result ≡ head_size images.now }
    ensures fits { result ≤ 2 ^ 32 }
{
    let mut size = 0xF8 + 3 * 32 + 64 * images.len() as u64;
    for image in images {
        size += image.install_name.len() as u64 + 1;
    }
    size
}
