// Where the parts of an image go in a cache.
ghost use Rattle.std.specs.Prelude.{◌≡◌, ℕ, length, slice_get};
ghost use Rattle.macho_image.specs.Segments.{start_of};
ghost use Rattle.cache_layout.specs.Apart.{move_at};
ghost use Rattle.ref_rewrite.specs.Moving as spec;
ghost use Rattle.ref_rewrite.specs.Steps.{IsMoving};

use cache_layout::Layout;
use macho_image::{Moved, Segment, header_address, text_number};

const NOWHERE: Moved = Moved {
    address: 0,
    file: 0,
};

/// An image of a layout, with the address of its header in its own file and the header's place in the cache.
#[derive(Clone, Copy)]
pub(crate) struct Moving<'p, 'a> {
    pub layout: &'p Layout,
    /// How many images the layout has.
    pub images: usize,
    pub number: u32,
    pub segments: &'p [Segment<'a>],
    pub header: u64,
    pub new_header: Moved,
}

/// Where a layout of so many images puts a segment of one; all 0 where there is no such segment.
fn move_at(layout: &Layout, images: usize, image: u32, segment: usize) -> Moved
    requires { images ≡ length layout.now.moves }
    ensures { result ≡ move_at layout.now image segment }
{
    if image as usize >= images {
        return NOWHERE;
    }
    match layout.moves(image).segments.get(segment) {
        Some(moved) => *moved,
        None => NOWHERE,
    }
}

/// Where a layout of so many images puts the header of one with these segments.
#[tactic(auto, unfolding(crate::specs::Moving::header_move))]
fn header_move(layout: &Layout, images: usize, image: u32, segments: &[Segment<'_>]) -> Moved
    requires { images ≡ length layout.now.moves }
    ensures { result ≡ spec.header_move layout.now image segments.now }
{
    match text_number(segments) {
        Some(text) => move_at(layout, images, image, text),
        None => NOWHERE,
    }
}

fn start_of(segments: &[Segment<'_>], number: u32) -> u64
    ensures { result ≡ start_of (slice_get segments.now number) }
{
    match segments.get(number as usize) {
        Some(segment) => segment.vmaddr,
        None => 0,
    }
}

impl<'p, 'a> Moving<'p, 'a> {
    /// The image of this number of a layout of so many, by its segments.
    pub(crate) fn new(
        layout: &'p Layout,
        images: usize,
        number: u32,
        segments: &'p [Segment<'a>],
    ) -> Moving<'p, 'a>
        requires { images ≡ length layout.now.moves }
        ensures sound { IsMoving result }
        ensures layout { result.layout.now ≡ layout.entry.now }
        ensures number { result.number ≡ number }
        ensures segments { result.segments.now ≡ segments.entry.now }
    {
        Moving {
            layout,
            images,
            number,
            segments,
            header: header_address(segments),
            new_header: header_move(layout, images, number, segments),
        }
    }

    /// The new start of a segment of any image of the layout.
    pub(crate) fn start(&self, image: u32, segment: u32) -> u64
        requires { IsMoving self.now }
        ensures { result ≡ spec.new_starts self.now.layout.now image segment }
    {
        move_at(self.layout, self.images, image, segment as usize).address
    }

    /// The offset in the file at which a segment of this image begins.
    pub(crate) fn file(&self, segment: usize) -> u64
        requires { IsMoving self.now }
        ensures { result ≡ (move_at self.now.layout.now self.now.number segment).file }
    {
        move_at(self.layout, self.images, self.number, segment).file
    }

    /// How far an address of a segment of this image is above the segment's start, modulo 2^64.
    #[tactic(auto, unfolding(macho_image::specs::Places::above))]
    pub(crate) fn distance(&self, segment: u32, address: u64) -> u64
        ensures { result ≡ spec.distance_in self.now.segments.now segment address }
    {
        address.wrapping_sub(start_of(self.segments, segment))
    }

    /// The new place of an address of a segment of this image.
    #[tactic(auto, unfolding(crate::specs::Moving::new_address, crate::specs::Moving::new_offset))]
    pub(crate) fn place(&self, segment: u32, address: u64) -> Moved
        requires { IsMoving self.now }
        ensures address { result.address ≡ spec.new_address self.now.layout.now self.now.number self.now.segments.now segment address }
        ensures file { result.file ≡ spec.new_offset self.now.layout.now self.now.number self.now.segments.now segment address }
    {
        let start = move_at(self.layout, self.images, self.number, segment as usize);
        let distance = self.distance(segment, address);
        Moved {
            address: start.address.wrapping_add(distance),
            file: start.file.wrapping_add(distance),
        }
    }
}
