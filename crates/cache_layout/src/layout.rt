// A layout of a set of images.
ghost use Rattle.std.specs.Prelude.{◌≡◌, ◌≤◌, ◌<◌, ◌+◌, [], length, slice_index, slice_index_or, All, IfOk, OnOk, IfErr, None};
ghost use Rattle.cache_layout.specs.Apart.{AreInTurn, AreWithin, AreApart};
ghost use Rattle.cache_layout.specs.Parts.{AreJoined};
ghost use Rattle.dsc_base.specs.Refusals.{IsSetRefusal};
ghost use Rattle.cache_layout.specs.Layouts.{layout_of, layout_break};

use crate::moving::put_images;
use crate::room::{Room, head_size, images_room};
use dsc_base::{Break, Rule, SPAN_LIMIT, SetFault, Span, page_up};
use macho_image::{Image, Moves};
use std::alloc::Global;
use std::marker::Model;

/// How many bytes the head and the segments of a cache may take.
/// Where the segments of a set of images go: their new addresses and file offsets, and the ranges of
/// the file that hold the segments of each mapping.
#[derive(Drop)]
pub struct Layout {
    moves: Vec<Moves>,
    shifts: Vec<Vec<u64>>,
    text: Span,
    writable: Span,
    fixed: Span,
}

impl Model for Layout {
    ghost use Rattle.std.specs.Prelude.{map};
    ghost use Rattle.cache_layout.specs.Layouts.{Laid};

    ghost Value = { Laid };

    ghost view = { λ l. record { moves = l.moves.items; shifts = map (λ v. v.items) l.shifts.items; text = l.text; writable = l.writable; fixed = l.fixed } };
}

impl Layout {
    /// Where the segments of an image go, in command order. The entry of `__LINKEDIT` is 0 and 0.
    pub fn moves(&self, image: u32) -> &Moves
        requires { image < length self.now.moves }
        ensures { result.now ≡ slice_index_or self.now.moves image [] }
    {
        &self.moves[image as usize]
    }

    /// The new address of a segment of an image less its old one, modulo 2^64.
    pub fn shift(&self, image: u32, segment: u32) -> u64
        requires image { image < length self.now.shifts }
        requires segment { segment < length (slice_index_or self.now.shifts image []) }
        ensures { result ≡ slice_index (slice_index_or self.now.shifts image []) segment }
    {
        let shifts = self.shifts[image as usize].as_slice();
        shifts[segment as usize]
    }

    /// The range of the file that holds the segments of the text mapping, without the head.
    pub fn text(&self) -> Span
        ensures { result ≡ self.now.text }
    {
        self.text
    }

    /// The range of the file that holds the segments of the data mapping.
    pub fn writable(&self) -> Span
        ensures { result ≡ self.now.writable }
    {
        self.writable
    }

    /// The range of the file that holds the read-only segments other than `__LINKEDIT`.
    pub fn fixed(&self) -> Span
        ensures { result ≡ self.now.fixed }
    {
        self.fixed
    }
}

/// Where the segments of the images go: in the order of mapping, image and command, each in whole
/// pages, the first behind the head's pages.
///
/// `SpanTooLarge` of image 0 says where the segments end in the file, if that is behind 512 MiB; it
/// comes before any memory is taken. `Memory` says that memory ran out.
pub fn lay_out(alloc: Global, images: &[Image<'_>]) -> Result<Layout, SetFault>
    requires few { length images.now ≤ 4096 }
    requires names { All (λ i. length i.install_name ≤ 1024) images.now }
    ensures layout { IfOk result (λ l. l ≡ layout_of images.now) }
    ensures ranges { IfOk result (AreInTurn images.now) }
    ensures within { IfOk result (AreWithin images.now) }
    ensures apart { IfOk result (AreApart images.now) }
    ensures parts { IfOk result (AreJoined images.now) }
    ensures fits { OnOk result (layout_break images.now ≡ None) }
    ensures cause { IfErr result (IsSetRefusal (layout_break images.now)) }
{
    let head = page_up(head_size(images));
    let room = images_room(images);
    let starts = Room {
        text: head,
        writable: head + room.text,
        fixed: head + room.text + room.writable,
    };
    let end = starts.fixed + room.fixed;
    if end > SPAN_LIMIT {
        return Err(SetFault::Broken(Break {
            rule: Rule::SpanTooLarge,
            image: 0,
            at: end,
        }));
    }
    let (moves, shifts) = put_images(alloc, images, starts)?;
    Ok(Layout {
        moves,
        shifts,
        text: range(starts.text, room.text),
        writable: range(starts.writable, room.writable),
        fixed: range(starts.fixed, room.fixed),
    })
}

fn range(at: u64, len: u64) -> Span
    ensures { result ≡ record { at = at; len = len } }
{
    Span { at, len }
}
