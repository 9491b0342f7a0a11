// What tells where the symbols of a set lead once its files are read.
ghost use Rattle.std.specs.Prelude.{◌≡◌, ◌≤◌, length, map, IfOk, OnOk};
ghost use Rattle.std.specs.List.{All};
ghost use Rattle.prebind.specs.Indexed.{frame_of, WasRead, IsIndexOf};
ghost use Rattle.prebind.specs.Places.{exports_in};
ghost use Rattle.prebind.specs.Sets.{IsSoundSet};
ghost use Rattle.prebind.specs.Steps.{set_of, HaveTries};

use crate::resolution::are_bytes;
use crate::{ImageStreams, Set};
use dsc_base::{NoMemory, Span};
use export_trie::NameIndex;
use macho_image::{Image, header_address};
use std::alloc::Global;
use std::marker::Model;

/// Where an image stands: the address of its header, and those of all its segments in command order, each by
/// its start and its size in bytes.
#[derive(Drop)]
pub struct Frame {
    pub header: u64,
    pub segments: Vec<Span>,
}

impl Model for Frame {
    ghost use Rattle.prebind.specs.Indexed.{FrameOf};

    ghost Value = { FrameOf };

    ghost view = { λ f. record { header = f.header; segments = f.segments.items } };
}

/// An index of a set: where its images stand, and what they export, by names. Both have one entry for each
/// image.
#[derive(Drop)]
pub struct Indexed {
    pub frames: Vec<Frame>,
    pub names: NameIndex,
}

impl Model for Indexed {
    ghost use Rattle.prebind.specs.Indexed.{IndexOf};

    ghost Value = { IndexOf };

    ghost view = { λ i. record { frames = i.frames.items; names = i.names } };
}

/// Types that workers may share and hand back.
fn is_shared<T: Send + Sync>(_value: &T) {}

impl Indexed {
    /// Does nothing; workers may share an index.
    pub fn shares(&self) {
        is_shared(self);
    }
}

fn image_frame(alloc: Global, image: &Image<'_>) -> Result<Frame, NoMemory>
    ensures { IfOk result (λ f. f ≡ frame_of image.now) }
{
    let mut segments = Vec::with_capacity(alloc, image.segments.len())?;
    for segment in &image.segments {
        segments.push(Span {
            at: segment.vmaddr,
            len: segment.vmsize,
        })?;
    }
    Ok(Frame {
        header: header_address(&image.segments),
        segments,
    })
}

fn all_frames(alloc: Global, images: &[Image<'_>]) -> Result<Vec<Frame>, NoMemory>
    ensures frames { IfOk result (λ v. v.items ≡ map frame_of images.now) }
    ensures read { OnOk result (All WasRead images.now) }
{
    let mut frames = Vec::with_capacity(alloc, images.len())?;
    for image in images {
        image.facts();
        are_bytes(image.header);
        let frame = image_frame(alloc, image)?;
        frames.push(frame)?;
    }
    Ok(frames)
}

fn all_names(alloc: Global, streams: &[ImageStreams<'_>]) -> Result<NameIndex, NoMemory>
    requires few { length streams.now ≤ 4097 }
    requires tries { HaveTries streams.now }
    ensures { IfOk result (λ n. n ≡ exports_in streams.now) }
{
    let mut names = NameIndex::new(alloc);
    for image in streams {
        names.add(image.exports)?;
    }
    Ok(names)
}

/// The index of a set, by which `resolve_indexed` and `place_words_indexed` find what `resolve` and
/// `place_words` find in the files. Each image is gone over once. `NoMemory` says that memory ran out.
pub fn index_set(alloc: Global, set: &Set<'_, '_>) -> Result<Indexed, NoMemory>
    requires { IsSoundSet (set_of set.now) }
    ensures { IfOk result (IsIndexOf (set_of set.now)) }
{
    let frames = all_frames(alloc, set.images)?;
    let names = all_names(alloc, set.streams)?;
    Ok(Indexed { frames, names })
}
