// A set of images with their streams and links.
use bind_ops::Bind;
use dep_closure::Links;
use macho_image::{Image, Location};
use split_info::Reference;
use std::marker::Model;

/// What the streams of an image spell: its rebases in address order, the binds of the bind stream and then
/// those of the lazy stream, its references, which are none where they weren't read, and the bytes of its
/// export trie.
#[derive(Drop)]
pub struct ImageStreams<'a> {
    pub rebases: Vec<Location>,
    pub binds: Vec<Bind<'a>>,
    pub references: Vec<Reference>,
    pub exports: &'a [u8],
}

impl<'a> Model for ImageStreams<'a> {
    ghost use Rattle.prebind.specs.Sets.{StreamLists};

    ghost Value = { StreamLists };

    ghost view = { λ s. record { rebases = s.rebases.items; binds = s.binds.items; references = s.references.items; exports = s.exports.now } };
}

/// A set of images: `streams` has one entry for each image, and `links` is what `link_set` gives for them.
#[derive(Clone, Copy)]
pub struct Set<'s, 'a> {
    pub images: &'s [Image<'a>],
    pub streams: &'s [ImageStreams<'a>],
    pub links: &'s Links,
}

/// Types that workers may share and hand back.
fn is_shared<T: Send + Sync>(_value: &T) {}

impl<'a> ImageStreams<'a> {
    /// Does nothing; workers may share and hand back these lists.
    pub fn shares(&self) {
        is_shared(self);
    }
}

impl<'s, 'a> Set<'s, 'a> {
    /// Does nothing; workers may share a set.
    pub fn shares(&self) {
        is_shared(self);
    }
}
