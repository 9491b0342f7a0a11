// An image of a cache and its file.
ghost use Rattle.std.specs.Prelude.{◌≡◌};
ghost use Rattle.macho_image.specs.Segments.{header_address};

use crate::chains::Chains;
use macho_image::{Image, header_address};

/// A file and its cached image, among all images of the cache, with the addresses of both headers and the
/// words of the cache that slide.
#[derive(Clone, Copy)]
pub(crate) struct Matching<'s, 'a, 'b> {
    pub chains: Chains<'s>,
    pub all: &'s [Image<'b>],
    pub file: &'s Image<'a>,
    pub cached: &'s Image<'b>,
    pub from: u64,
    pub to: u64,
    ghost from_is: { from ≡ header_address file.now.segments },
    ghost to_is: { to ≡ header_address cached.now.segments },
}

impl<'s, 'a, 'b> Matching<'s, 'a, 'b> {
    /// A file and its cached image, among all images of the cache.
    pub(crate) fn new(
        chains: Chains<'s>,
        all: &'s [Image<'b>],
        file: &'s Image<'a>,
        cached: &'s Image<'b>,
    ) -> Matching<'s, 'a, 'b>
        ensures chains { result.chains ≡ chains.entry }
        ensures all { result.all.now ≡ all.entry.now }
        ensures file { result.file.now ≡ file.entry.now }
        ensures cached { result.cached.now ≡ cached.entry.now }
    {
        Matching {
            chains,
            all,
            file,
            cached,
            from: header_address(&file.segments),
            to: header_address(&cached.segments),
        }
    }
}
