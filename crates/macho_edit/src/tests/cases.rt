// The two dylibs, with what becomes of each.
mod streams;
mod symbols;

use crate::LinkSpots;
use macho_image::Moved;
use streams::DYLD_INFO;
use symbols::SYMBOLS;

/// What a file begins with: the dylib with data, or numbers of four bytes, each with its place.
pub(super) enum Front {
    DataDylib,
    Numbers(&'static [(usize, u32)]),
}

/// A file's length, what it begins with, where its segments and its
/// linkedit go, and the numbers in its header in the cache. All other numbers are 0. The cache has some length,
/// and there the dylib's header has so many bytes up to its last command, and the first section an address.
/// Where its segments and its linkedit go from there in a file of its own, of so many bytes, and the numbers in its
/// header that are others there.
pub(super) struct Case {
    pub len: usize,
    pub front: Front,
    pub moves: &'static [Moved],
    pub spots: LinkSpots,
    pub header_len: usize,
    pub header: &'static [(usize, u32)],
    pub cache_len: usize,
    pub kept_len: usize,
    pub first_section: u64,
    pub alone_moves: &'static [Moved],
    pub alone_spots: LinkSpots,
    pub alone_len: usize,
    pub alone: &'static [(usize, u32)],
}

pub(super) const CASES: [Case; 2] = [DYLD_INFO, SYMBOLS];
