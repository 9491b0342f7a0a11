//! Caches read: their tables, their slide information and the words that slide, with everything that may be
//! wrong with them; and the images that a cache holds. The formats are those of `dyld_cache_format.h` and
//! `mach-o/loader.h` of Apple's published sources.
#![tactic(auto)]

mod chains;
mod checking;
mod comparing;
mod differing;
mod exports;
mod extents;
mod finding;
mod gaps;
mod images;
mod lookup;
mod matched;
mod matching;
mod mismatch;
mod names;
mod pairs;
mod plain;
mod read;
mod references;
mod sections;
mod segments;
mod shape;
mod shapes;
mod sides;
mod strays;
mod streams;
mod verdict;
mod view;
mod words;

pub use checking::check;
pub use read::read_cache;
pub use verdict::{Difference, Seen, Verdict};
pub use view::CacheView;

#[cfg(test)]
mod tests;
