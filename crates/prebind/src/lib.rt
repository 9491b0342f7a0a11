//! Symbols of a set of dylibs resolved before they are loaded, in the two-level namespace of
//! `mach-o/loader.h` of Apple's published sources.
#![tactic(auto)]

mod body;
mod exports;
mod index;
mod lookups;
mod met;
mod place;
mod place_indexed;
mod probing;
mod reading;
mod rebased;
mod resolution;
mod resolved;
mod segments;
mod set;
mod spans;
#[cfg(test)]
mod tests;
mod words;

pub use exports::{check_exports, read_exports};
pub use index::{Frame, Indexed, index_set};
pub use place::{place_binds_by, place_words, place_words_by};
pub use place_indexed::{body_segments, place_words_indexed};
pub use probing::resolve_indexed;
pub use reading::{read_all_streams, read_streams};
pub use resolution::resolve;
pub use resolved::{PlacedWord, Resolved, WordTarget};
pub use set::{ImageStreams, Set};
pub use words::place_resolved;
