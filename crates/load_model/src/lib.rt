//! What loading separate files means, what mapping a cache means, and when the two correspond; and files read
//! and linked into the set that is loaded.
#![tactic(auto)]

mod linkedits;
mod loaded;
mod loading;
mod set;
mod symbols;
#[cfg(test)]
mod tests;

pub use linkedits::{Totals, total_with};
pub use loaded::LoadedSegment;
pub use loading::load_image;
pub use set::{FileSet, read_files};
pub use symbols::check_all_exports;
