//! Headers of Mach-O images that move: the header that an image has in the shared cache, and the one that it
//! has in a file of its own, after `mach-o/loader.h` of Apple's published sources.
#![tactic(auto)]

mod header;
mod numbers;
mod segment;
mod spots;
mod tables;

pub use header::{cached_header, standalone_header};
pub use spots::LinkSpots;

#[cfg(test)]
mod tests;
