//! Tables of patches: the words of a cache, and of an image that is no part of it, that get another value so
//! that both work together. The format is this project's own; `docs/CACHE.md` has it.
#![tactic(auto)]

mod patches;
mod reading;
mod writing;

pub use patches::{Base, Patches, Record};
pub use reading::read_patches;
pub use writing::write_patches;

#[cfg(test)]
mod tests;
