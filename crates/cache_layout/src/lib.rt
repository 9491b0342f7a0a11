//! Where the segments of a set of dylibs go in a cache: by mapping, then by image, then by command,
//! each in whole pages, behind the cache's head.
#![tactic(auto)]

mod layout;
mod mapping;
mod moving;
mod room;

pub use layout::{Layout, lay_out};
pub use mapping::Mapping;

#[cfg(test)]
mod tests;
