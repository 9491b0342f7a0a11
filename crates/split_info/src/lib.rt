//! Split-segment information of Mach-O images, version 2: the references between sections, which are to be
//! changed where segments move apart. `LC_SEGMENT_SPLIT_INFO` of `mach-o/loader.h` names the stream, whose
//! format is `DYLD_CACHE_ADJ_V2` of Apple's published linker and cache builder.
#![tactic(auto)]

mod extent;
mod overlap;
mod read;
mod reading;
mod reference;
#[cfg(test)]
mod tests;
mod words;

pub use read::read_split;
pub use reference::{RefKind, Reference};
