//! The words of the data that slide with a cache: how they are linked into chains page by page, and
//! how the chains are read back. The format is slide information of version 2 of Apple's
//! `dyld_cache_format.h`.
#![tactic(auto)]

mod gathering;
mod info_bytes;
mod info_read;
mod making;
mod reading;
mod rising;
mod runs;
mod sieve;
mod thinning;
mod unsliding;
mod words;
mod writing;

pub use info_bytes::slide_info_bytes;
pub use info_read::read_slide_info;
pub use making::make_slide_info;
pub use reading::read_chains;
pub use unsliding::unslide;
pub use words::{ChainWord, SlideInfo, slide_word};
pub use writing::write_chains;

#[cfg(test)]
mod tests;
