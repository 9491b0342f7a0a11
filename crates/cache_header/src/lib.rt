//! The head of a cache: its header, the tables of mappings and images, and the images' paths, written
//! and read. The format is that of Apple's `dyld_cache_format.h`.
#![tactic(auto)]

mod entries;
mod head;
mod header;
mod identifier;
mod path;
mod reading;
mod tables;
mod writing;

pub use head::{CacheHead, Mapping, TableImage};
pub use identifier::cache_uuid;
pub use reading::read_cache_head;
pub use writing::write_cache_head;

#[cfg(test)]
mod tests;
