//! The merged linkedit of a shared cache: the streams of all images, their symbol tables in one, and one
//! pool of names, after `mach-o/loader.h` and `mach-o/nlist.h` of Apple's published sources.
#![tactic(auto)]

mod exports;
mod fields;
mod images;
mod merged;
mod merging;
mod parts;
mod pool;
mod sizes;
mod spots;
mod streams;
mod tables;

pub use merging::merge;
pub use parts::eight_up;
pub use pool::{Pool, append_pool, pool_of};
pub use sizes::{SizeFault, end_behind, with_entries};
pub use tables::{append_entry, append_indices};

#[cfg(test)]
mod tests;
