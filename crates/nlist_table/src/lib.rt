//! Symbol tables of Mach-O images without their stabs: symbols with their names, and the indirect table and
//! the groups of LC_DYSYMTAB, after `mach-o/nlist.h` and `mach-o/loader.h` of Apple's published sources.
#![tactic(auto)]

mod entry;
mod kind;
mod moving;
mod names;
mod numbering;
mod read;
mod rules;
mod tables;

pub use moving::moved_value;
pub use read::read_tables;
pub use tables::{Symbol, Tables};

#[cfg(test)]
mod tests;
