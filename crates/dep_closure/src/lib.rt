//! How the dylibs of a set need one another: which image each dependency names, and in which order the
//! images are searched that one of them re-exports, after the `LC_LOAD_DYLIB` commands of `mach-o/loader.h`
//! of Apple's published sources.
#![tactic(auto)]

mod dep;
mod dependencies;
mod links;
mod names;
mod search;
#[cfg(test)]
mod tests;

pub use dep::Dep;
pub use links::{Links, link_set};
