//! Dylibs taken out of a shared cache: a cache is vetted whole, and each of its images is then made a file of
//! its own, after `mach-o/loader.h` of Apple's published sources.
#![tactic(auto)]

mod bounds;
mod chain;
mod entries;
mod extracting;
mod free;
mod homes;
mod limits;
mod linkedit;
mod links;
mod pages;
mod parts;
mod pointers;
mod set;
mod symbols;
mod vetted;
mod words;

pub use extracting::extract;
pub use vetted::{Vetted, vet};

#[cfg(test)]
mod tests;
