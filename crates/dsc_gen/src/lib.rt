//! Trial inputs from a number: dylibs with deltas, pointers and links, whose bytes a generator of random
//! numbers decides.
#![tactic(auto)]

mod commands;
mod contents;
mod draws;
mod file;
mod files;
mod shape;
mod split;
mod spots;
mod streams;

pub use files::generate;
pub use shape::Shape;

#[cfg(test)]
mod tests;
