//! Builds a cache of dylibs, or names the first rule that they break.
#![tactic(auto)]

mod builder;
mod filling;
mod frame;
mod gathering;
mod head;
mod planned;
mod slides;

pub use builder::{Options, build};
