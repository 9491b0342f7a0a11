//! Plans of what the ranges of each image hold in a cache file, and the rewriting of all the ranges by threads.
#![tactic(auto)]

mod bounds;
mod chained;
mod copies;
mod moving;
mod planning;
mod plans;
mod pointers;
mod references;
mod rewrite;
mod spans;

pub use dsc_base::Edit;
pub use planning::plan;
pub use plans::{ImagePlan, Piece};
pub use rewrite::rewrite_all;

#[cfg(test)]
mod tests;
