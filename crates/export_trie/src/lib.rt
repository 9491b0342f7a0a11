//! Export tries of Mach-O images: all exports read, one export found, tries written, and an
//! index of the exports of several images by their names.
#![tactic(auto)]

mod children;
mod export;
mod finding;
mod index;
mod measuring;
mod node;
mod reading;
mod steps;
#[cfg(test)]
mod tests;
mod writing;

pub use export::{Entry, Export, Found, Target};
pub use finding::find;
pub use index::NameIndex;
pub use measuring::trie_len;
pub use reading::read_trie;
pub use steps::Steps;
pub use writing::write_trie;
