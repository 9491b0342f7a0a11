//! Rebase opcode streams of Mach-O images, which tell the pointers to which loading adds the slide, after
//! the `REBASE_OPCODE_` numbers of `mach-o/loader.h` of Apple's published sources.
#![tactic(auto)]

mod opcode;
mod read;
mod run;
#[cfg(test)]
mod tests;
mod write;

pub use read::read_rebases;
pub use write::write_rebases;
