//! Bind opcode streams of Mach-O images, which tell the words that loading sets to the addresses of symbols,
//! after the `BIND_OPCODE_` numbers of `mach-o/loader.h` of Apple's published sources.
#![tactic(auto)]

mod bind;
mod clash;
mod fault;
mod kind;
mod opcode;
mod read;
mod run;
mod symbol;
#[cfg(test)]
mod tests;
mod weak;

pub use bind::Bind;
pub use clash::words_clash;
pub use kind::StreamKind;
pub use read::read_binds;
pub use weak::check_weak;
