//! Small dylibs that the tests of other crates begin with: each is a table of numbers of four bytes at their
//! places, after `mach-o/loader.h`, and zeros. A test sets what it wants to differ.
#![tactic(auto)]

ghost use Rattle.std.specs.Prelude.{◌≡◌, length, IfOk};

mod data;
mod plain;
mod symbols;
mod system;
mod usual;
mod zeros;

pub use data::{SHORT, WIDE, data_dylib};
pub use plain::plain_dylib;
use std::alloc::{AllocError, Global};
pub use symbols::symbols_dylib;
pub use system::system_dylib;
pub use usual::usual_dylib;
pub use zeros::zeros_dylib;

/// Sets numbers of four bytes, with the low byte first, each at its place. One that doesn't lie inside is left
/// out.
pub fn put_numbers(bytes: &mut [u8], numbers: &[(usize, u32)]) {
    for (place, value) in numbers {
        if *place < bytes.len() && bytes.len() - *place >= 4 {
            bytes[*place..*place + 4].copy_from_slice(&value.to_le_bytes());
        }
    }
}

/// So many bytes with these numbers in them, and zeros elsewhere. `AllocError` where memory ran out.
pub fn bytes_with(
    alloc: Global,
    len: usize,
    numbers: &[(usize, u32)],
) -> Result<Vec<u8>, AllocError>
    ensures { IfOk result (λ v. length v.items ≡ len) }
{
    let mut bytes = vec![in alloc; 0u8; len]?;
    put_numbers(&mut bytes, numbers);
    Ok(bytes)
}
