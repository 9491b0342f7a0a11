// The plain dylib with commands for symbol tables that are empty.
ghost use Rattle.std.specs.Prelude.{◌≡◌, length, IfOk};

use crate::{plain_dylib, put_numbers};
use std::alloc::{AllocError, Global};

/// `/s.dylib`: the linkedit is 0x9000 bytes at 0x1000, where symbols begin. The rest is the plain dylib's.
const NUMBERS: [(usize, u32); 11] = [
    // mach_header_64
    (0x10, 0x5),
    (0x14, 0x170),
    (0x18, 0x80),
    // LC_SEGMENT_64 of __LINKEDIT
    (0xd8, 0x9000),
    (0xe8, 0x9000),
    // LC_ID_DYLIB
    (0x118, 0x642e732f),
    // LC_SYMTAB
    (0x128, 0x2),
    (0x12c, 0x18),
    (0x130, 0x1000),
    // LC_DYSYMTAB
    (0x140, 0xb),
    (0x144, 0x50),
];

/// The dylib at the front of so many bytes; whole it has 0xA000. `AllocError` where memory ran out.
pub fn symbols_dylib(alloc: Global, len: usize) -> Result<Vec<u8>, AllocError>
    ensures { IfOk result (λ v. length v.items ≡ len) }
{
    let mut bytes = plain_dylib(alloc, len)?;
    put_numbers(&mut bytes, &NUMBERS);
    Ok(bytes)
}
