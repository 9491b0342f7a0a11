// A dylib with a text segment of one section and an install name.
ghost use Rattle.std.specs.Prelude.{◌≡◌, length, IfOk};

use crate::{bytes_with, put_numbers};
use std::alloc::{AllocError, Global};

/// What all begin with: the header but for its commands and flags, and `__TEXT` of one page with `__text`
/// from 0x400 to 0xC00.
pub(crate) const TEXT: [(usize, u32); 20] = [
    // mach_header_64
    (0x0, 0xfeedfacf),
    (0x4, 0x1000007),
    (0x8, 0x3),
    (0xc, 0x6),
    // LC_SEGMENT_64 of __TEXT
    (0x20, 0x19),
    (0x24, 0x98),
    (0x28, 0x45545f5f),
    (0x2c, 0x5458),
    (0x40, 0x1000),
    (0x50, 0x1000),
    (0x58, 0x5),
    (0x5c, 0x5),
    (0x60, 0x1),
    // its __text
    (0x68, 0x65745f5f),
    (0x6c, 0x7478),
    (0x78, 0x45545f5f),
    (0x7c, 0x5458),
    (0x88, 0x400),
    (0x90, 0x800),
    (0x98, 0x400),
];

/// `/a.dylib`: the linkedit is 0x40 bytes at 0x1000.
const NUMBERS: [(usize, u32); 21] = [
    // mach_header_64
    (0x10, 0x3),
    (0x14, 0x108),
    (0x18, 0x85),
    // LC_SEGMENT_64 of __LINKEDIT
    (0xb8, 0x19),
    (0xbc, 0x48),
    (0xc0, 0x494c5f5f),
    (0xc4, 0x44454b4e),
    (0xc8, 0x5449),
    (0xd0, 0x1000),
    (0xd8, 0x1000),
    (0xe0, 0x1000),
    (0xe8, 0x40),
    (0xf0, 0x1),
    (0xf4, 0x1),
    // LC_ID_DYLIB
    (0x100, 0xd),
    (0x104, 0x28),
    (0x108, 0x18),
    (0x110, 0x10000),
    (0x114, 0x10000),
    (0x118, 0x642e612f),
    (0x11c, 0x62696c79),
];

/// The dylib at the front of so many bytes; whole it has 0x1040. `AllocError` where memory ran out.
pub fn plain_dylib(alloc: Global, len: usize) -> Result<Vec<u8>, AllocError>
    ensures { IfOk result (λ v. length v.items ≡ len) }
{
    let mut bytes = bytes_with(alloc, len, &TEXT)?;
    put_numbers(&mut bytes, &NUMBERS);
    Ok(bytes)
}
