// A small library of the system, which exports what a usual dylib binds.
ghost use Rattle.std.specs.Prelude.{◌≡◌, length, IfOk};

use crate::{plain_dylib, put_numbers};
use std::alloc::{AllocError, Global};

/// `/usr/lib/libSystem.B.dylib`: `__text` is 0x800 to 0x820. The rest is the plain dylib's.
const NUMBERS: [(usize, u32); 31] = [
    // mach_header_64
    (0x10, 0x4),
    (0x14, 0x148),
    // its __text
    (0x88, 0x800),
    (0x90, 0x20),
    (0x98, 0x800),
    (0xa8, 0x80000400),
    // LC_SEGMENT_64 of __LINKEDIT
    (0xe8, 0x2c),
    // LC_ID_DYLIB
    (0x104, 0x38),
    (0x10c, 0x2),
    (0x110, 0x4e50000),
    (0x118, 0x7273752f),
    (0x11c, 0x62696c2f),
    (0x120, 0x62696c2f),
    (0x124, 0x74737953),
    (0x128, 0x422e6d65),
    (0x12c, 0x6c79642e),
    (0x130, 0x6269),
    // LC_DYLD_INFO_ONLY
    (0x138, 0x80000022),
    (0x13c, 0x30),
    (0x160, 0x1000),
    (0x164, 0x2c),
    // the export trie: _sys at 0x800, dyld_stub_binder at 0x810
    (0x1000, 0x735f0200),
    (0x1004, 0x22007379),
    (0x1008, 0x646c7964),
    (0x100c, 0x7574735f),
    (0x1010, 0x69625f62),
    (0x1014, 0x7265646e),
    (0x1018, 0x2700),
    (0x1020, 0x30000),
    (0x1024, 0x3001080),
    (0x1028, 0x109000),
];

/// The dylib, of 0x102c bytes. `AllocError` where memory ran out.
pub fn system_dylib(alloc: Global) -> Result<Vec<u8>, AllocError>
    ensures { IfOk result (λ v. length v.items ≡ 4140) }
{
    let mut bytes = plain_dylib(alloc, 0x102c)?;
    put_numbers(&mut bytes, &NUMBERS);
    Ok(bytes)
}
