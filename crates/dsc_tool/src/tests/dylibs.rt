// Files that tests build from.
ghost use Rattle.std.specs.Prelude.{◌≤◌};

use sample_dylibs::{put_numbers, zeros_dylib};
use std::alloc::{AllocError, Global};

/// A dylib of two segments and an install name.
pub(super) fn plain_dylib(alloc: Global) -> Result<Vec<u8>, AllocError> {
    sample_dylibs::plain_dylib(alloc, 0x1040)
}

/// A dylib with a data segment of so many bytes, one rebase in it, and no references.
pub(super) fn data_dylib(alloc: Global, size: u32) -> Result<Vec<u8>, AllocError>
    requires { (0x1000 ≤ size) × (size ≤ 0x10000) }
{
    let end = 0x1000 + size;
    let mut file = sample_dylibs::data_dylib(alloc, end as usize + 0x40)?;
    let streams = [(0x2000, 0), (0x2008, 0)];
    put_numbers(&mut file, &streams);
    let sizes = [
        (0x18, 0x85),
        (0xD8, size),
        (0xE8, size),
        (0x128, size),
        (0x168, end),
        (0x178, end),
        (0x1C8, end),
        (0x1F8, end + 8),
        (end as usize, 0x5110_2111),
        (end as usize + 8, 0x7F),
    ];
    put_numbers(&mut file, &sizes);
    Ok(file)
}

/// A dylib with a data segment of so many bytes, of which all but the first page are zeros that aren't in the file.
pub(super) fn large_dylib(alloc: Global, data_size: u32) -> Result<Vec<u8>, AllocError>
    requires { data_size ≤ 0x4000_0000 }
{
    let mut file = zeros_dylib(alloc)?;
    let sizes = [
        (0xD8, data_size),
        (0x178, data_size.saturating_sub(0x1000)),
        (0x1B8, 0x1000 + data_size),
    ];
    put_numbers(&mut file, &sizes);
    Ok(file)
}
