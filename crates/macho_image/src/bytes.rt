// Parts of bytes, and numbers at places that are known to lie inside.
ghost use Rattle.std.specs.Prelude.{◌≡◌, ◌+◌, ◌≤◌, ◌<◌, ℕ, length, take, drop, slice_index};
ghost use Rattle.dsc_base.specs.Numbers.{number_at};

use dsc_base::{read_u32, read_u64};

/// Does nothing; its contract tells what is true of each slice of bytes.
pub(crate) fn are_bytes(bytes: &[u8])
    ensures { (k : ℕ) → slice_index bytes.now k < 256 }
{
    let _ = bytes;
}

pub(crate) fn number32(bytes: &[u8], at: usize) -> u32
    requires { at + 4 ≤ length bytes.now }
    ensures { result ≡ number_at 4 bytes.now at }
{
    read_u32(bytes, at).unwrap()
}

pub(crate) fn number64(bytes: &[u8], at: usize) -> u64
    requires { at + 8 ≤ length bytes.now }
    ensures { result ≡ number_at 8 bytes.now at }
{
    read_u64(bytes, at).unwrap()
}

/// The bytes from `at` on, none where that is past the end.
pub(crate) fn behind<'a>(bytes: &'a [u8], at: u64) -> &'a [u8]
    ensures { result.now ≡ drop at bytes.entry.now }
{
    let len = bytes.len();
    if at < len as u64 {
        &bytes[at as usize..]
    } else {
        &bytes[len..]
    }
}

/// The first `len` bytes, or all where there are fewer.
pub(crate) fn front<'a>(bytes: &'a [u8], len: u64) -> &'a [u8]
    ensures { result.now ≡ take len bytes.entry.now }
{
    if len < bytes.len() as u64 {
        &bytes[..len as usize]
    } else {
        bytes
    }
}

pub(crate) fn sixteen(bytes: &[u8], at: usize) -> [u8; 16]
    requires { at + 16 ≤ length bytes.now }
    ensures { result ≡ take 16 (drop at bytes.now) }
{
    let mut copy = [0; 16];
    copy.copy_from_slice(&bytes[at..at + 16]);
    copy
}
