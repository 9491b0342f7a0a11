// Numbers that are set at places of a buffer.
ghost use Rattle.std.specs.Prelude.{◌≡◌, ◌+◌, ◌≤◌, ◌<◌, ◌^◌, length, All};
ghost use Rattle.dsc_base.specs.Numbers.{number_at, put_number};
ghost use Rattle.dsc_base.specs.Edits.{put_all};

use byteorder::{ByteOrder, LittleEndian};

/// The little-endian number `value` of `width` bytes, to be set at the place `at`.
#[derive(Clone, Copy, Debug, PartialEq, Eq)]
pub struct Edit {
    pub at: u64,
    pub width: u8,
    pub value: u64,
}

/// Sets each number at its place, in order, and changes no other byte.
pub fn put_edits(bytes: &mut [u8], edits: &[Edit])
    requires narrow { All (λ e. e.width ≤ 8) edits.now }
    requires inside { All (λ e. e.at + e.width ≤ length bytes.old) edits.now }
    ensures { bytes.new ≡ put_all edits.now bytes.old }
{
    for edit in edits {
        put_bytes(bytes, edit.at as usize, edit.width as usize, edit.value);
    }
}

/// Writes the low `width` bytes of the value at the place `at`, the lowest first.
fn put_bytes(bytes: &mut [u8], at: usize, width: usize, value: u64)
    requires narrow { width ≤ 8 }
    requires inside { at + width ≤ length bytes.old }
    ensures { bytes.new ≡ put_number width bytes.old at value }
{
    bytes[at..at + width].copy_from_slice(&value.to_le_bytes()[..width]);
}

/// The little-endian number in the two bytes from `at`, which lie inside.
#[tactic(auto, unfolding(crate::specs::Numbers::number_at))]
pub fn get_u16(bytes: &[u8], at: usize) -> u16
    requires { at + 2 ≤ length bytes.now }
    ensures { result ≡ number_at 2 bytes.now at }
{
    LittleEndian::read_u16(&bytes[at..])
}

/// The little-endian number in the four bytes from `at`, which lie inside.
#[tactic(auto, unfolding(crate::specs::Numbers::number_at))]
pub fn get_u32(bytes: &[u8], at: usize) -> u32
    requires { at + 4 ≤ length bytes.now }
    ensures { result ≡ number_at 4 bytes.now at }
{
    LittleEndian::read_u32(&bytes[at..])
}

/// The little-endian number in the eight bytes from `at`, which lie inside.
#[tactic(auto, unfolding(crate::specs::Numbers::number_at))]
pub fn get_u64(bytes: &[u8], at: usize) -> u64
    requires { at + 8 ≤ length bytes.now }
    ensures { result ≡ number_at 8 bytes.now at }
{
    LittleEndian::read_u64(&bytes[at..])
}
