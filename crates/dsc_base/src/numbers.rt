// Little-endian numbers in bytes, and rounding up to a multiple.
ghost use Rattle.std.specs.Prelude.{◌≡◌, ◌+◌, ◌<◌, ◌≤◌, ◌^◌, ℕ, length, IfSome, IfNone};
ghost use Rattle.std.specs.Option.{SomeIff};
ghost use Rattle.dsc_base.specs.Numbers.{number_at, put_number, IsRoundedUp, PutsReadBack, PutsKeepOthers};

use byteorder::{ByteOrder, LittleEndian};

/// The little-endian number in the two bytes from `at`, or `None` where it doesn't lie wholly inside.
#[tactic(auto, unfolding(crate::specs::Numbers::number_at))]
pub fn read_u16(bytes: &[u8], at: usize) -> Option<u16>
    ensures { SomeIff result (at + 2 ≤ length bytes.now) (number_at 2 bytes.now at) }
{
    if at > bytes.len() || bytes.len() - at < 2 {
        return None;
    }
    Some(LittleEndian::read_u16(&bytes[at..]))
}

/// The little-endian number in the four bytes from `at`, or `None` where it doesn't lie wholly inside.
#[tactic(auto, unfolding(crate::specs::Numbers::number_at))]
pub fn read_u32(bytes: &[u8], at: usize) -> Option<u32>
    ensures { SomeIff result (at + 4 ≤ length bytes.now) (number_at 4 bytes.now at) }
{
    if at > bytes.len() || bytes.len() - at < 4 {
        return None;
    }
    Some(LittleEndian::read_u32(&bytes[at..]))
}

/// The little-endian number in the eight bytes from `at`, or `None` where it doesn't lie wholly inside.
#[tactic(auto, unfolding(crate::specs::Numbers::number_at))]
pub fn read_u64(bytes: &[u8], at: usize) -> Option<u64>
    ensures { SomeIff result (at + 8 ≤ length bytes.now) (number_at 8 bytes.now at) }
{
    if at > bytes.len() || bytes.len() - at < 8 {
        return None;
    }
    Some(LittleEndian::read_u64(&bytes[at..]))
}

/// Writes the little-endian number over the two bytes from `at`, and changes no other byte.
pub fn put_u16(bytes: &mut [u8], at: usize, value: u16)
    requires { at + 2 ≤ length bytes.old }
    ensures put { bytes.new ≡ put_number 2 bytes.old at value }
    // It is read back there.
    ensures reads_back { number_at 2 bytes.new at ≡ value }
{
    LittleEndian::write_u16(&mut bytes[at..at + 2], value);
}

/// Writes the little-endian number over the four bytes from `at`, and changes no other byte.
pub fn put_u32(bytes: &mut [u8], at: usize, value: u32)
    requires { at + 4 ≤ length bytes.old }
    ensures put { bytes.new ≡ put_number 4 bytes.old at value }
    // It is read back there.
    ensures reads_back { number_at 4 bytes.new at ≡ value }
{
    LittleEndian::write_u32(&mut bytes[at..at + 4], value);
}

/// Writes the little-endian number over the eight bytes from `at`, and changes no other byte.
pub fn put_u64(bytes: &mut [u8], at: usize, value: u64)
    requires { at + 8 ≤ length bytes.old }
    ensures put { bytes.new ≡ put_number 8 bytes.old at value }
    // It is read back there.
    ensures reads_back { number_at 8 bytes.new at ≡ value }
{
    LittleEndian::write_u64(&mut bytes[at..at + 8], value);
}

/// What is known of `put_u16`, `put_u32` and `put_u64` together with `read_u16`, `read_u32` and
/// `read_u64`: a number that was written is read at its place, and a number that shares no byte with
/// it reads as before. Nothing is done.
pub fn puts_read_back()
    ensures same { (width : ℕ) → PutsReadBack width }
    ensures others { (width : ℕ) → PutsKeepOthers width }
{}

/// The least multiple of `unit` that is not below `n`, or `None` where it exceeds `u64::MAX`.
pub fn round_up(n: u64, unit: u64) -> Option<u64>
    requires { 0 < unit }
    ensures value { IfSome result (λ m. IsRoundedUp n unit m) }
    ensures none { IfNone result ((m : ℕ) → IsRoundedUp n unit m → 2 ^ 64 ≤ m) }
{
    let rest = n % unit;
    if rest == 0 {
        Some(n)
    } else {
        n.checked_add(unit - rest)
    }
}
