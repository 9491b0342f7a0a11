// Variable-length numbers, LEB128 as in section 7.6 of the DWARF 4 standard: seven bits in each byte, the
// lowest first, and bit 7 in every byte but the last. Mach-O's opcode streams and export tries use them.
ghost use Rattle.std.specs.Prelude.{◌≡◌, ◌+◌, ◌*◌, ◌++◌, ◌<◌, ◌≤◌, ◌↔◌, ◌^◌, ◌≤ℤ◌, ◌<ℤ◌, pos, neg_ℤ, ◌+ℤ◌, ◌*ℤ◌, ℕ, List, length, drop, IfOk, OnOk, OnErr, Ok, Err};
ghost use Rattle.dsc_base.specs.declared.fault.UlebFault.TheVariants.{Ended, TooWide};
ghost use Rattle.dsc_base.specs.Uleb.{uleb_at, sleb_at, uleb_bytes, uleb4_bytes, IsTooWide, IsSignedTooWide, IsCut};
ghost use Rattle.dsc_base.specs.Steps.Uleb.{uleb_within, sleb_within, signed_bits, room};

use crate::{NoMemory, UlebFault};

/// The most bytes that a number of 64 bits has.
const LONGEST: u8 = 10;

/// The number without sign at `at`, and the place after it. Spellings that are longer than they need to be
/// are read too. `TooWide` where the number has more than 64 bits, `Ended` where the bytes end before it.
pub fn read_uleb(bytes: &[u8], at: usize) -> Result<(u64, usize), UlebFault>
    requires { at ≤ length bytes.now }
    ensures number { result ≡ uleb_at bytes.now at }
    ensures too_wide { (result ≡ Err TooWide) ↔ IsTooWide (drop at bytes.now) }
    ensures ended { (result ≡ Err Ended) ↔ IsCut (drop at bytes.now) }
    ensures within { IfOk result (λ p. (at < p.1) × (p.1 ≤ length bytes.now)) }
{
    let (value, len) = front_uleb(&bytes[at..], LONGEST)?;
    Ok((value, at + len))
}

/// The number with a sign at `at`, in two's complement, and the place after it. `TooWide` where a tenth
/// byte is neither 0x00 nor 0x7F, `Ended` where the bytes end before it.
pub fn read_sleb(bytes: &[u8], at: usize) -> Result<(i64, usize), UlebFault>
    requires { at ≤ length bytes.now }
    ensures number { result ≡ sleb_at bytes.now at }
    ensures too_wide { (result ≡ Err TooWide) ↔ IsSignedTooWide (drop at bytes.now) }
    ensures ended { (result ≡ Err Ended) ↔ IsCut (drop at bytes.now) }
    ensures within { IfOk result (λ p. (at < p.1) × (p.1 ≤ length bytes.now)) }
{
    let (value, len) = front_sleb(&bytes[at..], LONGEST)?;
    Ok((value, at + len))
}

/// Appends the number in as few bytes as it takes. After `NoMemory` `out` is as before.
#[tactic(auto, using(crate::proofs::UlebLaws::uleb_read_back, crate::proofs::UlebLaws::uleb_least))]
pub fn put_uleb(out: &mut Vec<u8>, value: u64) -> Result<(), NoMemory>
    ensures appended { OnOk result (out.new.items ≡ out.old.items ++ uleb_bytes value) }
    ensures unchanged { OnErr result (out.new.items ≡ out.old.items) }
    // Read where it was appended it is the number, up to the end.
    ensures reads_back { OnOk result (uleb_at out.new.items (length out.old.items) ≡ Ok (value, length out.new.items)) }
    // It is read back, whatever follows it, and no other bytes that are read so are fewer.
    ensures read_back { (rest : List ℕ) → uleb_at (uleb_bytes value ++ rest) 0 ≡ Ok (value, length (uleb_bytes value)) }
    ensures shortest { (bytes : List ℕ) (end : ℕ) → uleb_at bytes 0 ≡ Ok (value, end) → length (uleb_bytes value) ≤ end }
{
    let mut spelling = [0u8; 10];
    let mut len = 0;
    let mut rest = value;
    while rest >= 128 {
        spelling[len] = 128 + (rest % 128) as u8;
        rest /= 128;
        len += 1;
    }
    spelling[len] = rest as u8;
    out.extend_from_slice(&spelling[..len + 1])?;
    Ok(())
}

/// How many bytes `put_uleb` appends.
#[tactic(auto, unfolding(crate::specs::Uleb::uleb_bytes))]
pub fn uleb_len(value: u64) -> usize
    ensures len { result ≡ length (uleb_bytes value) }
    ensures few { result ≤ 10 }
{
    let mut len = 1;
    let mut rest = value;
    while rest >= 128 {
        rest /= 128;
        len += 1;
    }
    len
}

/// Appends the number in four bytes, so that its length is known before the number is. After `NoMemory`
/// `out` is as before.
pub fn put_uleb4(out: &mut Vec<u8>, value: u32) -> Result<(), NoMemory>
    requires { value < 2 ^ 28 }
    ensures appended { OnOk result (out.new.items ≡ out.old.items ++ uleb4_bytes value) }
    ensures unchanged { OnErr result (out.new.items ≡ out.old.items) }
    // Read where it was appended it is the number, up to the end.
    ensures reads_back { OnOk result (uleb_at out.new.items (length out.old.items) ≡ Ok (value, length out.new.items)) }
{
    out.extend_from_slice(&uleb4(value))?;
    Ok(())
}

/// The number in four bytes.
#[tactic(auto, using(crate::proofs::UlebLaws::uleb4_read_back), unfolding(crate::specs::Uleb::uleb4_bytes))]
pub fn uleb4(value: u32) -> [u8; 4]
    requires { value < 2 ^ 28 }
    ensures spelled { result ≡ uleb4_bytes value }
    ensures read_back { (rest : List ℕ) → uleb_at (uleb4_bytes value ++ rest) 0 ≡ Ok (value, 4) }
{
    let above = value / 128;
    let top = above / 128;
    [
        128 + (value % 128) as u8,
        128 + (above % 128) as u8,
        128 + (top % 128) as u8,
        (top / 128) as u8,
    ]
}

/// The number at the front, and its length; at most ten calls deep.
fn front_uleb(bytes: &[u8], left: u8) -> Result<(u64, usize), UlebFault>
    requires { left ≤ 10 }
    ensures number { result ≡ uleb_within left bytes.now }
    ensures fits { IfOk result (λ p. 64 * (p.0 + 1) ≤ room left) }
    ensures within { IfOk result (λ p. (0 < p.1) × (p.1 ≤ length bytes.now)) }
{
    if left == 0 {
        return Err(UlebFault::TooWide);
    }
    match bytes {
        [] => Err(UlebFault::Ended),
        [byte, rest @ ..] => {
            if *byte >= 128 {
                let (value, len) = front_uleb(rest, left - 1)?;
                return Ok((u64::from(*byte % 128) + 128 * value, len + 1));
            }
            if left == 1 && *byte > 1 {
                return Err(UlebFault::TooWide);
            }
            Ok((u64::from(*byte), 1))
        }
    }
}

/// The number with a sign at the front, and its length; at most ten calls deep.
fn front_sleb(bytes: &[u8], left: u8) -> Result<(i64, usize), UlebFault>
    requires { left ≤ 10 }
    ensures number { result ≡ sleb_within left bytes.now }
    ensures low { IfOk result (λ p. neg_ℤ (pos (room left)) ≤ℤ (pos 128 *ℤ p.0)) }
    ensures high { IfOk result (λ p. (pos 128 *ℤ (p.0 +ℤ pos 1)) ≤ℤ pos (room left)) }
    ensures within { IfOk result (λ p. (0 < p.1) × (p.1 ≤ length bytes.now)) }
{
    if left == 0 {
        return Err(UlebFault::TooWide);
    }
    match bytes {
        [] => Err(UlebFault::Ended),
        [byte, rest @ ..] => {
            if *byte >= 128 {
                let (value, len) = front_sleb(rest, left - 1)?;
                return Ok((above(*byte % 128, value), len + 1));
            }
            if left == 1 && *byte > 0 && *byte < 127 {
                return Err(UlebFault::TooWide);
            }
            Ok((sign_extended(*byte), 1))
        }
    }
}

/// The number whose lowest seven bits are `low` and whose others are those of `value`.
fn above(low: u8, value: i64) -> i64
    requires low { low < 128 }
    requires from { neg_ℤ (pos (2 ^ 56)) ≤ℤ value }
    requires to { value <ℤ pos (2 ^ 56) }
    ensures { result ≡ pos low +ℤ pos 128 *ℤ value }
{
    i64::from(low) + 128 * value
}

/// Seven bits in two's complement.
fn sign_extended(bits: u8) -> i64
    requires { bits < 128 }
    ensures { result ≡ signed_bits bits }
{
    if bits < 64 {
        i64::from(bits)
    } else {
        i64::from(bits) - 128
    }
}
