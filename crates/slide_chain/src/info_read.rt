// Slide information out of its bytes.
ghost use Rattle.std.specs.Prelude.{◌≡◌, ◌+◌, ◌-◌, ◌*◌, ◌/◌, ◌%◌, ◌^◌, ◌<◌, ◌≤◌, Option, None, true, length, nat_eq, nat_le, IfOk, OnOk, IfErr, Err};
ghost use Rattle.std.specs.Int.{trailing_ones, w64};
ghost use Rattle.dsc_base.specs.Numbers.{number_at};
ghost use Rattle.dsc_base.specs.Refusals.{IsViewRefusal};
ghost use Rattle.dsc_base.specs.declared.fault.ViewFault.TheVariants.{Broken};
ghost use Rattle.dsc_base.specs.declared.finding_kind.FindingKind.TheVariants.{MaskShape};
ghost use Rattle.slide_chain.specs.Chains.{Slide, IsRun};
ghost use Rattle.slide_chain.specs.Info.{info_read, halves_at, is_shaped, is_run, info_finding};
ghost use Rattle.slide_chain.specs.Steps.Shape.{HasShape};

use crate::SlideInfo;
use dsc_base::{Finding, FindingKind, NoMemory, ViewFault, get_u16, get_u32, get_u64};
use std::alloc::Global;

/// Where the cache's header tells the offset of the slide information.
const SLIDE_INFO_FIELD: u64 = 0x38;

/// Reads the slide information of `data_size` bytes of data. `SlideInfoShape` where the bytes
/// aren't of this version, page size and number of pages, or an array isn't inside them;
/// `MaskShape` where the mask isn't one run of ones whose lowest bit is 2 or more.
pub fn read_slide_info(alloc: Global, bytes: &[u8], data_size: u64) -> Result<SlideInfo, ViewFault>
    requires { data_size % 4096 ≡ 0 }
    ensures info { IfOk result (λ i. i ≡ info_read bytes.now) }
    ensures sound { OnOk result (info_finding data_size bytes.now ≡ None) }
    ensures run { IfOk result (λ i. IsRun i.mask) }
    // And a mask that is such a run is none that is refused.
    ensures no_run { result ≡ Err (Broken (record { kind = MaskShape; image = 0; at = 0x38 })) → ¬ IsRun (number_at 8 bytes.now 24) }
    ensures pages { IfOk result (λ i. length i.starts * 4096 ≡ data_size) }
    ensures cause { IfErr result (IsViewRefusal (info_finding data_size bytes.now)) }
{
    if !is_shaped(bytes, data_size) {
        return Err(found(FindingKind::SlideInfoShape));
    }
    let mask = get_u64(bytes, 24);
    if !is_run(mask) {
        return Err(found(FindingKind::MaskShape));
    }
    Ok(SlideInfo {
        mask,
        value_add: get_u64(bytes, 32),
        starts: read_halves(
            alloc,
            bytes,
            get_u32(bytes, 8) as usize,
            get_u32(bytes, 12) as usize,
        )?,
        extras: read_halves(
            alloc,
            bytes,
            get_u32(bytes, 16) as usize,
            get_u32(bytes, 20) as usize,
        )?,
    })
}

fn found(kind: FindingKind) -> ViewFault
    ensures { result ≡ Broken (record { kind = kind; image = 0; at = 0x38 }) }
{
    ViewFault::Broken(Finding {
        kind,
        image: 0,
        at: SLIDE_INFO_FIELD,
    })
}

/// Whether the bytes have a head of the right version, page size and number of pages, and both
/// arrays.
#[tactic(auto, unfolding(crate::specs::Info::is_shaped))]
fn is_shaped(bytes: &[u8], data_size: u64) -> bool
    ensures test { result ≡ is_shaped data_size bytes.now }
    ensures facts { result ≡ true → HasShape data_size bytes.now }
{
    bytes.len() >= 40
        && get_u32(bytes, 0) == 2
        && get_u32(bytes, 4) == 4096
        && get_u32(bytes, 12) as u64 == data_size / 4096
        && ends_inside(bytes, get_u32(bytes, 8), get_u32(bytes, 12))
        && ends_inside(bytes, get_u32(bytes, 16), get_u32(bytes, 20))
}

/// Whether so many numbers of two bytes from a place on lie inside.
fn ends_inside(bytes: &[u8], at: u32, count: u32) -> bool
    ensures { result ≡ nat_le (at + 2 * count) (length bytes.now) }
{
    at as usize + 2 * count as usize <= bytes.len()
}

/// Whether the mask is one run of ones whose lowest bit is 2 or more.
#[tactic(auto, unfolding(crate::specs::Info::is_run))]
fn is_run(mask: u64) -> bool
    ensures test { result ≡ is_run mask }
    ensures run { result ≡ true → IsRun mask }
{
    let low = mask.trailing_zeros();
    low >= 2 && low < 64 && is_low_run(mask >> low)
}

/// Whether a number has no ones above those that begin at its lowest bit.
fn is_low_run(ones: u64) -> bool
    requires { ones + 1 < 2 ^ 64 }
    ensures { result ≡ nat_eq (ones / 2 ^ trailing_ones w64 ones) 0 }
{
    ones >> ones.trailing_ones() == 0
}

/// So many numbers of two bytes from a place on, which lie inside.
fn read_halves(alloc: Global, bytes: &[u8], at: usize, count: usize) -> Result<Vec<u16>, NoMemory>
    requires { at + 2 * count ≤ length bytes.now }
    ensures { IfOk result (λ v. v.items ≡ halves_at count bytes.now at) }
{
    let mut numbers = Vec::with_capacity(alloc, count)?;
    for i in 0..count {
        numbers.push(get_u16(bytes, at + 2 * i))?;
    }
    Ok(numbers)
}
