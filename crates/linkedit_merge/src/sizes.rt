// Sizes of parts, as far as a limit.
ghost use Rattle.std.specs.Prelude.{◌≡◌, ◌≤◌, ◌+◌, ◌*◌, ◌^◌, IfOk, IfErr};
ghost use Rattle.linkedit_merge.specs.declared.sizes.SizeFault.TheVariants as faults;
ghost use Rattle.linkedit_merge.specs.Linkedit as spec;
ghost use Rattle.linkedit_merge.specs.Parts as parts;
ghost use Rattle.linkedit_merge.specs.Sizes.{IsSize, Exceeds, refusal_of};

use crate::parts::eight_up;
use dsc_base::{Break, NoMemory, Rule, SPAN_LIMIT, SetFault};

/// Why parts of a linkedit aren't made: they have more bytes than they may, or memory ran out.
#[derive(Clone, Copy, Debug, PartialEq, Eq)]
pub enum SizeFault {
    TooLarge,
    Memory,
}

impl From<NoMemory> for SizeFault {
    ghost from_gives = { λ _ e. e ≡ faults.Memory };

    fn from(_: NoMemory) -> Self {
        SizeFault::Memory
    }
}

/// The refusal of a linkedit with which a cache would exceed what it may span.
pub(crate) fn too_large() -> Break
    ensures { result ≡ spec.too_large }
{
    Break {
        rule: Rule::LinkeditTooLarge,
        image: 0,
        at: SPAN_LIMIT,
    }
}

// The sizes of a set's linkedit go as far as a cache may span.
impl From<SizeFault> for SetFault {
    ghost from_gives = { λ fault e. e ≡ refusal_of fault };

    fn from(fault: SizeFault) -> Self {
        match fault {
            SizeFault::TooLarge => SetFault::Broken(too_large()),
            SizeFault::Memory => SetFault::Memory,
        }
    }
}

/// Where a part of so many bytes ends behind others.
#[tactic(auto, unfolding(crate::specs::Parts::end_with))]
fn end_with(before: u64, len: u64, limit: u64) -> Result<u64, SizeFault>
    requires before { before ≤ limit }
    requires limit { limit ≤ 2 ^ 32 }
    ensures size { IfOk result (IsSize limit (parts.end_with before len)) }
    ensures cause { IfErr result (Exceeds limit (parts.end_with before len)) }
{
    if len == 0 {
        return Ok(before);
    }
    if len > limit {
        return Err(SizeFault::TooLarge);
    }
    let end = eight_up(before) + len;
    if end > limit {
        return Err(SizeFault::TooLarge);
    }
    Ok(end)
}

/// Where parts of these sizes end behind others, in bytes, each at the next multiple of 8. `TooLarge` comes
/// where that exceeds the limit. It takes no memory.
pub fn end_behind(before: u64, lens: &[u64], limit: u64) -> Result<u64, SizeFault>
    requires before { before ≤ limit }
    requires limit { limit ≤ 2 ^ 32 }
    ensures size { IfOk result (IsSize limit (parts.end_behind before lens.now)) }
    ensures cause { IfErr result (Exceeds limit (parts.end_behind before lens.now)) }
{
    let mut end = before;
    for len in lens {
        end = end_with(end, *len, limit)?;
    }
    Ok(end)
}

/// A number of bytes and those of so many entries of a width. `TooLarge` comes where that exceeds the limit.
/// It takes no memory.
pub fn with_entries(before: u64, count: usize, width: u64, limit: u64) -> Result<u64, SizeFault>
    requires before { before ≤ limit }
    requires limit { limit ≤ 2 ^ 32 }
    requires width { (1 ≤ width) × (width ≤ 16) }
    ensures size { IfOk result (IsSize limit (before + width * count)) }
    ensures cause { IfErr result (Exceeds limit (before + width * count)) }
{
    if count as u64 > limit {
        return Err(SizeFault::TooLarge);
    }
    let end = before + width * count as u64;
    if end > limit {
        return Err(SizeFault::TooLarge);
    }
    Ok(end)
}
