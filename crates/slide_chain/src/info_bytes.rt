// Slide information as bytes.
ghost use Rattle.std.specs.Prelude.{◌≡◌, ◌+◌, ◌*◌, ◌^◌, ◌<◌, ◌≤◌, List, [], ◌∷◌, ◌++◌, Option, None, length, IfOk, OnOk, IfErr};
ghost use Rattle.dsc_base.specs.Numbers.{little_bytes};
ghost use Rattle.slide_chain.specs.Chains.{Slide, slide_of, IsRun};
ghost use Rattle.slide_chain.specs.Info.{halves, info_bytes, info_read, info_finding};

use crate::SlideInfo;
use dsc_base::NoMemory;
use std::alloc::Global;

/// The bytes of slide information: `struct dyld_cache_slide_info2` with pages of 4096 bytes, the
/// starts behind it and the extras behind these.
pub fn slide_info_bytes(alloc: Global, info: &SlideInfo) -> Result<Vec<u8>, NoMemory>
    requires starts { length info.now.starts < 2 ^ 30 }
    requires extras { length info.now.extras < 2 ^ 30 }
    ensures bytes { IfOk result (λ v. v.items ≡ info_bytes info.now) }
    ensures back { IfOk result (λ v. info_read v.items ≡ info.now) }
    ensures sound { IfOk result (λ v. IsRun info.now.mask
        → info_finding (length info.now.starts * 4096) v.items ≡ None) }
{
    let bytes = spell(alloc, info.mask, info.value_add, &info.starts, &info.extras)?;
    Ok(bytes)
}

fn spell(
    alloc: Global,
    mask: u64,
    value_add: u64,
    starts: &[u16],
    extras: &[u16],
) -> Result<Vec<u8>, NoMemory>
    requires starts { length starts.now < 2 ^ 30 }
    requires extras { length extras.now < 2 ^ 30 }
    ensures bytes { IfOk result (λ v. v.items ≡ info_bytes (slide_of mask value_add starts.now extras.now)) }
    ensures back { IfOk result (λ v. info_read v.items ≡ slide_of mask value_add starts.now extras.now) }
    ensures sound { IfOk result (λ v. IsRun mask → info_finding (length starts.now * 4096) v.items ≡ None) }
{
    let count = starts.len() as u32;
    let mut bytes = Vec::with_capacity(alloc, 40 + 2 * starts.len() + 2 * extras.len())?;
    push_u32(&mut bytes, 2)?;
    push_u32(&mut bytes, 4096)?;
    push_u32(&mut bytes, 40)?;
    push_u32(&mut bytes, count)?;
    push_u32(&mut bytes, 40 + 2 * count)?;
    push_u32(&mut bytes, extras.len() as u32)?;
    push_u64(&mut bytes, mask)?;
    push_u64(&mut bytes, value_add)?;
    push_halves(&mut bytes, starts)?;
    push_halves(&mut bytes, extras)?;
    Ok(bytes)
}

fn push_u32(bytes: &mut Vec<u8>, value: u32) -> Result<(), NoMemory>
    ensures { OnOk result (bytes.new.items ≡ bytes.old.items ++ little_bytes 4 value) }
{
    bytes.extend_from_slice(&value.to_le_bytes())?;
    Ok(())
}

fn push_u64(bytes: &mut Vec<u8>, value: u64) -> Result<(), NoMemory>
    ensures { OnOk result (bytes.new.items ≡ bytes.old.items ++ little_bytes 8 value) }
{
    bytes.extend_from_slice(&value.to_le_bytes())?;
    Ok(())
}

fn push_halves(bytes: &mut Vec<u8>, numbers: &[u16]) -> Result<(), NoMemory>
    ensures { OnOk result (bytes.new.items ≡ bytes.old.items ++ halves numbers.now) }
{
    for number in numbers {
        push_u16(bytes, *number)?;
    }
    Ok(())
}

fn push_u16(bytes: &mut Vec<u8>, value: u16) -> Result<(), NoMemory>
    ensures { OnOk result (bytes.new.items ≡ bytes.old.items ++ little_bytes 2 value) }
{
    bytes.extend_from_slice(&value.to_le_bytes())?;
    Ok(())
}
