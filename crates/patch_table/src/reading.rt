// Reading a table of patches.
ghost use Rattle.std.specs.Prelude.{◌≡◌, ◌≤◌, ◌+◌, ◌%◌, List, Option, true, false, length, take, drop, IfOk};
ghost use Rattle.dsc_base.specs.declared.fault.Site.{Site};
ghost use Rattle.dsc_base.specs.declared.fault.Fault.TheVariants.{Broken};
ghost use Rattle.dsc_base.specs.Refusals.{Refuses};
ghost use Rattle.patch_table.specs.declared.patches.Record.{Record};
ghost use Rattle.patch_table.specs.Records.{Table};
ghost use Rattle.patch_table.specs.Spelling.{Rises, SpellRecords, AreRecords, Spells};
ghost use Rattle.patch_table.specs.Reading.{base_of, has_head, HasHead, told_record, misshapen, IsBreakOf};

use crate::writing::{MAGIC, OVERRIDE, PROGRAM};
use crate::{Base, Patches, Record};
use dsc_base::{Fault, Rule, Site, get_u32, get_u64};
use std::alloc::Global;

/// The size of what stands before the records, and that of a record, in bytes.
const HEAD_SIZE: usize = 0x30;

const RECORD_SIZE: usize = 24;

fn misshapen() -> Fault
    ensures { result ≡ Broken misshapen }
{
    Fault::Broken(Site {
        rule: Rule::PatchShape,
        at: 0,
    })
}

fn base_of(number: u32) -> Option<Base>
    ensures { result ≡ base_of number }
{
    match number {
        0 => Some(Base::Constant),
        1 => Some(Base::Cache),
        2 => Some(Base::File),
        _ => None,
    }
}

/// The sixteen bytes from `at`.
fn sixteen(bytes: &[u8], at: usize) -> [u8; 16]
    requires { at + 16 ≤ length bytes.now }
    ensures { result ≡ take 16 (drop at bytes.now) }
{
    let mut copy = [0; 16];
    copy.copy_from_slice(&bytes[at..at + 16]);
    copy
}

/// Whether the bytes begin as a table, and are as many as its counts of records say.
#[tactic(auto, unfolding(crate::specs::Reading::has_head))]
fn has_head(bytes: &[u8]) -> bool
    ensures { result ≡ has_head bytes.now }
{
    if bytes.len() < HEAD_SIZE || !bytes.starts_with(&MAGIC) {
        return false;
    }
    let cached = get_u32(bytes, 0x28);
    let records = u64::from(cached) + u64::from(get_u32(bytes, 0x2C));
    let is_told = match get_u32(bytes, 0x20) {
        OVERRIDE => true,
        PROGRAM => get_u32(bytes, 0x24) == 0 && cached == 0,
        _ => false,
    };
    is_told && (bytes.len() - HEAD_SIZE) as u64 == 24 * records
}

/// The record that 24 bytes spell, or `None` where they spell none.
#[tactic(auto, unfolding(crate::specs::Reading::told_record))]
fn read_record(bytes: &[u8]) -> Option<Record>
    requires { length bytes.now ≡ 24 }
    ensures { result ≡ told_record bytes.now }
{
    if get_u32(bytes, 12) != 0 {
        return None;
    }
    let base = base_of(get_u32(bytes, 8))?;
    Some(Record {
        at: get_u64(bytes, 0),
        base,
        value: get_u64(bytes, 16),
    })
}

/// Whether the records rise strictly by their places.
fn rise(records: &[Record]) -> bool
    ensures yes { result ≡ true → Rises records.now }
    ensures no { result ≡ false → Rises records.now → ⊥ }
{
    for k in 1..records.len() {
        if records[k].at <= records[k - 1].at {
            return false;
        }
    }
    true
}

/// The records that the bytes spell one after another, in any order.
fn spelled_records(alloc: Global, bytes: &[u8]) -> Result<Vec<Record>, Fault>
    requires { length bytes.now % 24 ≡ 0 }
    ensures records { IfOk result (λ v. SpellRecords v.items bytes.now) }
    ensures refuses { (found : Option Site) → IsBreakOf ((rs : List Record) × SpellRecords rs bytes.now) found → Refuses found result }
{
    let count = bytes.len() / RECORD_SIZE;
    let mut records = Vec::with_capacity(alloc, count)?;
    for k in 0..count {
        let part = &bytes[RECORD_SIZE * k..RECORD_SIZE * k + RECORD_SIZE];
        let Some(record) = read_record(part) else {
            return Err(misshapen());
        };
        records.push(record)?;
    }
    Ok(records)
}

/// The records that the bytes spell, one after another, each with a higher place than the one before.
fn read_records(alloc: Global, bytes: &[u8]) -> Result<Vec<Record>, Fault>
    requires { length bytes.now % 24 ≡ 0 }
    ensures records { IfOk result (λ v. AreRecords v.items bytes.now) }
    ensures refuses { (found : Option Site) → IsBreakOf ((rs : List Record) × AreRecords rs bytes.now) found → Refuses found result }
{
    let records = spelled_records(alloc, bytes)?;
    if !rise(&records) {
        return Err(misshapen());
    }
    Ok(records)
}

/// The table in bytes that begin as one.
fn read_told(alloc: Global, bytes: &[u8]) -> Result<Patches, Fault>
    requires { HasHead bytes.now }
    ensures spelled { IfOk result (λ p. Spells p bytes.now) }
    ensures refuses { (found : Option Site) → IsBreakOf ((t : Table) × Spells t bytes.now) found → Refuses found result }
{
    let room = RECORD_SIZE * get_u32(bytes, 0x28) as usize;
    let (cached, own) = bytes[HEAD_SIZE..].split_at(room);
    let cached = read_records(alloc, cached)?;
    let own = read_records(alloc, own)?;
    Ok(Patches {
        cache_uuid: sixteen(bytes, 0x10),
        program: get_u32(bytes, 0x20) == PROGRAM,
        image: get_u32(bytes, 0x24),
        cached,
        own,
    })
}

/// The table of patches that `write_patches` spells in these bytes, or `Memory` where there is none for it.
///
/// Refuses bytes that no table has by the rule `PatchShape` at 0: bytes that end early or go on behind the
/// records, begin otherwise, or say another kind of table; a program's table with an image or records of the
/// cache; and records that don't rise strictly by `at`, whose base isn't one, or with bytes set in the gap.
pub fn read_patches(alloc: Global, bytes: &[u8]) -> Result<Patches, Fault>
    ensures spelled { IfOk result (λ p. Spells p bytes.now) }
    ensures refuses { (found : Option Site) → IsBreakOf ((t : Table) × Spells t bytes.now) found → Refuses found result }
{
    if !has_head(bytes) {
        return Err(misshapen());
    }
    let patches = read_told(alloc, bytes)?;
    Ok(patches)
}
