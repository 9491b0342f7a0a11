// Writing a table of patches.
ghost use Rattle.std.specs.Prelude.{◌≡◌, ◌++◌, ◌<◌, ◌^◌, length, All, IfOk, OnOk};
ghost use Rattle.std.specs.List.{flat_map};
ghost use Rattle.dsc_base.specs.Fields.{spelled};
ghost use Rattle.patch_table.specs.Records.{Table};
ghost use Rattle.patch_table.specs.Spelling.{base_number, head_fields, record_bytes, FitsRecord, IsTable, Spells};

use crate::{Base, Patches, Record};
use dsc_base::{Field, NoMemory, spell_fields};
use std::alloc::Global;

/// The first bytes of a table.
pub(crate) const MAGIC: [u8; 16] = *b"dsc_patches_v1\0\0";

/// The number of a table that puts a file into the place of an image, and that of a program's.
pub(crate) const OVERRIDE: u32 = 1;

pub(crate) const PROGRAM: u32 = 2;

fn base_number(base: Base) -> u32
    ensures { result ≡ base_number base }
{
    match base {
        Base::Constant => 0,
        Base::Cache => 1,
        Base::File => 2,
    }
}

/// What stands before the records of a table with so many of them.
fn head(
    alloc: Global,
    uuid: [u8; 16],
    program: bool,
    image: u32,
    cached: u32,
    own: u32,
) -> Result<Vec<u8>, NoMemory>
    ensures bytes { IfOk result (λ v. v.items ≡ spelled (head_fields uuid program image cached own)) }
    ensures uuid_fits { length uuid ≡ 16 }
    ensures image_fits { image < 2 ^ 32 }
{
    let kind = if program { PROGRAM } else { OVERRIDE };
    let head = spell_fields(
        alloc,
        &[
            Field::Identifier(MAGIC),
            Field::Identifier(uuid),
            Field::U32(kind),
            Field::U32(image),
            Field::U32(cached),
            Field::U32(own),
        ],
    )?;
    Ok(head)
}

#[tactic(auto, unfolding(crate::specs::Spelling::record_bytes))]
fn append_record(out: &mut Vec<u8>, entry: Record) -> Result<(), NoMemory>
    ensures bytes { OnOk result (out.new.items ≡ out.old.items ++ record_bytes entry) }
    ensures fits { FitsRecord entry }
{
    out.extend_from_slice(&entry.at.to_le_bytes())?;
    out.extend_from_slice(&base_number(entry.base).to_le_bytes())?;
    out.extend_from_slice(&0u32.to_le_bytes())?;
    out.extend_from_slice(&entry.value.to_le_bytes())?;
    Ok(())
}

fn append_records(out: &mut Vec<u8>, records: &[Record]) -> Result<(), NoMemory>
    ensures bytes { OnOk result (out.new.items ≡ out.old.items ++ flat_map record_bytes records.now) }
    ensures fit { OnOk result (All FitsRecord records.now) }
{
    for record in records {
        append_record(out, *record)?;
    }
    Ok(())
}

/// The bytes of a table whose records rise strictly by `at`, fewer than 2^32 in each list, and which, for a
/// program, has image 0 and no records of the cache. `read_patches` gives the table back.
pub fn write_patches(alloc: Global, patches: &Patches) -> Result<Vec<u8>, NoMemory>
    requires { IsTable patches.now }
    ensures bytes { IfOk result (λ v. Spells patches.now v.items) }
    ensures read_back { IfOk result (λ v. (t : Table) → Spells t v.items → t ≡ patches.now) }
{
    let mut bytes = head(
        alloc,
        patches.cache_uuid,
        patches.program,
        patches.image,
        patches.cached.len() as u32,
        patches.own.len() as u32,
    )?;
    append_records(&mut bytes, &patches.cached)?;
    append_records(&mut bytes, &patches.own)?;
    Ok(bytes)
}
