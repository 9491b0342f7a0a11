// The fields of a table or a header, one after another.
ghost use Rattle.std.specs.Prelude.{◌≡◌, ◌++◌, OnOk, IfOk};
ghost use Rattle.dsc_base.specs.Fields.{bytes_of, spelled};

use crate::NoMemory;
use std::alloc::Global;

/// One field: a little-endian number, an identifier of 16 bytes, or a gap of zeros.
#[derive(Clone, Copy, Debug, PartialEq, Eq)]
pub enum Field {
    U16(u16),
    U32(u32),
    U64(u64),
    Identifier([u8; 16]),
    Zeros(u32),
}

fn append_field(out: &mut Vec<u8>, field: Field) -> Result<(), NoMemory>
    ensures { OnOk result (out.new.items ≡ out.old.items ++ bytes_of field) }
{
    match field {
        Field::U16(value) => out.extend_from_slice(&value.to_le_bytes())?,
        Field::U32(value) => out.extend_from_slice(&value.to_le_bytes())?,
        Field::U64(value) => out.extend_from_slice(&value.to_le_bytes())?,
        Field::Identifier(bytes) => out.extend_from_slice(&bytes)?,
        Field::Zeros(count) => {
            let end = out.len().saturating_add(count as usize);
            out.resize(end, 0)?
        }
    }
    Ok(())
}

/// The bytes of the fields, in their order.
pub fn spell_fields(alloc: Global, fields: &[Field]) -> Result<Vec<u8>, NoMemory>
    ensures { IfOk result (λ v. v.items ≡ spelled fields.now) }
{
    let mut out = Vec::new(alloc);
    for field in fields {
        append_field(&mut out, *field)?;
    }
    Ok(out)
}
