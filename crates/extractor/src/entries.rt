// The entries of a symbol table.
ghost use Rattle.std.specs.Prelude.{◌≡◌, ◌++◌, OnOk};
ghost use Rattle.std.specs.List.{flat_map};
ghost use Rattle.linkedit_merge.specs.Indices.{names_of, IsPool};
ghost use Rattle.linkedit_merge.specs.Linkedit as spec;
ghost use Rattle.extractor.specs.ExtractOf.{linkedit_limit};

use dsc_base::NoMemory;
use linkedit_merge::{Pool, append_entry};
use nlist_table::Symbol;

/// The bytes of an entry of the symbol table, and of one of the indirect table.
pub(crate) const SYMBOL: u64 = 16;

pub(crate) const INDEX: u64 = 4;

/// The value of a symbol in its entry: the index of the name that it is another name for, or its own.
fn value_of(pool: &Pool<'_>, symbol: &Symbol<'_>) -> u64
    requires { IsPool linkedit_limit pool.now }
    ensures { result ≡ spec.entry_value (names_of pool.now) symbol.now.alias symbol.now.value }
{
    match symbol.alias {
        Some(alias) => u64::from(pool.index_of(alias)),
        None => symbol.value,
    }
}

/// Appends the entry of a symbol.
fn append_symbol(out: &mut Vec<u8>, pool: &Pool<'_>, symbol: &Symbol<'_>) -> Result<(), NoMemory>
    requires { IsPool linkedit_limit pool.now }
    ensures { OnOk result (out.new.items ≡ out.old.items ++ spec.symbol_bytes (names_of pool.now) symbol.now) }
{
    let strx = pool.index_of(symbol.name);
    let value = value_of(pool, symbol);
    append_entry(out, strx, symbol, value)
}

/// Appends the entries of symbols.
pub(crate) fn append_symbols(
    out: &mut Vec<u8>,
    pool: &Pool<'_>,
    symbols: &[Symbol<'_>],
) -> Result<(), NoMemory>
    requires { IsPool linkedit_limit pool.now }
    ensures { OnOk result (out.new.items ≡ out.old.items ++ flat_map (spec.symbol_bytes (names_of pool.now)) symbols.now) }
{
    for symbol in symbols {
        append_symbol(out, pool, symbol)?;
    }
    Ok(())
}
