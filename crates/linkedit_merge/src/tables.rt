// The symbol tables of the images in a linkedit.
ghost use Rattle.std.specs.Prelude.{◌≡◌, ◌++◌, length, map, All, OnOk};
ghost use Rattle.std.specs.List.{flat_map};
ghost use Rattle.dsc_base.specs.Limits.{span_limit};
ghost use Rattle.dsc_base.specs.Numbers.{little_bytes};
ghost use Rattle.dsc_base.specs.Region.{padded};
ghost use Rattle.nlist_table.specs.Kept.{IsSymbol};
ghost use Rattle.nlist_table.specs.Spelling.{nlist_bytes};
ghost use Rattle.linkedit_merge.specs.Indices.{names_of, IsPool};
ghost use Rattle.linkedit_merge.specs.Linkedit as spec;
ghost use Rattle.linkedit_merge.specs.Parts.{eight_up};
ghost use Rattle.linkedit_merge.specs.Pool.{text_of};
ghost use Rattle.linkedit_merge.specs.Shares.{moved_symbol};

use crate::parts::eight_up;
use crate::pool::Pool;
use dsc_base::NoMemory;
use macho_image::{Image, Moves};
use nlist_table::{Symbol, moved_value};

/// Appends zeros up to a multiple of 8.
pub(crate) fn align(out: &mut Vec<u8>) -> Result<(), NoMemory>
    ensures { OnOk result (out.new.items ≡ padded (eight_up (length out.old.items)) out.old.items) }
{
    let end = eight_up(out.len() as u64);
    out.resize(end as usize, 0)?;
    Ok(())
}

/// Appends the `nlist_64` of a symbol, with this index of its name and this value. `NoMemory` says that memory
/// ran out.
pub fn append_entry(
    out: &mut Vec<u8>,
    strx: u32,
    symbol: &Symbol<'_>,
    value: u64,
) -> Result<(), NoMemory>
    ensures { OnOk result (out.new.items ≡ out.old.items ++ nlist_bytes (record { strx = strx; kind = symbol.now.kind; section = symbol.now.section; desc = symbol.now.desc; value = value })) }
{
    out.extend_from_slice(&strx.to_le_bytes())?;
    out.extend_from_slice(&[symbol.kind, symbol.section])?;
    out.extend_from_slice(&symbol.desc.to_le_bytes())?;
    out.extend_from_slice(&value.to_le_bytes())?;
    Ok(())
}

/// The value of a symbol in its entry: the index of the name that it is another name for, or its value where
/// its segment goes.
fn value_of(pool: &Pool<'_>, symbol: &Symbol<'_>, image: &Image<'_>, moves: &Moves) -> u64
    requires pool { IsPool span_limit pool.now }
    requires symbol { IsSymbol (length image.now.sections) symbol.now }
    requires moves { length moves.now ≡ length image.now.segments }
    ensures { result ≡ spec.entry_value (names_of pool.now) symbol.now.alias (moved_symbol image.now moves.now symbol.now).value }
{
    match symbol.alias {
        Some(alias) => u64::from(pool.index_of(alias)),
        None => moved_value(symbol, image, moves),
    }
}

/// Appends the entry of a symbol of an image whose segments go where the moves say.
fn append_symbol(
    out: &mut Vec<u8>,
    pool: &Pool<'_>,
    symbol: &Symbol<'_>,
    image: &Image<'_>,
    moves: &Moves,
) -> Result<(), NoMemory>
    requires pool { IsPool span_limit pool.now }
    requires symbol { IsSymbol (length image.now.sections) symbol.now }
    requires moves { length moves.now ≡ length image.now.segments }
    ensures { OnOk result (out.new.items ≡ out.old.items ++ spec.symbol_bytes (names_of pool.now) (moved_symbol image.now moves.now symbol.now)) }
{
    let strx = pool.index_of(symbol.name);
    let value = value_of(pool, symbol, image, moves);
    append_entry(out, strx, symbol, value)
}

/// Appends the entries of the symbols of an image.
pub(crate) fn append_symbols(
    out: &mut Vec<u8>,
    pool: &Pool<'_>,
    symbols: &[Symbol<'_>],
    image: &Image<'_>,
    moves: &Moves,
) -> Result<(), NoMemory>
    requires pool { IsPool span_limit pool.now }
    requires symbols { All (IsSymbol (length image.now.sections)) symbols.now }
    requires moves { length moves.now ≡ length image.now.segments }
    ensures { OnOk result (out.new.items ≡ out.old.items ++ flat_map (spec.symbol_bytes (names_of pool.now)) (map (moved_symbol image.now moves.now) symbols.now)) }
{
    for symbol in symbols {
        append_symbol(out, pool, symbol, image, moves)?;
    }
    Ok(())
}

/// Appends the entries of an indirect table, 4 bytes each. `NoMemory` says that memory ran out.
pub fn append_indices(out: &mut Vec<u8>, indices: &[u32]) -> Result<(), NoMemory>
    ensures { OnOk result (out.new.items ≡ out.old.items ++ flat_map (little_bytes 4) indices.now) }
{
    for index in indices {
        out.extend_from_slice(&index.to_le_bytes())?;
    }
    Ok(())
}
