// The parts of a linkedit that all images share.
ghost use Rattle.std.specs.Prelude.{◌≡◌, ◌≤◌, ◌+◌, ◌++◌, ◌^◌, length, OnOk, IfOk};
ghost use Rattle.std.specs.List.{flat_map};
ghost use Rattle.dsc_base.specs.Limits.{span_limit};
ghost use Rattle.dsc_base.specs.Numbers.{little_bytes};
ghost use Rattle.linkedit_merge.specs.Conditions.{HaveTables, HaveMoves};
ghost use Rattle.linkedit_merge.specs.Indices.{names_of, pool_len, IsPool};
ghost use Rattle.linkedit_merge.specs.Linkedit as spec;
ghost use Rattle.linkedit_merge.specs.Parts.{with_part, span_behind};
ghost use Rattle.linkedit_merge.specs.Pool.{pool_bytes};
ghost use Rattle.linkedit_merge.specs.Shares.{shares_of};
ghost use Rattle.linkedit_merge.specs.Sizes.{opened, symbols_size, indirect_size};

use crate::images::append_all_indices;
use crate::parts::span_behind;
use crate::pool::{Pool, append_pool};
use crate::tables::{align, append_symbols};
use cache_layout::Layout;
use dsc_base::{NoMemory, Span};
use macho_image::Image;
use nlist_table::Tables;

/// Makes ready for a part of so many bytes; gives its range in the file, where the linkedit starts at a place.
fn open_part(out: &mut Vec<u8>, start: u64, size: u64) -> Result<Span, NoMemory>
    requires { start ≤ 2 ^ 32 }
    ensures bytes { OnOk result (out.new.items ≡ opened out.old.items size) }
    ensures span { IfOk result (λ s. s ≡ span_behind start (length out.old.items) size) }
    ensures low { IfOk result (λ s. s.at ≤ 2 ^ 63 + 2 ^ 33) }
{
    let span = span_behind(start, out.len() as u64, size);
    if size != 0 {
        align(out)?;
    }
    Ok(span)
}

/// Appends the entries of the symbols of all images, with their values after the moves of a layout.
fn append_all_symbols(
    out: &mut Vec<u8>,
    pool: &Pool<'_>,
    images: &[Image<'_>],
    tables: &[Tables<'_>],
    layout: &Layout,
) -> Result<(), NoMemory>
    requires pool { IsPool span_limit pool.now }
    requires few { length images.now ≤ 4097 }
    requires tables { HaveTables images.now tables.now }
    requires moves { HaveMoves images.now layout.now.moves }
    ensures { OnOk result (out.new.items ≡ out.old.items ++ flat_map (spec.symbol_bytes (names_of pool.now)) (spec.all_symbols (shares_of images.now tables.now layout.now.moves))) }
{
    for (number, image) in images.iter().enumerate() {
        let table = &tables[number];
        append_symbols(
            out,
            pool,
            &table.symbols,
            image,
            layout.moves(number as u32),
        )?;
    }
    Ok(())
}

/// Puts the symbols of all images behind the other parts, whose entries have so many bytes.
pub(crate) fn put_symbols(
    out: &mut Vec<u8>,
    start: u64,
    size: u64,
    pool: &Pool<'_>,
    images: &[Image<'_>],
    tables: &[Tables<'_>],
    layout: &Layout,
) -> Result<Span, NoMemory>
    requires start { start ≤ 2 ^ 32 }
    requires size { size ≡ symbols_size tables.now }
    requires pool { IsPool span_limit pool.now }
    requires few { length images.now ≤ 4097 }
    requires tables { HaveTables images.now tables.now }
    requires moves { HaveMoves images.now layout.now.moves }
    ensures bytes { OnOk result (out.new.items ≡ with_part out.old.items (flat_map (spec.symbol_bytes (names_of pool.now)) (spec.all_symbols (shares_of images.now tables.now layout.now.moves)))) }
    ensures span { IfOk result (λ s. s ≡ span_behind start (length out.old.items) size) }
    ensures low { IfOk result (λ s. s.at ≤ 2 ^ 63 + 2 ^ 33) }
{
    let span = open_part(out, start, size)?;
    append_all_symbols(out, pool, images, tables, layout)?;
    Ok(span)
}

/// Puts the indirect tables of all images behind the other parts, whose entries have so many bytes.
pub(crate) fn put_indices(
    out: &mut Vec<u8>,
    start: u64,
    size: u64,
    tables: &[Tables<'_>],
) -> Result<Span, NoMemory>
    requires start { start ≤ 2 ^ 32 }
    requires size { size ≡ indirect_size tables.now }
    ensures bytes { OnOk result (out.new.items ≡ with_part out.old.items (flat_map (little_bytes 4) (flat_map (λ t. t.indirect) tables.now))) }
    ensures span { IfOk result (λ s. s ≡ span_behind start (length out.old.items) size) }
    ensures low { IfOk result (λ s. s.at ≤ 2 ^ 63 + 2 ^ 33) }
{
    let span = open_part(out, start, size)?;
    append_all_indices(out, tables)?;
    Ok(span)
}

/// Puts the pool behind the other parts.
pub(crate) fn put_pool(out: &mut Vec<u8>, start: u64, pool: &Pool<'_>) -> Result<Span, NoMemory>
    requires start { start ≤ 2 ^ 32 }
    requires pool { IsPool span_limit pool.now }
    ensures bytes { OnOk result (out.new.items ≡ with_part out.old.items (pool_bytes (names_of pool.now))) }
    ensures span { IfOk result (λ s. s ≡ span_behind start (length out.old.items) (pool_len (names_of pool.now))) }
{
    let span = open_part(out, start, pool.len)?;
    append_pool(out, pool)?;
    Ok(span)
}
