// What goes into the linkedit of a file of its own.
ghost use Rattle.std.specs.Prelude.{◌≡◌, ◌≤◌, ◌*◌, length, IfOk, IfErr, OnOk};
ghost use Rattle.nlist_table.specs.Symbols.{tables_of};
ghost use Rattle.nlist_table.specs.Kept.{AreTables};
ghost use Rattle.rebase_ops.specs.Writing.{CanBeWritten};
ghost use Rattle.linkedit_merge.specs.Indices.{pool_len, names_of, IsPool};
ghost use Rattle.linkedit_merge.specs.Sizes.{IsSize, Exceeds};
ghost use Rattle.extractor.specs.ExtractOf.{rebase_stream, linkedit_of, linkedit_limit};
ghost use Rattle.extractor.specs.Files.{AreOwnParts};
ghost use Rattle.extractor.specs.Prepared as spec;
ghost use Rattle.extractor.specs.Reading.{IsRead};

use crate::entries::{INDEX, SYMBOL};
use dsc_base::NoMemory;
use linkedit_merge::{Pool, SizeFault, end_behind, pool_of, with_entries};
use macho_image::{Image, Location};
use nlist_table::{Tables, read_tables};
use rebase_ops::write_rebases;
use std::alloc::Global;

/// The most bytes that the linkedit of a file may have.
pub(crate) const LINKEDIT_LIMIT: u64 = 0x4000_0000;

/// The rebase stream of some words; no bytes for none.
fn rebase_bytes(alloc: Global, image: &Image<'_>, words: &[Location]) -> Result<Vec<u8>, NoMemory>
    requires { CanBeWritten image.now words.now }
    ensures { IfOk result (λ v. v.items ≡ rebase_stream image.now words.now) }
{
    if words.is_empty() {
        return Ok(Vec::new(alloc));
    }
    let stream = write_rebases(alloc, image, words)?;
    Ok(stream)
}

/// The tables of an image that keeps the rules.
fn tables_in<'a>(alloc: Global, image: &Image<'a>) -> Result<Tables<'a>, NoMemory>
    requires { IsRead image.now }
    ensures tables { IfOk result (λ t. t ≡ tables_of image.now) }
    ensures sound { IfOk result (AreTables (length image.now.sections)) }
{
    match read_tables(alloc, image) {
        Ok(tables) => Ok(tables),
        Err(_) => Err(NoMemory),
    }
}

/// The bytes of so many entries of a width.
fn entries_size(count: usize, width: u64) -> Result<u64, SizeFault>
    requires { (1 ≤ width) × (width ≤ 16) }
    ensures size { IfOk result (IsSize linkedit_limit (width * count)) }
    ensures cause { IfErr result (Exceeds linkedit_limit (width * count)) }
{
    with_entries(0, count, width, LINKEDIT_LIMIT)
}

/// How many bytes a linkedit with so many symbols and indices has.
fn measure(
    image: &Image<'_>,
    rebase: u64,
    symbols: usize,
    indirect: usize,
    pool: u64,
) -> Result<u64, SizeFault>
    ensures size { IfOk result (IsSize linkedit_limit (spec.own_size image.now rebase symbols indirect pool)) }
    ensures cause { IfErr result (Exceeds linkedit_limit (spec.own_size image.now rebase symbols indirect pool)) }
{
    let symbols = entries_size(symbols, SYMBOL)?;
    let indirect = entries_size(indirect, INDEX)?;
    let streams = &image.streams;
    let lens = [
        rebase,
        streams.bind.len() as u64,
        streams.lazy.len() as u64,
        streams.exports.len() as u64,
        streams.function_starts.len() as u64,
        streams.data_in_code.len() as u64,
        symbols,
        indirect,
        pool,
    ];
    end_behind(0, &lens, LINKEDIT_LIMIT)
}

/// The pool of the names in tables.
fn pool_in<'a>(alloc: Global, tables: &Tables<'a>) -> Result<Pool<'a>, SizeFault>
    ensures pool { IfOk result (IsPool linkedit_limit) }
    ensures names { IfOk result (λ p. names_of p ≡ spec.names_in tables.now) }
    ensures cause { IfErr result (Exceeds linkedit_limit (pool_len (spec.names_in tables.now))) }
{
    pool_of(alloc, &tables.symbols, LINKEDIT_LIMIT)
}

/// How many bytes a linkedit has with these tables and the pool of their names.
fn measure_tables(
    image: &Image<'_>,
    rebase: u64,
    tables: &Tables<'_>,
    pool: &Pool<'_>,
) -> Result<u64, SizeFault>
    requires pool { IsPool linkedit_limit pool.now }
    requires names { names_of pool.now ≡ spec.names_in tables.now }
    ensures size { IfOk result (IsSize linkedit_limit (spec.table_size image.now rebase tables.now)) }
    ensures cause { IfErr result (Exceeds linkedit_limit (spec.table_size image.now rebase tables.now)) }
{
    measure(
        image,
        rebase,
        tables.symbols.len(),
        tables.indirect.len(),
        pool.len,
    )
}

/// What goes into a linkedit beside the streams of its image: the rebase stream, the tables, the pool of their
/// names; and how many bytes all of it has.
#[derive(Drop)]
pub(crate) struct OwnParts<'a> {
    pub rebase: Vec<u8>,
    pub tables: Tables<'a>,
    pub pool: Pool<'a>,
    pub size: u64,
}

/// What goes into the linkedit of an image in a file of its own, where some of its words slide and aren't bound.
/// Refuses more bytes than there may be.
pub(crate) fn own_parts<'a>(
    alloc: Global,
    image: &Image<'a>,
    words: &[Location],
) -> Result<OwnParts<'a>, SizeFault>
    requires read { IsRead image.now }
    requires words { CanBeWritten image.now words.now }
    ensures parts { IfOk result (AreOwnParts image.now words.now) }
    ensures small { OnOk result (length (linkedit_of image.now words.now) ≤ linkedit_limit) }
    ensures cause { IfErr result (Exceeds linkedit_limit (length (linkedit_of image.now words.now))) }
{
    let rebase = rebase_bytes(alloc, image, words)?;
    let tables = tables_in(alloc, image)?;
    let pool = pool_in(alloc, &tables)?;
    let size = measure_tables(image, rebase.len() as u64, &tables, &pool)?;
    Ok(OwnParts {
        rebase,
        tables,
        pool,
        size,
    })
}
