// The parts of a linkedit put one behind the other, each at the next multiple of 8.
ghost use Rattle.std.specs.Prelude.{◌≡◌, ◌≤◌, ◌*◌, length, OnOk, IfOk};
ghost use Rattle.std.specs.List.{flat_map};
ghost use Rattle.dsc_base.specs.Numbers.{little_bytes};
ghost use Rattle.linkedit_merge.specs.Indices.{names_of, IsPool};
ghost use Rattle.linkedit_merge.specs.Linkedit.{symbol_bytes};
ghost use Rattle.linkedit_merge.specs.Parts as parts;
ghost use Rattle.linkedit_merge.specs.Pool.{pool_bytes};
ghost use Rattle.linkedit_merge.specs.Sizes.{opened};
ghost use Rattle.extractor.specs.ExtractOf.{linkedit_limit};
ghost use Rattle.extractor.specs.Files as spec;

use crate::entries::{INDEX, SYMBOL, append_symbols};
use dsc_base::{NoMemory, Span};
use linkedit_merge::{Pool, append_indices, append_pool, eight_up};
use macho_image::Streams;
use nlist_table::{Symbol, Tables};

/// Where the streams of an image stand in a file, each 0 and 0 if it is empty.
#[derive(Clone, Copy, Debug, PartialEq, Eq)]
pub struct StreamSpans {
    pub rebase: Span,
    pub bind: Span,
    pub lazy: Span,
    pub exports: Span,
    pub function_starts: Span,
    pub data_in_code: Span,
}

/// Where its tables stand.
#[derive(Clone, Copy, Debug, PartialEq, Eq)]
pub struct TableSpans {
    pub symbols: Span,
    pub indirect: Span,
    pub strings: Span,
}

/// Where all of its linkedit stands.
#[derive(Clone, Copy, Debug, PartialEq, Eq)]
pub struct PartSpans {
    pub streams: StreamSpans,
    pub tables: TableSpans,
}

/// Makes ready for a part of so many bytes behind the others; gives its range in the file.
#[tactic(auto, unfolding(linkedit_merge::specs::Parts::span_behind))]
fn open_part(out: &mut Vec<u8>, len: u64) -> Result<Span, NoMemory>
    ensures bytes { OnOk result (out.new.items ≡ opened out.old.items len) }
    ensures span { IfOk result (λ s. s ≡ parts.span_behind 0 (length out.old.items) len) }
{
    if len == 0 {
        return Ok(Span { at: 0, len: 0 });
    }
    let at = eight_up(out.len() as u64);
    out.resize(at as usize, 0)?;
    Ok(Span { at, len })
}

/// Puts a part behind the others.
fn put_part(out: &mut Vec<u8>, part: &[u8]) -> Result<Span, NoMemory>
    ensures bytes { OnOk result (out.new.items ≡ parts.with_part out.old.items part.now) }
    ensures span { IfOk result (λ s. s ≡ parts.span_behind 0 (length out.old.items) (length part.now)) }
{
    let span = open_part(out, part.len() as u64)?;
    out.extend_from_slice(part)?;
    Ok(span)
}

/// Puts the entries of symbols behind the other parts.
fn put_symbols(out: &mut Vec<u8>, pool: &Pool<'_>, symbols: &[Symbol<'_>]) -> Result<Span, NoMemory>
    requires pool { IsPool linkedit_limit pool.now }
    requires few { 16 * length symbols.now ≤ linkedit_limit }
    ensures bytes { OnOk result (out.new.items ≡ parts.with_part out.old.items (flat_map (symbol_bytes (names_of pool.now)) symbols.now)) }
    ensures span { IfOk result (λ s. s ≡ parts.span_behind 0 (length out.old.items) (length (flat_map (symbol_bytes (names_of pool.now)) symbols.now))) }
{
    let span = open_part(out, SYMBOL * symbols.len() as u64)?;
    append_symbols(out, pool, symbols)?;
    Ok(span)
}

/// Puts the entries of an indirect table behind the other parts.
fn put_indices(out: &mut Vec<u8>, indices: &[u32]) -> Result<Span, NoMemory>
    requires { 4 * length indices.now ≤ linkedit_limit }
    ensures bytes { OnOk result (out.new.items ≡ parts.with_part out.old.items (flat_map (little_bytes 4) indices.now)) }
    ensures span { IfOk result (λ s. s ≡ parts.span_behind 0 (length out.old.items) (length (flat_map (little_bytes 4) indices.now))) }
{
    let span = open_part(out, INDEX * indices.len() as u64)?;
    append_indices(out, indices)?;
    Ok(span)
}

/// Puts a pool behind the other parts.
fn put_pool(out: &mut Vec<u8>, pool: &Pool<'_>) -> Result<Span, NoMemory>
    requires { IsPool linkedit_limit pool.now }
    ensures bytes { OnOk result (out.new.items ≡ parts.with_part out.old.items (pool_bytes (names_of pool.now))) }
    ensures span { IfOk result (λ s. s ≡ parts.span_behind 0 (length out.old.items) (length (pool_bytes (names_of pool.now)))) }
{
    let span = open_part(out, pool.len)?;
    append_pool(out, pool)?;
    Ok(span)
}

/// Puts the streams of an image behind the other parts, its own rebases first.
pub(crate) fn put_streams(
    out: &mut Vec<u8>,
    rebase: &[u8],
    streams: &Streams<'_>,
) -> Result<StreamSpans, NoMemory>
    ensures bytes { OnOk result (out.new.items ≡ parts.joined_behind out.old.items (spec.stream_parts rebase.now streams.now)) }
    ensures spans { IfOk result (λ s. spec.stream_spans s ≡ parts.spans_behind 0 (length out.old.items) (parts.lens_of (spec.stream_parts rebase.now streams.now))) }
{
    Ok(StreamSpans {
        rebase: put_part(out, rebase)?,
        bind: put_part(out, streams.bind)?,
        lazy: put_part(out, streams.lazy)?,
        exports: put_part(out, streams.exports)?,
        function_starts: put_part(out, streams.function_starts)?,
        data_in_code: put_part(out, streams.data_in_code)?,
    })
}

/// Puts the tables of an image behind the other parts, with a pool of their names.
pub(crate) fn put_tables(
    out: &mut Vec<u8>,
    tables: &Tables<'_>,
    pool: &Pool<'_>,
) -> Result<TableSpans, NoMemory>
    requires pool { IsPool linkedit_limit pool.now }
    requires few { spec.AreFew tables.now }
    ensures bytes { OnOk result (out.new.items ≡ parts.joined_behind out.old.items (spec.table_parts (names_of pool.now) tables.now)) }
    ensures spans { IfOk result (λ s. spec.table_spans s ≡ parts.spans_behind 0 (length out.old.items) (parts.lens_of (spec.table_parts (names_of pool.now) tables.now))) }
{
    Ok(TableSpans {
        symbols: put_symbols(out, pool, &tables.symbols)?,
        indirect: put_indices(out, &tables.indirect)?,
        strings: put_pool(out, pool)?,
    })
}
