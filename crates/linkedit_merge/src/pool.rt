// The string pool: each name once, with its index.
ghost use Rattle.std.specs.Prelude.{◌≡◌, ◌≤◌, ◌<◌, ◌++◌, ◌^◌, length, slice_index_or, ◌∷◌, [], false, OnOk, IfOk, IfErr, option_copied};
ghost use Rattle.std.specs.List.{list_any, flat_map};
ghost use Rattle.macho_image.specs.Rules.{same_bytes};
ghost use Rattle.nlist_table.specs.Symbols.{Tabs};
ghost use Rattle.linkedit_merge.specs.Indices.{names_in, AreIndexed, HasIndices, names_of, pool_len, IsPool};
ghost use Rattle.linkedit_merge.specs.Pool as spec;
ghost use Rattle.linkedit_merge.specs.Sizes.{Exceeds};

use crate::sizes::SizeFault;
use dsc_base::NoMemory;
use indexmap::IndexMap;
use nlist_table::{Symbol, Tables};
use std::alloc::Global;

/// The string pool of a linkedit: names that aren't empty, each once with its index, in the order of their first
/// appearance. `len` is the number of the pool's bytes: a byte 0, and then each name with its NUL.
#[derive(Drop)]
pub struct Pool<'a> {
    indices: IndexMap<&'a [u8], u32>,
    pub len: u64,
}

/// A pool with nothing but the empty name.
fn empty_pool<'a>(alloc: Global) -> Pool<'a>
    ensures pool { IsPool 1 result }
    ensures names { names_of result ≡ [] }
{
    Pool {
        indices: IndexMap::new(alloc),
        len: 1,
    }
}

/// Puts a name that isn't there behind the others, at an index.
fn put_new<'a>(
    indices: &mut IndexMap<&'a [u8], u32>,
    name: &'a [u8],
    index: u32,
) -> Result<(), NoMemory>
    requires new { list_any (same_bytes name.now) (names_in indices.old.entries) ≡ false }
    requires indexed { AreIndexed 1 indices.old.entries }
    requires index { index ≡ pool_len (names_in indices.old.entries) }
    ensures names { OnOk result (names_in indices.new.entries ≡ names_in indices.old.entries ++ name.entry.now ∷ []) }
    ensures indexed { OnOk result (AreIndexed 1 indices.new.entries) }
{
    match indices.insert(name, index) {
        Ok(_) => Ok(()),
        Err(_) => Err(NoMemory),
    }
}

/// Whether a name needs no place behind the others: it is empty or there.
fn is_pooled(pool: &Pool<'_>, name: &[u8]) -> bool
    ensures { result ≡ spec.is_pooled (names_of pool.now) name.now }
{
    name.is_empty() || pool.indices.contains_key(name)
}

/// Puts a name into the pool, unless it is empty or there.
fn put_name<'a>(pool: &mut Pool<'a>, name: &'a [u8], limit: u64) -> Result<(), SizeFault>
    requires pool { IsPool limit pool.old }
    requires limit { limit ≤ 2 ^ 31 }
    ensures pool { OnOk result (IsPool limit pool.new) }
    ensures names { OnOk result (names_of pool.new ≡ spec.put_name (names_of pool.old) name.entry.now) }
    ensures cause { IfErr result (Exceeds limit (pool_len (spec.put_name (names_of pool.old) name.entry.now))) }
{
    if is_pooled(pool, name) {
        return Ok(());
    }
    let end = pool.len + name.len() as u64 + 1;
    if end > limit {
        return Err(SizeFault::TooLarge);
    }
    put_new(&mut pool.indices, name, pool.len as u32)?;
    pool.len = end;
    Ok(())
}

/// Puts a name into the pool, and another one if there is one.
fn put_both<'a>(
    pool: &mut Pool<'a>,
    name: &'a [u8],
    alias: Option<&'a [u8]>,
    limit: u64,
) -> Result<(), SizeFault>
    requires pool { IsPool limit pool.old }
    requires limit { limit ≤ 2 ^ 31 }
    ensures pool { OnOk result (IsPool limit pool.new) }
    ensures names { OnOk result (names_of pool.new ≡ spec.pooled_behind (names_of pool.old) (name.entry.now ∷ spec.alias_names (option_copied alias.entry))) }
    ensures cause { IfErr result (Exceeds limit (pool_len (spec.pooled_behind (names_of pool.old) (name.entry.now ∷ spec.alias_names (option_copied alias.entry))))) }
{
    put_name(pool, name, limit)?;
    if let Some(alias) = alias {
        put_name(pool, alias, limit)?;
    }
    Ok(())
}

/// Puts the names of a symbol into the pool.
fn put_symbol<'a>(pool: &mut Pool<'a>, symbol: &Symbol<'a>, limit: u64) -> Result<(), SizeFault>
    requires pool { IsPool limit pool.old }
    requires limit { limit ≤ 2 ^ 31 }
    ensures pool { OnOk result (IsPool limit pool.new) }
    ensures names { OnOk result (names_of pool.new ≡ spec.pooled_behind (names_of pool.old) (spec.symbol_names symbol.now)) }
    ensures cause { IfErr result (Exceeds limit (pool_len (spec.pooled_behind (names_of pool.old) (spec.symbol_names symbol.now)))) }
{
    put_both(pool, symbol.name, symbol.alias, limit)
}

/// Puts the names of symbols into the pool.
fn put_symbols<'a>(pool: &mut Pool<'a>, symbols: &[Symbol<'a>], limit: u64) -> Result<(), SizeFault>
    requires pool { IsPool limit pool.old }
    requires limit { limit ≤ 2 ^ 31 }
    ensures pool { OnOk result (IsPool limit pool.new) }
    ensures names { OnOk result (names_of pool.new ≡ spec.pooled_behind (names_of pool.old) (flat_map spec.symbol_names symbols.now)) }
    ensures cause { IfErr result (Exceeds limit (pool_len (spec.pooled_behind (names_of pool.old) (flat_map spec.symbol_names symbols.now)))) }
{
    for symbol in symbols {
        put_symbol(pool, symbol, limit)?;
    }
    Ok(())
}

/// The pool of the names of symbols, in order. `TooLarge` comes where it has more bytes than the limit, and
/// `Memory` where memory ran out.
pub fn pool_of<'a>(alloc: Global, symbols: &[Symbol<'a>], limit: u64) -> Result<Pool<'a>, SizeFault>
    requires { (1 ≤ limit) × (limit ≤ 2 ^ 31) }
    ensures pool { IfOk result (IsPool limit) }
    ensures names { IfOk result (λ p. names_of p ≡ spec.pooled_behind [] (flat_map spec.symbol_names symbols.now)) }
    ensures cause { IfErr result (Exceeds limit (pool_len (spec.pooled_behind [] (flat_map spec.symbol_names symbols.now)))) }
{
    let mut pool = empty_pool(alloc);
    put_symbols(&mut pool, symbols, limit)?;
    Ok(pool)
}

/// The same of all tables, one behind the other.
pub(crate) fn pool_of_all<'a>(
    alloc: Global,
    tables: &[Tables<'a>],
    limit: u64,
) -> Result<Pool<'a>, SizeFault>
    requires { (1 ≤ limit) × (limit ≤ 2 ^ 31) }
    ensures pool { IfOk result (IsPool limit) }
    ensures names { IfOk result (λ p. names_of p ≡ spec.pooled_behind [] (flat_map spec.symbol_names (flat_map (λ t. t.symbols) tables.now))) }
    ensures cause { IfErr result (Exceeds limit (pool_len (spec.pooled_behind [] (flat_map spec.symbol_names (flat_map (λ t. t.symbols) tables.now))))) }
{
    let mut pool = empty_pool(alloc);
    for table in tables {
        put_symbols(&mut pool, &table.symbols, limit)?;
    }
    Ok(pool)
}

impl<'a> Pool<'a> {
    /// The index of a name; 0 for the empty one.
    pub fn index_of(&self, name: &[u8]) -> u32
        requires { HasIndices self.now }
        ensures { result ≡ spec.index_in (names_of self.now) name.now }
    {
        self.indices.get(name).copied().unwrap_or(0)
    }
}

/// Appends a name with its NUL.
fn append_name(out: &mut Vec<u8>, name: &[u8]) -> Result<(), NoMemory>
    ensures { OnOk result (out.new.items ≡ out.old.items ++ spec.text_of name.now) }
{
    out.extend_from_slice(name)?;
    out.push(0)?;
    Ok(())
}

/// The name of a number in the order of the pool.
fn name_at<'p>(pool: &'p Pool<'_>, number: usize) -> &'p [u8]
    requires { number < length (names_of pool.now) }
    ensures { result.now ≡ slice_index_or (names_of pool.entry.now) number [] }
{
    match pool.indices.get_index(number) {
        Some((name, _)) => *name,
        None => &[],
    }
}

/// Appends the bytes of a pool. `NoMemory` says that memory ran out.
#[tactic(auto, unfolding(crate::specs::Pool::pool_bytes))]
pub fn append_pool(out: &mut Vec<u8>, pool: &Pool<'_>) -> Result<(), NoMemory>
    ensures { OnOk result (out.new.items ≡ out.old.items ++ spec.pool_bytes (names_of pool.now)) }
{
    out.push(0)?;
    for number in 0..pool.indices.len() {
        append_name(out, name_at(pool, number))?;
    }
    Ok(())
}
