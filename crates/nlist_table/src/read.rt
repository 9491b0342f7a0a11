// The tables of an image, read whole.
ghost use Rattle.std.specs.Prelude.{◌≡◌, length, option_copied, IfOk};
ghost use Rattle.dsc_base.specs.Refusals.{Refuses};
ghost use Rattle.macho_image.specs.Nlists.{nlists_of, indirect_of};
ghost use Rattle.macho_image.specs.TableRules.{tables_break, table_break};
ghost use Rattle.nlist_table.specs.Symbols as spec;
ghost use Rattle.nlist_table.specs.Kept.{AreTables, LeadAsIn};

use crate::entry::{Entry, read_entries, read_indices};
use crate::kind::{is_alias, is_stab};
use crate::names::name_at;
use crate::numbering::Numbering;
use crate::rules::tables_break;
use crate::{Symbol, Tables};
use dsc_base::{Fault, NoMemory};
use macho_image::Image;
use std::alloc::Global;

fn alias<'a>(strings: &'a [u8], entry: &Entry) -> Option<&'a [u8]>
    ensures { option_copied result ≡ spec.alias_of strings.entry.now entry.now }
{
    if is_alias(entry.kind) {
        name_at(strings, entry.value)
    } else {
        None
    }
}

fn value(entry: &Entry) -> u64
    ensures { result ≡ spec.value_of entry.now }
{
    if is_alias(entry.kind) { 0 } else { entry.value }
}

#[tactic(auto, unfolding(crate::specs::Symbols::symbol_of))]
fn symbol<'a>(strings: &'a [u8], entry: &Entry) -> Symbol<'a>
    ensures { result ≡ spec.symbol_of strings.entry.now entry.now }
{
    let name = name_at(strings, u64::from(entry.strx)).unwrap_or(&[]);
    Symbol {
        name,
        alias: alias(strings, entry),
        kind: entry.kind,
        section: entry.section,
        desc: entry.desc,
        value: value(entry),
    }
}

fn symbols<'a>(
    alloc: Global,
    strings: &'a [u8],
    entries: &[Entry],
) -> Result<Vec<Symbol<'a>>, NoMemory>
    ensures { IfOk result (λ v. v.items ≡ spec.symbols_of strings.entry.now entries.now) }
{
    let mut symbols = Vec::new(alloc);
    for entry in entries {
        if !is_stab(entry.kind) {
            symbols.push(symbol(strings, entry))?;
        }
    }
    Ok(symbols)
}

/// The tables of an image with so many sections, from their bytes.
fn read_parts<'a>(
    alloc: Global,
    sections: usize,
    symbol_bytes: &[u8],
    strings: &'a [u8],
    groups: [u32; 6],
    indirect_bytes: &[u8],
) -> Result<Tables<'a>, Fault>
    ensures tables { IfOk result (λ t. t ≡ spec.tables_from strings.entry.now (nlists_of symbol_bytes.now) groups (indirect_of indirect_bytes.now)) }
    ensures cause { Refuses (tables_break strings.entry.now sections (nlists_of symbol_bytes.now) groups (indirect_of indirect_bytes.now)) result }
{
    let entries = read_entries(alloc, symbol_bytes)?;
    let indices = read_indices(alloc, indirect_bytes)?;
    let numbering = Numbering::new(alloc, &entries)?;
    if let Some(site) = tables_break(strings, sections, &numbering, groups, &indices) {
        return Err(Fault::Broken(site));
    }
    Ok(Tables {
        symbols: symbols(alloc, strings, &entries)?,
        indirect: numbering.renumber_all(alloc, &indices)?,
        groups: numbering.regroup_all(groups),
    })
}

/// The symbols of an image without its stabs, with their names, and its indirect table and groups, whose
/// indices and counts are those of the symbols that are kept. The formats are those of `mach-o/nlist.h` and,
/// of LC_DYSYMTAB, of `mach-o/loader.h`.
///
/// Refuses the first of the rules `TableNameOutside`, `TableBadSection` and `TableIndexOutside` that the tables
/// break, stabs among them for the names: the one at the least place, and at one place the one named first.
/// The place is the index of the entry, in its table, or for a group the number of its first field, 0, 2 or 4.
/// `Memory` says that memory ran out. Time and memory are bounded by the sizes of the tables, and time by
/// 16,384 bytes for each name as well.
pub fn read_tables<'a>(alloc: Global, image: &Image<'a>) -> Result<Tables<'a>, Fault>
    ensures tables { IfOk result (λ t. t ≡ spec.tables_of image.now) }
    ensures sound { IfOk result (AreTables (length image.now.sections)) }
    ensures same { IfOk result (LeadAsIn image.now) }
    ensures cause { Refuses (table_break image.now) result }
{
    let streams = &image.streams;
    let tables = read_parts(
        alloc,
        image.sections.len(),
        streams.symbols,
        streams.strings,
        image.groups,
        streams.indirect,
    )?;
    Ok(tables)
}
