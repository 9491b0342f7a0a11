// The rules that the tables of a dylib keep.
ghost use Rattle.std.specs.Prelude.{◌≡◌, position};
ghost use Rattle.dsc_base.specs.Refusals.{broken};
ghost use Rattle.macho_image.specs.TableRules as rules;

use crate::entry::Entry;
use crate::kind::{is_alias, is_in_section};
use crate::names::name_at;
use crate::numbering::{Numbering, is_flag};
use dsc_base::{Rule, Site};

fn lacks_name(strings: &[u8], entry: &Entry) -> bool
    ensures { result ≡ rules.lacks_name strings.now entry.now }
{
    name_at(strings, u64::from(entry.strx)).is_none()
        || is_alias(entry.kind) && name_at(strings, entry.value).is_none()
}

fn table_name(strings: &[u8], entries: &[Entry]) -> Option<usize>
    ensures { result ≡ rules.breaks_table_name strings.now entries.now }
{
    entries.iter().position(|e| lacks_name(strings, e))
}

fn lacks_section(sections: usize, entry: &Entry) -> bool
    ensures { result ≡ rules.lacks_section sections entry.now }
{
    is_in_section(entry.kind) && (entry.section == 0 || usize::from(entry.section) > sections)
}

fn table_section(sections: usize, entries: &[Entry]) -> Option<usize>
    ensures { result ≡ rules.breaks_table_section sections entries.now }
{
    entries.iter().position(|e| lacks_section(sections, e))
}

fn ends_behind(count: usize, first: u32, len: u32) -> bool
    ensures { result ≡ rules.ends_behind count first len }
{
    u64::from(first) + u64::from(len) > count as u64
}

fn bad_group(count: usize, groups: [u32; 6]) -> Option<usize>
    ensures { result ≡ rules.breaks_groups count groups }
{
    if ends_behind(count, groups[0], groups[1]) {
        Some(0)
    } else if ends_behind(count, groups[2], groups[3]) {
        Some(2)
    } else if ends_behind(count, groups[4], groups[5]) {
        Some(4)
    } else {
        None
    }
}

fn lacks_symbol(numbering: &Numbering<'_>, index: u32) -> bool
    ensures { result ≡ rules.lacks_symbol numbering.now.entries.now index }
{
    !is_flag(index) && !numbering.keeps(index)
}

fn bad_index(numbering: &Numbering<'_>, indices: &[u32]) -> Option<usize>
    ensures { result ≡ position (rules.lacks_symbol numbering.now.entries.now) indices.now }
{
    indices
        .iter()
        .position(|index| lacks_symbol(numbering, *index))
}

fn table_index(numbering: &Numbering<'_>, groups: [u32; 6], indices: &[u32]) -> Option<usize>
    ensures { result ≡ rules.breaks_table_index numbering.now.entries.now groups indices.now }
{
    let group = bad_group(numbering.entries.len(), groups);
    let index = bad_index(numbering, indices);
    match (group, index) {
        (Some(group), Some(index)) => Some(group.min(index)),
        (Some(group), None) => Some(group),
        (None, index) => index,
    }
}

fn broken(rule: Rule, place: Option<usize>) -> Option<Site>
    ensures { result ≡ broken rule place }
{
    let at = place? as u64;
    Some(Site { rule, at })
}

fn nearer(first: Option<Site>, second: Option<Site>) -> Option<Site>
    ensures { result ≡ rules.nearer first second }
{
    match (first, second) {
        (Some(a), Some(b)) => Some(if a.at <= b.at { a } else { b }),
        (Some(a), None) => Some(a),
        (None, other) => other,
    }
}

/// The first rule that the tables of an image with so many sections break: the one at the least place.
pub(crate) fn tables_break(
    strings: &[u8],
    sections: usize,
    numbering: &Numbering<'_>,
    groups: [u32; 6],
    indices: &[u32],
) -> Option<Site>
    ensures { result ≡ rules.tables_break strings.now sections numbering.now.entries.now groups indices.now }
{
    let entries = numbering.entries;
    let name = broken(Rule::TableNameOutside, table_name(strings, entries));
    let section = broken(Rule::TableBadSection, table_section(sections, entries));
    let index = broken(
        Rule::TableIndexOutside,
        table_index(numbering, groups, indices),
    );
    nearer(name, nearer(section, index))
}
