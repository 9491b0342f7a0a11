// Tables of a dylib that is made here: what is read of those that keep the rules, with the values of symbols
// that move, and for each of rules 111 to 113 tables that break it.
ghost use Rattle.std.specs.Prelude.{◌≡◌, true, length};
ghost use Rattle.nlist_table.specs.Kept.{HasSection};

mod cases;

use self::cases::{CASES, Case, Found, Nlist, Tabled};
use super::*;
use dsc_base::Fault;
use macho_image::{Form, Image, Moved, Moves, read_image};
use sample_dylibs::{put_numbers, symbols_dylib};
use std::alloc::Global;
use std::process::Abort;
use std::test::*;

fn short(len: usize) -> Result<u32, Fail> {
    Ok(u32::try_from(len).ok().ok_or("a short table")?)
}

fn append_symbols(file: &mut Vec<u8>, symbols: &[Nlist]) -> Result<(), Fail> {
    for (strx, kind, section, desc, value) in symbols {
        file.extend_from_slice(&strx.to_le_bytes())?;
        file.extend_from_slice(&[*kind, *section])?;
        file.extend_from_slice(&desc.to_le_bytes())?;
        file.extend_from_slice(&value.to_le_bytes())?;
    }
    Ok(())
}

/// The dylib with these tables: symbols, indirect entries and strings, one behind the other.
fn file_with(alloc: Global, case: &Case) -> Result<Vec<u8>, Fail> {
    let mut file = symbols_dylib(alloc, 0x1000)?;
    append_symbols(&mut file, case.symbols)?;
    let indirect_at = short(file.len())?;
    for index in case.indirect {
        file.extend_from_slice(&index.to_le_bytes())?;
    }
    let strings_at = short(file.len())?;
    for part in case.strings {
        file.extend_from_slice(part)?;
    }
    let strings_len = short(file.len())?.saturating_sub(strings_at);
    file.resize(0xa000, 0)?;
    let tables = [
        (0x134, short(case.symbols.len())?),
        (0x138, strings_at),
        (0x13c, strings_len),
        (0x148, case.groups[0]),
        (0x14c, case.groups[1]),
        (0x150, case.groups[2]),
        (0x154, case.groups[3]),
        (0x158, case.groups[4]),
        (0x15c, case.groups[5]),
        (0x178, indirect_at),
        (0x17c, short(case.indirect.len())?),
    ];
    put_numbers(&mut file, &tables);
    Ok(file)
}

/// Whether the value of a symbol can be moved.
fn can_move(symbol: &Symbol<'_>, image: &Image<'_>, moves: &Moves) -> bool
    ensures section { result ≡ true → HasSection (length image.now.sections) symbol.now.kind symbol.now.section }
    ensures moves { result ≡ true → length moves.now ≡ length image.now.segments }
{
    let has_section = symbol.section > 0 && usize::from(symbol.section) <= image.sections.len();
    moves.segments.len() == image.segments.len()
        && (has_section || !crate::kind::is_in_section(symbol.kind))
}

fn is_found(symbol: &Symbol<'_>, image: &Image<'_>, moves: &Moves, wanted: &Found) -> bool {
    let (name, alias, kind, section, desc, value, moved) = *wanted;
    can_move(symbol, image, moves)
        && symbol.name == name
        && symbol.alias == alias
        && symbol.kind == kind
        && symbol.section == section
        && symbol.desc == desc
        && symbol.value == value
        && moved_value(symbol, image, moves) == moved
}

fn is_shared<T: Send + Sync>(_value: &T) {}

/// The tables are the wanted ones, as are the values of the symbols where they have moved.
fn are_found(
    rt: &impl Abort,
    tables: &Tables<'_>,
    image: &Image<'_>,
    moves: &Moves,
    wanted: &Tabled,
) {
    let (symbols, indirect, groups) = *wanted;
    is_shared(tables);
    assert_eq!(rt; tables.symbols.len(), symbols.len());
    for (symbol, found) in tables.symbols.iter().zip(symbols) {
        assert!(rt; is_found(symbol, image, moves, found));
    }
    assert_eq!(rt; tables.indirect.as_slice(), indirect);
    assert_eq!(rt; tables.groups, groups);
}

#[test]
fn tables(rt: HostRuntime) -> Result<(), Fail> {
    let alloc = rt.alloc();
    let text = Moved {
        address: 0x7fff20001000,
        file: 0x1000,
    };
    let linkedit = Moved {
        address: 0,
        file: 0,
    };
    let segments = vec![in alloc; text, linkedit]?;
    let moves = Moves { segments };
    for case in &CASES {
        let file = file_with(alloc, case)?;
        let image = read_image(alloc, &file, 0, Form::Standalone)
            .ok()
            .ok_or("the dylib is read")?;
        let wanted = case.wanted;
        match (read_tables(alloc, &image), wanted) {
            (Ok(tables), Ok(found)) => are_found(&rt, &tables, &image, &moves, &found),
            (Err(Fault::Broken(site)), Err(broken)) => {
                assert_eq!(rt; (site.rule.number(), site.at), broken, "{:?}", case.symbols);
            }
            _ => assert!(rt; false, "{:?}", case.symbols),
        }
    }
    Ok(())
}
