// Load commands that name streams and tables of the linkedit. Names are those of mach-o/loader.h.
ghost use Rattle.std.specs.Prelude.{◌≡◌, ◌≤◌, ◌<◌, ◌+◌, ◌*◌, ◌^◌, ◌++◌, length, OnOk};
ghost use Rattle.dsc_base.specs.declared.fault.Span.{Span};
ghost use Rattle.macho_image.specs.Macho.{number_of};
ghost use Rattle.macho_image.specs.Rules.{least_size};
ghost use Rattle.macho_edit.specs.Tables.{start_of, data_words, info_words, symtab_words, indirect_words, dysymtab_words, words, with_words, spotted};
ghost use Rattle.macho_edit.specs.Conditions.{IsLow, AreLow};

use crate::LinkSpots;
use crate::numbers::{
    LC_DATA_IN_CODE, LC_DYLD_INFO, LC_DYLD_INFO_ONLY, LC_DYSYMTAB, LC_FUNCTION_STARTS, LC_SYMTAB,
};
use dsc_base::{NoMemory, Span, get_u32};

/// Where a span begins; 0 for one without bytes.
fn start_of(span: &Span) -> u32
    requires { IsLow span.now }
    ensures { result ≡ start_of span.now }
{
    if span.len == 0 { 0 } else { span.at as u32 }
}

fn data_words(span: &Span) -> [u32; 2]
    requires { IsLow span.now }
    ensures { result ≡ data_words span.now }
{
    [start_of(span), span.len as u32]
}

fn info_words(spots: &LinkSpots) -> [u32; 10]
    requires { AreLow spots.now }
    ensures { result ≡ info_words spots.now }
{
    let [rebase, rebase_size] = data_words(&spots.rebase);
    let [bind, bind_size] = data_words(&spots.bind);
    let [weak, weak_size] = [0, 0];
    let [lazy, lazy_size] = data_words(&spots.lazy);
    let [exports, exports_size] = data_words(&spots.exports);
    [
        rebase,
        rebase_size,
        bind,
        bind_size,
        weak,
        weak_size,
        lazy,
        lazy_size,
        exports,
        exports_size,
    ]
}

fn symtab_words(spots: &LinkSpots) -> [u32; 4]
    requires { AreLow spots.now }
    ensures { result ≡ symtab_words spots.now }
{
    let symbols = start_of(&spots.symbols);
    let strings = start_of(&spots.strings);
    [
        symbols,
        (spots.symbols.len / 16) as u32,
        strings,
        spots.strings.len as u32,
    ]
}

fn indirect_words(span: &Span) -> [u32; 12]
    requires { IsLow span.now }
    ensures { result ≡ indirect_words span.now }
{
    let count = (span.len / 4) as u32;
    [0, 0, 0, 0, 0, 0, start_of(span), count, 0, 0, 0, 0]
}

/// Appends numbers, four bytes each.
fn append_words(out: &mut Vec<u8>, numbers: &[u32]) -> Result<(), NoMemory>
    ensures { OnOk result (out.new.items ≡ out.old.items ++ words numbers.now) }
{
    for number in numbers {
        out.extend_from_slice(&number.to_le_bytes())?;
    }
    Ok(())
}

/// Appends a command with these numbers from byte 8 on, which are of its structure.
#[tactic(auto, unfolding(crate::specs::Tables::with_words))]
fn append_with(out: &mut Vec<u8>, command: &[u8], numbers: &[u32]) -> Result<(), NoMemory>
    requires { 8 + 4 * length numbers.now ≤ length command.now }
    ensures { OnOk result (out.new.items ≡ out.old.items ++ with_words numbers.now command.now) }
{
    out.extend_from_slice(&command[..8])?;
    append_words(out, numbers)?;
    out.extend_from_slice(&command[8 + 4 * numbers.len()..])?;
    Ok(())
}

/// Appends LC_DYSYMTAB: its groups, and its indirect table in place of all its other tables.
fn append_dysymtab(out: &mut Vec<u8>, command: &[u8], spots: &LinkSpots) -> Result<(), NoMemory>
    requires low { AreLow spots.now }
    requires whole { 80 ≤ length command.now }
    ensures { OnOk result (out.new.items ≡ out.old.items ++ with_words (dysymtab_words spots.now) command.now) }
{
    let indirect = indirect_words(&spots.indirect);
    out.extend_from_slice(&command[..8])?;
    append_words(out, &spots.groups)?;
    append_words(out, &indirect)?;
    out.extend_from_slice(&command[80..])?;
    Ok(())
}

/// Appends a command with its streams and tables at their spots; another command as it is.
pub(crate) fn append_spotted(
    out: &mut Vec<u8>,
    command: &[u8],
    spots: &LinkSpots,
) -> Result<(), NoMemory>
    requires low { AreLow spots.now }
    requires front { 8 ≤ length command.now }
    requires whole { least_size (number_of command.now) ≤ length command.now }
    ensures { OnOk result (out.new.items ≡ out.old.items ++ spotted spots.now command.now) }
{
    match get_u32(command, 0) {
        LC_DYLD_INFO | LC_DYLD_INFO_ONLY => append_with(out, command, &info_words(spots))?,
        LC_SYMTAB => append_with(out, command, &symtab_words(spots))?,
        LC_DYSYMTAB => append_dysymtab(out, command, spots)?,
        LC_FUNCTION_STARTS => append_with(out, command, &data_words(&spots.function_starts))?,
        LC_DATA_IN_CODE => append_with(out, command, &data_words(&spots.data_in_code))?,
        _ => out.extend_from_slice(command)?,
    }
    Ok(())
}
