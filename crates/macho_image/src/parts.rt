// The parts of the file that commands name, and what else single commands spell.
ghost use Rattle.std.specs.Prelude.{◌≡◌, ◌+◌, ◌≤◌, nat_eq, length, option_copied, option_map, IfSome};
ghost use Rattle.std.specs.Option.{ForSome};
ghost use Rattle.macho_image.specs.Format as fields;
ghost use Rattle.macho_image.specs.Macho as spec;
ghost use Rattle.macho_image.specs.Rules.{least_size};

use crate::bytes::{behind, front, number32, sixteen};
use crate::command::Command;
use crate::format::{
    DYLD_INFO_BIND_OFF, DYLD_INFO_BIND_SIZE, DYLD_INFO_EXPORT_OFF, DYLD_INFO_EXPORT_SIZE,
    DYLD_INFO_LAZY_BIND_OFF, DYLD_INFO_LAZY_BIND_SIZE, DYLD_INFO_REBASE_OFF, DYLD_INFO_REBASE_SIZE,
    DYLD_INFO_WEAK_BIND_OFF, DYLD_INFO_WEAK_BIND_SIZE, DYSYMTAB_IEXTDEFSYM, DYSYMTAB_ILOCALSYM,
    DYSYMTAB_INDIRECTSYMOFF, DYSYMTAB_IUNDEFSYM, DYSYMTAB_NEXTDEFSYM, DYSYMTAB_NINDIRECTSYMS,
    DYSYMTAB_NLOCALSYM, DYSYMTAB_NUNDEFSYM, LINKEDIT_DATA_DATAOFF, LINKEDIT_DATA_DATASIZE,
    SYMTAB_NSYMS, SYMTAB_STROFF, SYMTAB_STRSIZE, SYMTAB_SYMOFF, UUID_UUID,
};
use crate::image::Streams;
use crate::names::dylib_name;
use crate::numbers::{
    LC_DATA_IN_CODE, LC_DYSYMTAB, LC_FUNCTION_STARTS, LC_SEGMENT_SPLIT_INFO, LC_SYMTAB,
    is_dyld_info,
};

/// The first command with the number.
pub(crate) fn command_of<'a>(commands: &[Command<'a>], number: u32) -> Option<&'a [u8]>
    ensures found { option_copied result ≡ spec.command_where (λ n. nat_eq n number) (spec.pieces_of commands.now) }
    ensures whole { IfSome result (λ c. least_size number ≤ length c.now) }
{
    for command in commands {
        if command.number == number {
            return Some(command.bytes);
        }
    }
    None
}

/// The first command of LC_DYLD_INFO and LC_DYLD_INFO_ONLY.
pub(crate) fn dyld_info_of<'a>(commands: &[Command<'a>]) -> Option<&'a [u8]>
    ensures found { option_copied result ≡ spec.command_where spec.is_dyld_info (spec.pieces_of commands.now) }
    ensures whole { IfSome result (λ c. 48 ≤ length c.now) }
{
    for command in commands {
        if is_dyld_info(command.number) {
            return Some(command.bytes);
        }
    }
    None
}

/// The part whose offset and size, in entries of so many bytes, stand at two fields of a command.
fn part<'a>(
    bytes: &'a [u8],
    command: Option<&[u8]>,
    entry: u64,
    offset: usize,
    size: usize,
) -> &'a [u8]
    requires offset_in { ForSome command (λ c. offset + 4 ≤ length c.now) }
    requires size_in { ForSome command (λ c. size + 4 ≤ length c.now) }
    requires small { entry ≤ 16 }
    ensures { result.now ≡ spec.part_in bytes.entry.now (option_copied command.entry) entry offset size }
{
    match command {
        Some(command) => {
            let rest = behind(bytes, u64::from(number32(command, offset)));
            front(rest, entry * u64::from(number32(command, size)))
        }
        None => &[],
    }
}

pub(crate) fn groups(dysymtab: Option<&[u8]>) -> [u32; 6]
    requires { ForSome dysymtab (λ c. 80 ≤ length c.now) }
    ensures { result ≡ spec.groups_of (option_copied dysymtab.entry) }
{
    match dysymtab {
        Some(table) => [
            number32(table, DYSYMTAB_ILOCALSYM),
            number32(table, DYSYMTAB_NLOCALSYM),
            number32(table, DYSYMTAB_IEXTDEFSYM),
            number32(table, DYSYMTAB_NEXTDEFSYM),
            number32(table, DYSYMTAB_IUNDEFSYM),
            number32(table, DYSYMTAB_NUNDEFSYM),
        ],
        None => [0; 6],
    }
}

pub(crate) fn uuid(command: Option<&[u8]>) -> [u8; 16]
    requires { ForSome command (λ c. 24 ≤ length c.now) }
    ensures { result ≡ spec.uuid_of (option_copied command.entry) }
{
    match command {
        Some(command) => sixteen(command, UUID_UUID),
        None => [0; 16],
    }
}

pub(crate) fn install_name<'a>(command: Option<&'a [u8]>) -> &'a [u8]
    requires { ForSome command (λ c. 24 ≤ length c.now) }
    ensures { result.now ≡ spec.install_name_of (option_copied command.entry) }
{
    match command {
        Some(command) => dylib_name(command),
        None => &[],
    }
}

#[derive(Drop)]
struct InfoStreams<'a> {
    rebase: &'a [u8],
    bind: &'a [u8],
    weak: &'a [u8],
    lazy: &'a [u8],
    exports: &'a [u8],
}

fn info_streams<'a>(bytes: &'a [u8], info: Option<&[u8]>) -> InfoStreams<'a>
    requires { ForSome info (λ c. 48 ≤ length c.now) }
    ensures rebase { result.rebase.now ≡ spec.part_in bytes.entry.now (option_copied info.entry) 1 fields.dyld_info_rebase_off fields.dyld_info_rebase_size }
    ensures bind { result.bind.now ≡ spec.part_in bytes.entry.now (option_copied info.entry) 1 fields.dyld_info_bind_off fields.dyld_info_bind_size }
    ensures weak { result.weak.now ≡ spec.part_in bytes.entry.now (option_copied info.entry) 1 fields.dyld_info_weak_bind_off fields.dyld_info_weak_bind_size }
    ensures lazy { result.lazy.now ≡ spec.part_in bytes.entry.now (option_copied info.entry) 1 fields.dyld_info_lazy_bind_off fields.dyld_info_lazy_bind_size }
    ensures exports { result.exports.now ≡ spec.part_in bytes.entry.now (option_copied info.entry) 1 fields.dyld_info_export_off fields.dyld_info_export_size }
{
    InfoStreams {
        rebase: part(bytes, info, 1, DYLD_INFO_REBASE_OFF, DYLD_INFO_REBASE_SIZE),
        bind: part(bytes, info, 1, DYLD_INFO_BIND_OFF, DYLD_INFO_BIND_SIZE),
        weak: part(
            bytes,
            info,
            1,
            DYLD_INFO_WEAK_BIND_OFF,
            DYLD_INFO_WEAK_BIND_SIZE,
        ),
        lazy: part(
            bytes,
            info,
            1,
            DYLD_INFO_LAZY_BIND_OFF,
            DYLD_INFO_LAZY_BIND_SIZE,
        ),
        exports: part(bytes, info, 1, DYLD_INFO_EXPORT_OFF, DYLD_INFO_EXPORT_SIZE),
    }
}

/// The part that a linkedit_data_command of the given number names.
fn data_stream<'a>(bytes: &'a [u8], commands: &[Command<'_>], number: u32) -> &'a [u8]
    requires { 16 ≤ least_size number }
    ensures { result.now ≡ spec.part_in bytes.entry.now (spec.command_where (λ n. nat_eq n number) (spec.pieces_of commands.now)) 1 fields.linkedit_data_dataoff fields.linkedit_data_datasize }
{
    part(
        bytes,
        command_of(commands, number),
        1,
        LINKEDIT_DATA_DATAOFF,
        LINKEDIT_DATA_DATASIZE,
    )
}

fn split_stream<'a>(bytes: &'a [u8], commands: &[Command<'_>]) -> Option<&'a [u8]>
    ensures { option_copied result ≡ option_map (λ c. spec.part_in bytes.entry.now (Some c) 1 fields.linkedit_data_dataoff fields.linkedit_data_datasize) (spec.command_where spec.is_split_info (spec.pieces_of commands.now)) }
{
    let command = command_of(commands, LC_SEGMENT_SPLIT_INFO)?;
    Some(part(
        bytes,
        Some(command),
        1,
        LINKEDIT_DATA_DATAOFF,
        LINKEDIT_DATA_DATASIZE,
    ))
}

/// The parts of the linkedit that the commands name.
#[tactic(auto, unfolding(crate::specs::Macho::streams_of))]
pub(crate) fn streams<'a>(bytes: &'a [u8], commands: &[Command<'_>]) -> Streams<'a>
    ensures { result ≡ spec.streams_of bytes.entry.now (spec.pieces_of commands.now) }
{
    let info = info_streams(bytes, dyld_info_of(commands));
    let symtab = command_of(commands, LC_SYMTAB);
    let dysymtab = command_of(commands, LC_DYSYMTAB);
    Streams {
        rebase: info.rebase,
        bind: info.bind,
        weak: info.weak,
        lazy: info.lazy,
        exports: info.exports,
        split: split_stream(bytes, commands),
        function_starts: data_stream(bytes, commands, LC_FUNCTION_STARTS),
        data_in_code: data_stream(bytes, commands, LC_DATA_IN_CODE),
        symbols: part(bytes, symtab, 16, SYMTAB_SYMOFF, SYMTAB_NSYMS),
        strings: part(bytes, symtab, 1, SYMTAB_STROFF, SYMTAB_STRSIZE),
        indirect: part(
            bytes,
            dysymtab,
            4,
            DYSYMTAB_INDIRECTSYMOFF,
            DYSYMTAB_NINDIRECTSYMS,
        ),
    }
}
