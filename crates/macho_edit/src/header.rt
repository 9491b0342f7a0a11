// The header of an image that goes to the shared cache or to a file of its own. Names are those of mach-o/loader.h.
ghost use Rattle.std.specs.Prelude.{◌≡◌, ◌≤◌, ◌<◌, ◌+◌, ◌-◌, ◌^◌, ◌++◌, None, true, not, length, All, OnOk, IfOk};
ghost use Rattle.std.specs.List.{concat};
ghost use Rattle.dsc_base.specs.Numbers.{number_at};
ghost use Rattle.dsc_base.specs.Region.{padded};
ghost use Rattle.macho_image.specs.Macho.{header_size};
ghost use Rattle.macho_image.specs.Rules.{breaks_command_shape};
ghost use Rattle.macho_edit.specs.Cached.{is_dropped, moved_command, moves_behind, kept_commands, flags_in, formed_front, formed_header, unrebased, cached_bytes, standalone_bytes};
ghost use Rattle.macho_edit.specs.Conditions.{AreLow, CanMove, FitFields};
ghost use Rattle.macho_edit.specs.MovedImage.{Rereads, RereadsAlone, SpellsMoved, SpellsAlone};

use crate::LinkSpots;
use crate::numbers::{
    LC_CODE_SIGNATURE, LC_DYLIB_CODE_SIGN_DRS, LC_SEGMENT_64, LC_SEGMENT_SPLIT_INFO,
    MH_DYLIB_IN_CACHE,
};
use crate::segment::append_segment;
use crate::tables::append_spotted;
use dsc_base::{NoMemory, Span, get_u32, put_u32};
use macho_image::{Command, Commands, Form, Image, Moved, Moves};
use std::alloc::Global;

/// Whether a command of that number isn't left out.
fn is_kept(number: u32) -> bool
    ensures { result ≡ not (is_dropped number) }
{
    !matches!(
        number,
        LC_SEGMENT_SPLIT_INFO | LC_CODE_SIGNATURE | LC_DYLIB_CODE_SIGN_DRS
    )
}

/// Appends a command: a segment moved by the first of the moves, a stream or table at its spot, another
/// command as it is. Gives the moves that are left behind it.
fn append_command<'m>(
    out: &mut Vec<u8>,
    command: &Command<'_>,
    moves: &'m [Moved],
    spots: &LinkSpots,
) -> Result<&'m [Moved], NoMemory>
    requires { AreLow spots.now }
    ensures appended { OnOk result (out.new.items ≡ out.old.items ++ moved_command spots.now moves.entry.now command.now.bytes) }
    ensures behind { IfOk result (λ left. left.now ≡ moves_behind moves.entry.now command.now.bytes) }
{
    match moves.split_first() {
        Some((moved, behind)) if command.number == LC_SEGMENT_64 => {
            append_segment(out, command.bytes, moved, spots)?;
            Ok(behind)
        }
        _ => {
            append_spotted(out, command.bytes, spots)?;
            Ok(moves)
        }
    }
}

/// Appends the commands that aren't left out, of those of a header. Gives how many they are.
fn append_commands(
    out: &mut Vec<u8>,
    header: &[u8],
    moves: &[Moved],
    spots: &LinkSpots,
) -> Result<u32, NoMemory>
    requires low { AreLow spots.now }
    requires front { 32 ≤ length header.now }
    requires shape { breaks_command_shape header.now ≡ None }
    ensures appended { OnOk result (out.new.items ≡ out.old.items ++ concat (kept_commands spots.now moves.now header.now)) }
    ensures counted { IfOk result (λ n. n ≡ length (kept_commands spots.now moves.now header.now)) }
{
    let mut left = moves;
    let mut count = 0;
    for command in Commands::new(header) {
        if is_kept(command.number) {
            left = append_command(out, &command, left, spots)?;
            count += 1;
        }
    }
    Ok(count)
}

/// Sets the number of commands, their size in bytes, and the flag of the form.
#[tactic(auto, unfolding(crate::specs::Cached::formed_front))]
fn set_front(header: &mut [u8], count: u32, size: u32, form: Form)
    requires { 32 ≤ length header.old }
    ensures { header.new ≡ formed_front form count size header.old }
{
    let flags = get_u32(header, 24);
    put_u32(header, 16, count);
    put_u32(header, 20, size);
    put_u32(header, 24, flags_in(form, flags));
}

/// Flags that say in which form the image is.
fn flags_in(form: Form, flags: u32) -> u32
    ensures { result ≡ flags_in form flags }
{
    match form {
        Form::Cached => flags | MH_DYLIB_IN_CACHE,
        Form::Standalone => flags & !MH_DYLIB_IN_CACHE,
    }
}

/// The header of a form with its commands, and zeros in the room of those that are left out.
fn write_header(
    alloc: Global,
    header: &[u8],
    moves: &[Moved],
    spots: &LinkSpots,
    form: Form,
) -> Result<Vec<u8>, NoMemory>
    requires low { AreLow spots.now }
    requires front { 32 ≤ length header.now }
    requires whole { length header.now ≡ header_size header.now }
    requires shape { breaks_command_shape header.now ≡ None }
    ensures bytes { IfOk result (λ v. v.items ≡ padded (length header.now) (formed_header form spots.now moves.now header.now)) }
    ensures size { IfOk result (λ v. length v.items ≡ length header.now) }
{
    let mut out = Vec::with_capacity(alloc, header.len())?;
    out.extend_from_slice(&header[..32])?;
    let count = append_commands(&mut out, header, moves, spots)?;
    let size = (out.len() - 32) as u32;
    set_front(&mut out, count, size, form);
    out.resize(header.len(), 0)?;
    Ok(out)
}

/// Does nothing; its contract tells what the types of two fields of the spots say, and of the flags of a header.
fn fit_fields(file: u64, groups: [u32; 6], header: &[u8])
    ensures fields { FitFields file groups }
    ensures flags { number_at 4 header.now 24 < 2 ^ 32 }
{
    let _ = (file, groups, header.len());
}

/// Does nothing; its contract tells what the types of a move and of sizes say.
fn fit_sizes(moved: Moved, vmsize: u64, filesize: u64)
    ensures address { moved.address < 2 ^ 64 }
    ensures vmsize { vmsize < 2 ^ 64 }
    ensures filesize { filesize < 2 ^ 64 }
{
    let _ = (moved.address, vmsize, filesize);
}

/// Does nothing; its contract tells what the type of the moves says of each.
fn fit_moves(moves: &[Moved])
    ensures { All (λ m. m.address < 2 ^ 64) moves.now }
{
    for moved in moves {
        fit_sizes(*moved, 0, 0);
    }
}

/// The spots without rebases, which the cache has done.
fn unrebased(spots: &LinkSpots) -> LinkSpots
    ensures { result ≡ unrebased spots.now }
{
    LinkSpots {
        rebase: Span { at: 0, len: 0 },
        ..*spots
    }
}

/// The header with its commands that an image has in the cache, as many bytes as `image.header`: its flags
/// say so, split information and code signatures are left out, each segment stands at its move with its
/// sections along, and `__LINKEDIT`, streams and tables stand at their spots, but for rebases and weak binds,
/// which it doesn't name. Read from a cache that has all of them there, it gives the image with its new places.
pub fn cached_header(
    alloc: Global,
    image: &Image<'_>,
    moves: &Moves,
    spots: &LinkSpots,
) -> Result<Vec<u8>, NoMemory>
    requires { CanMove image.now moves.now spots.now }
    ensures bytes { IfOk result (λ v. v.items ≡ cached_bytes image.now moves.now spots.now) }
    ensures size { IfOk result (λ v. length v.items ≡ length image.now.header) }
    ensures rereads { IfOk result (λ v. Rereads image.now moves.now spots.now v.items) }
    ensures only { IfOk result (λ v. SpellsMoved image.now moves.now spots.now v.items) }
{
    fit_fields(spots.linkedit.file, spots.groups, image.header);
    fit_sizes(spots.linkedit, spots.vmsize, spots.filesize);
    fit_moves(&moves.segments);
    let named = unrebased(spots);
    let header = write_header(alloc, image.header, &moves.segments, &named, Form::Cached)?;
    Ok(header)
}

/// The header with its commands that an image has in a file of its own, as many bytes as `image.header`: its
/// flags say so, split information and code signatures are left out, each segment stands at its move with its
/// sections along and all of its memory in the file, and `__LINKEDIT`, streams and tables stand at their
/// spots, but for weak binds, which it doesn't name. Read from a file that has all of them there, it gives the
/// image with its new places. `NoMemory` where there is none for it.
pub fn standalone_header(
    alloc: Global,
    image: &Image<'_>,
    moves: &Moves,
    spots: &LinkSpots,
) -> Result<Vec<u8>, NoMemory>
    requires { CanMove image.now moves.now spots.now }
    ensures bytes { IfOk result (λ v. v.items ≡ standalone_bytes image.now moves.now spots.now) }
    ensures size { IfOk result (λ v. length v.items ≡ length image.now.header) }
    ensures rereads { IfOk result (λ v. RereadsAlone image.now moves.now spots.now v.items) }
    ensures only { IfOk result (λ v. SpellsAlone image.now moves.now spots.now v.items) }
{
    fit_fields(spots.linkedit.file, spots.groups, image.header);
    fit_sizes(spots.linkedit, spots.vmsize, spots.filesize);
    fit_moves(&moves.segments);
    let header = write_header(
        alloc,
        image.header,
        &moves.segments,
        spots,
        Form::Standalone,
    )?;
    Ok(header)
}
