// Two dylibs and the headers that they have in a cache, and from there in files of their own, made by hand.
ghost use Rattle.std.specs.Prelude.{◌≡◌, true, length};
ghost use Rattle.macho_edit.specs.Conditions.{IsLow, AreLow, EndLow, CanMove};

mod cases;

use super::*;
use cases::{CASES, Case, Front};
use dsc_base::Span;
use macho_image::{Form, Image, Moved, Moves, Segment, read_image};
use sample_dylibs::{bytes_with, data_dylib, put_numbers};
use std::alloc::Global;
use std::test::*;

fn is_low(span: &Span) -> bool
    ensures { result ≡ true → IsLow span.now }
{
    span.at < 0x8000_0000 && span.len < 0x8000_0000
}

fn are_low(spots: &LinkSpots) -> bool
    ensures { result ≡ true → AreLow spots.now }
{
    is_low(&spots.rebase)
        && is_low(&spots.bind)
        && is_low(&spots.lazy)
        && is_low(&spots.exports)
        && is_low(&spots.function_starts)
        && is_low(&spots.data_in_code)
        && is_low(&spots.symbols)
        && is_low(&spots.indirect)
        && is_low(&spots.strings)
}

fn end_low(segments: &[Segment<'_>], moves: &[Moved]) -> bool
    requires { length moves.now ≡ length segments.now }
    ensures { result ≡ true → EndLow segments.now moves.now }
{
    for i in 0..segments.len() {
        let segment = &segments[i];
        if !segment.is_linkedit()
            && (segment.vmsize >= 0x8000_0000 || moves[i].file >= 0x8000_0000)
        {
            return false;
        }
    }
    true
}

fn can_move(image: &Image<'_>, moves: &Moves, spots: &LinkSpots) -> bool
    ensures { result ≡ true → CanMove image.now moves.now spots.now }
{
    moves.segments.len() == image.segments.len()
        && end_low(&image.segments, &moves.segments)
        && are_low(spots)
        && spots.symbols.len % 16 == 0
        && spots.indirect.len % 4 == 0
}

/// The dylib of a case.
fn file_of(alloc: Global, case: &Case) -> Result<Vec<u8>, Fail> {
    match case.front {
        Front::DataDylib => Ok(data_dylib(alloc, case.len)?),
        Front::Numbers(numbers) => Ok(bytes_with(alloc, case.len, numbers)?),
    }
}

/// A file with nothing but a header at a place.
fn file_with(alloc: Global, len: usize, place: usize, header: &[u8]) -> Result<Vec<u8>, Fail> {
    let mut file = vec![in alloc; 0u8; len]?;
    if place <= file.len() && header.len() <= file.len() - place {
        file[place..place + header.len()].copy_from_slice(header);
    }
    Ok(file)
}

/// The header in a file of its own, which is as it should be.
fn alone_with(alloc: Global, moved: &Image<'_>, case: &Case) -> Result<Vec<u8>, Fail> {
    let moves = Moves {
        segments: case.alone_moves.to_vec(alloc)?,
    };
    if !can_move(moved, &moves, &case.alone_spots) {
        return Err("the segments can move once more".into());
    }
    let header = standalone_header(alloc, moved, &moves, &case.alone_spots)
        .ok()
        .ok_or("memory is left")?;
    let mut wanted = bytes_with(alloc, case.kept_len, case.header)?;
    put_numbers(&mut wanted, case.alone);
    if header.as_slice() != wanted.as_slice() {
        return Err("another header in a file of its own".into());
    }
    Ok(header)
}

#[test]
fn headers(rt: HostRuntime) -> Result<(), Fail> {
    let alloc = rt.alloc();
    for case in &CASES {
        let file = file_of(alloc, case)?;
        let image = read_image(alloc, &file, 0, Form::Standalone)
            .ok()
            .ok_or("the dylib is read")?;
        let moves = Moves {
            segments: case.moves.to_vec(alloc)?,
        };
        if !can_move(&image, &moves, &case.spots) {
            return Err("the segments can move".into());
        }
        let header = cached_header(alloc, &image, &moves, &case.spots)
            .ok()
            .ok_or("memory is left")?;
        let wanted = bytes_with(alloc, case.header_len, case.header)?;
        assert_eq!(rt; header.as_slice(), wanted.as_slice());
        let place = case.moves.first().ok_or("there is a segment")?.file;
        let cache = file_with(alloc, case.cache_len, place as usize, &header)?;
        let moved = read_image(alloc, &cache, place, Form::Cached)
            .ok()
            .ok_or("the moved dylib is read")?;
        assert_eq!(rt; moved.header.len(), case.kept_len);
        let first = moved.sections.first().ok_or("there is a section")?;
        assert_eq!(rt; first.addr, case.first_section);
        let alone = alone_with(alloc, &moved, case)?;
        let file = file_with(alloc, case.alone_len, 0, &alone)?;
        let own = read_image(alloc, &file, 0, Form::Standalone)
            .ok()
            .ok_or("the dylib of its own is read")?;
        assert_eq!(rt; own.header.len(), case.kept_len);
        assert_eq!(rt;
            own.streams.rebase.len() as u64,
            case.alone_spots.rebase.len
        );
    }
    Ok(())
}
