// The values of symbols whose segments move.
ghost use Rattle.std.specs.Prelude.{◌≡◌, ◌<◌, ◌≤◌, ◌-◌, ◌+◌, ◌%◌, ◌^◌, length, slice_get, Some};
ghost use Rattle.nlist_table.specs.Kept.{HasSection};
ghost use Rattle.nlist_table.specs.Moving as spec;

use crate::Symbol;
use crate::kind::is_in_section;
use macho_image::{Image, Moves};

/// The number of the segment of a section, which counts from 1.
fn segment_of(image: &Image<'_>, section: u8) -> usize
    requires first { 1 ≤ section }
    requires last { section ≤ length image.now.sections }
    ensures number { result ≡ spec.segment_number image.now section }
    ensures within { result < length image.now.segments }
{
    image.facts();
    let section = &image.sections[section as usize - 1];
    section.segment as usize
}

/// The new address of a segment less its old one.
fn shift_of(image: &Image<'_>, moves: &Moves, segment: usize) -> u64
    requires within { segment < length image.now.segments }
    requires moves { length moves.now ≡ length image.now.segments }
    ensures { result ≡ spec.shift_in image.now moves.now segment }
{
    let old = &image.segments[segment];
    let new = &moves.segments[segment];
    new.address.wrapping_sub(old.vmaddr)
}

/// The value of a symbol of an image whose segments go where the moves say, one for each of them. A symbol of
/// type N_SECT moves with the segment of its section, modulo 2^64; another one keeps its value.
#[tactic(auto, unfolding(crate::specs::Moving::moved_value))]
pub fn moved_value(symbol: &Symbol<'_>, image: &Image<'_>, moves: &Moves) -> u64
    requires section { HasSection (length image.now.sections) symbol.now.kind symbol.now.section }
    requires moves { length moves.now ≡ length image.now.segments }
    ensures { result ≡ spec.moved_value symbol.now image.now moves.now }
{
    if !is_in_section(symbol.kind) {
        return symbol.value;
    }
    let segment = segment_of(image, symbol.section);
    symbol.value.wrapping_add(shift_of(image, moves, segment))
}
