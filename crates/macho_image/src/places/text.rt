// Where the header of an image stands in memory.
ghost use Rattle.std.specs.Prelude.{◌≡◌, find, option_copied};
ghost use Rattle.std.specs.List.{position};
ghost use Rattle.macho_image.specs.Segments as spec;

use crate::Segment;

fn text_segment<'i, 'a>(segments: &'i [Segment<'a>]) -> Option<&'i Segment<'a>>
    ensures { option_copied result ≡ find spec.is_text_segment segments.entry.now }
{
    segments.iter().find(|s| s.is_text())
}

/// The number, from 0, of the first segment named `__TEXT`, or `None` where there is none.
pub fn text_number(segments: &[Segment<'_>]) -> Option<usize>
    ensures { result ≡ position spec.is_text_segment segments.now }
{
    segments.iter().position(|s| s.is_text())
}

/// The address of an image's header: the start of the first segment named `__TEXT`, or 0 where there is
/// none.
#[tactic(auto, unfolding(crate::specs::Segments::header_address))]
pub fn header_address(segments: &[Segment<'_>]) -> u64
    ensures { result ≡ spec.header_address segments.now }
{
    match text_segment(segments) {
        Some(text) => text.vmaddr,
        None => 0,
    }
}
