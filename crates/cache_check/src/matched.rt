// The first word of a file that doesn't lead in the cached image to where it should.
ghost use Rattle.std.specs.Prelude.{◌≡◌, ◌++◌, map, filter, fold};
ghost use Rattle.prebind.specs.Words.{pointer_word, reference_word, is_no_pointer};
ghost use Rattle.cache_check.specs.Bytes as spec;
ghost use Rattle.cache_check.specs.Steps.Matched as steps;

use crate::matching::Matching;
use crate::mismatch::{Mismatch, earlier};
use crate::references::{is_no_pointer, reference_location, reference_target};
use crate::words::word_mismatch;
use prebind::PlacedWord;
use split_info::{RefKind, Reference};

/// The first of some pointers.
fn first_pointer(matching: &Matching<'_, '_, '_>, pointers: &[PlacedWord]) -> Option<Mismatch>
    ensures { result ≡ spec.earliest (steps.differs matching.now) (map pointer_word pointers.now) }
{
    let mut first = None;
    for word in pointers {
        let here = word_mismatch(matching, word.at, RefKind::Pointer64, word.target);
        first = earlier(first, here);
    }
    first
}

/// A reference of the file, whose number is told, that doesn't lead to where it should.
fn reference_mismatch(
    matching: &Matching<'_, '_, '_>,
    number: u32,
    reference: &Reference,
) -> Option<Mismatch>
    ensures { result ≡ steps.differs matching.now (reference_word number matching.now.file.now.sections matching.now.file.now.segments reference.now) }
{
    let at = reference_location(matching.file, reference);
    let target = reference_target(number, matching.file, matching.from, reference);
    word_mismatch(matching, at, reference.kind, target)
}

/// The first of a word and some references that are no pointers.
fn first_reference(
    matching: &Matching<'_, '_, '_>,
    number: u32,
    references: &[Reference],
    before: Option<Mismatch>,
) -> Option<Mismatch>
    ensures { result ≡ fold (steps.sooner matching.now) before (map (reference_word number matching.now.file.now.sections matching.now.file.now.segments) (filter is_no_pointer references.now)) }
{
    let mut first = before;
    for reference in references {
        if is_no_pointer(reference) {
            first = earlier(first, reference_mismatch(matching, number, reference));
        }
    }
    first
}

/// The first of the words of the file whose number is told.
pub(crate) fn first_word(
    matching: &Matching<'_, '_, '_>,
    number: u32,
    pointers: &[PlacedWord],
    references: &[Reference],
) -> Option<Mismatch>
    ensures { result ≡ spec.earliest (steps.differs matching.now) (map pointer_word pointers.now ++ map (reference_word number matching.now.file.now.sections matching.now.file.now.segments) (filter is_no_pointer references.now)) }
{
    let first = first_pointer(matching, pointers);
    first_reference(matching, number, references, first)
}
