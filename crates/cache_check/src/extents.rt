// The bytes of the words of a file.
ghost use Rattle.std.specs.Prelude.{◌≡◌, ◌≤◌, ◌<◌, ◌++◌, ℕ, List, IfOk, OnOk, map, filter, length, slice_index_or};
ghost use Rattle.macho_image.specs.Records.{Seg};
ghost use Rattle.macho_image.specs.declared.section.Section.{Section};
ghost use Rattle.cache_check.specs.declared.extents.Extent.{Extent};
ghost use Rattle.std.specs.List.{list_any};
ghost use Rattle.std.specs.List.Sorted.{IsNonDecreasingBy};
ghost use Rattle.prebind.specs.Words.{pointer_word, reference_word, is_no_pointer};
ghost use Rattle.cache_check.specs.Bytes as spec;
ghost use Rattle.cache_check.specs.Steps.Extents as steps;

use crate::references::is_no_pointer;
use dsc_base::NoMemory;
use prebind::PlacedWord;
use split_info::{RefKind, Reference};
use std::alloc::Global;

/// So many bytes from an address.
#[derive(Clone, Copy)]
pub(crate) struct Extent {
    pub at: u64,
    pub width: u64,
}

/// Appends those of some pointers.
fn push_pointers(extents: &mut Vec<Extent>, pointers: &[PlacedWord]) -> Result<(), NoMemory>
    ensures { OnOk result (extents.new.items ≡ extents.old.items ++ map steps.pointer_extent pointers.now) }
{
    for word in pointers {
        extents.push(Extent {
            at: word.at.address,
            width: RefKind::Pointer64.width(),
        })?;
    }
    Ok(())
}

/// Appends those of references that are no pointers.
fn push_references(extents: &mut Vec<Extent>, references: &[Reference]) -> Result<(), NoMemory>
    ensures { OnOk result (extents.new.items ≡ extents.old.items ++ map steps.reference_extent (filter is_no_pointer references.now)) }
{
    for reference in references {
        if is_no_pointer(reference) {
            extents.push(Extent {
                at: reference.from,
                width: reference.kind.width(),
            })?;
        }
    }
    Ok(())
}

/// The bytes of the words of a file whose number is told, by the words' addresses.
pub(crate) fn extents_of(
    alloc: Global,
    pointers: &[PlacedWord],
    references: &[Reference],
) -> Result<Vec<Extent>, NoMemory>
    ensures sorted { IfOk result (λ v. IsNonDecreasingBy (λ e. e.at) v.items) }
    ensures covers { IfOk result (λ v. (number : ℕ) (sections : List Section) (segments : List Seg) (address : ℕ) → list_any (steps.holds address) v.items ≡ list_any (spec.covers address) (map pointer_word pointers.now ++ map (reference_word number sections segments) (filter is_no_pointer references.now))) }
    ensures narrow { IfOk result (λ v. (i : ℕ) (d : Extent) → i < length v.items → (slice_index_or v.items i d).width ≤ 8) }
{
    let mut extents = Vec::with_capacity(alloc, pointers.len())?;
    push_pointers(&mut extents, pointers)?;
    push_references(&mut extents, references)?;
    extents.sort_by_key(|e| e.at)?;
    Ok(extents)
}
