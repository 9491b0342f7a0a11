// The rule that references share no byte with one another, and only pointers share one with words.
ghost use Rattle.std.specs.Prelude.{◌≡◌, ◌<◌, ◌+◌, ◌||◌, length, slice_get, option_copied, IfOk, IfErr};
ghost use Rattle.dsc_base.specs.declared.fault.Fault.TheVariants as faults;
ghost use Rattle.split_info.specs.Overlap.{strays, overlap_at, reaches};

use crate::Reference;
use crate::words::Words;
use dsc_base::Fault;
use macho_image::Location;
use std::alloc::Global;

/// Whether a reference shares a byte with the next one.
fn reaches(reference: &Reference, next: Option<&Reference>) -> bool
    ensures { result ≡ reaches reference.now (option_copied next.entry) }
{
    match next {
        Some(other) => reference.meets(other),
        None => false,
    }
}

/// Whether a reference that is no pointer shares a byte with a rebase or a bind.
fn strays(reference: &Reference, rebases: &Words<'_>, bound: &Words<'_>) -> bool
    ensures { result ≡ strays rebases.now bound.now reference.now }
{
    !reference.kind.is_pointer() && (rebases.meet(reference) || bound.meet(reference))
}

fn overlaps(
    reference: &Reference,
    next: Option<&Reference>,
    rebases: &Words<'_>,
    bound: &Words<'_>,
) -> bool
    ensures { result ≡ (reaches reference.now (option_copied next.entry) || strays rebases.now bound.now reference.now) }
{
    reaches(reference, next) || strays(reference, rebases, bound)
}

/// The reference behind one of them.
fn behind(sorted: &[Reference], index: usize) -> Option<&Reference>
    requires { index < length sorted.now }
    ensures { option_copied result ≡ slice_get sorted.now (index + 1) }
{
    sorted.get(index + 1)
}

/// The least address of a reference that shares a byte with another one, or with a word though it is no
/// pointer. In address order the first one that shares a byte with another shares one with the next.
pub(crate) fn first_overlap(
    alloc: Global,
    references: &[Reference],
    rebases: &Words<'_>,
    bound: &[Location],
) -> Result<Option<u64>, Fault>
    ensures found { IfOk result (λ place. place ≡ overlap_at rebases.now bound.now references.now) }
    ensures cause { IfErr result (λ e. e ≡ faults.Memory) }
{
    let mut places = Vec::from_slice(alloc, bound)?;
    places.sort_unstable_by_key(|l| l.address);
    let words = Words::new(&places);
    let mut sorted = Vec::from_slice(alloc, references)?;
    sorted.sort_unstable_by_key(|r| r.from);
    for (index, reference) in sorted.iter().enumerate() {
        if overlaps(reference, behind(&sorted, index), rebases, &words) {
            return Ok(Some(reference.from));
        }
    }
    Ok(None)
}
