// The addresses at which words are bound, and those at which pointers are recorded.
ghost use Rattle.std.specs.Prelude.{◌≡◌, ℕ, nat_eq, IfOk};
ghost use Rattle.indexmap.specs.IndexMap.{get};
ghost use Rattle.indexmap.specs.IndexSet.{contains};
ghost use Rattle.split_info.specs.Overlap.{is_pointer};
ghost use Rattle.prebind.specs.Words.{is_bound};
ghost use Rattle.prebind.specs.Targets.{pointer_at};

use bind_ops::Bind;
use dsc_base::NoMemory;
use indexmap::{IndexMap, IndexSet};
use split_info::{RefKind, Reference};
use std::alloc::Global;

/// The addresses of the words that are bound.
pub(crate) fn bound_addresses(alloc: Global, binds: &[Bind<'_>]) -> Result<IndexSet<u64>, NoMemory>
    ensures { IfOk result (λ s. (address : ℕ) → contains nat_eq s address ≡ is_bound binds.now address) }
{
    let mut addresses = IndexSet::new(alloc);
    for bind in binds {
        addresses.insert_full(bind.at.address)?;
    }
    Ok(addresses)
}

fn is_pointer(reference: &Reference) -> bool
    ensures { result ≡ is_pointer reference.now.kind }
{
    matches!(reference.kind, RefKind::Pointer64)
}

/// The segments into which the recorded pointers lead, by the pointers' addresses.
pub(crate) fn recorded_pointers(
    alloc: Global,
    references: &[Reference],
) -> Result<IndexMap<u64, u32>, NoMemory>
    ensures { IfOk result (λ m. (address : ℕ) → get nat_eq m address ≡ pointer_at references.now address) }
{
    let mut pointers: IndexMap<u64, u32> = IndexMap::new(alloc);
    let mut left = references.len();
    while left > 0 {
        left -= 1;
        let reference = references[left];
        if is_pointer(&reference) {
            pointers.insert(reference.from, reference.to_segment)?;
        }
    }
    Ok(pointers)
}
