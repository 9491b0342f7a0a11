// The re-exports that a resolution has met.
ghost use Rattle.std.specs.Prelude.{◌≡◌, ◌∷◌, ◌++◌, [], not, true, IfOk};
ghost use Rattle.prebind.specs.Resolves.{is_met};

use dsc_base::NoMemory;
use indexmap::IndexSet;
use std::alloc::Global;
use std::marker::Model;

/// Names that images re-export, each with the number of its image, in the order in which they were met.
#[derive(Drop)]
pub(crate) struct Met<'n> {
    pairs: IndexSet<(u32, &'n [u8])>,
}

impl<'n> Model for Met<'n> {
    ghost use Rattle.std.specs.Prelude.{List, map};
    ghost use Rattle.prebind.specs.Resolves.{Pair};
    ghost use Rattle.prebind.specs.Met.{pair_of};

    ghost Value = { List Pair };

    ghost view = { λ m. map pair_of m.pairs.keys };
}

impl<'n> Met<'n> {
    pub(crate) fn new(alloc: Global) -> Self
        ensures { result ≡ [] }
    {
        Met {
            pairs: IndexSet::new(alloc),
        }
    }

    /// Adds a name that an image re-exports. Answers whether it wasn't there before.
    pub(crate) fn insert(&mut self, image: u32, name: &'n [u8]) -> Result<bool, NoMemory>
        ensures fresh { IfOk result (λ new. new ≡ not (is_met self.old (image, name.entry.now))) }
        ensures added { IfOk result (λ new. new ≡ true → self.new ≡ self.old ++ (image, name.entry.now) ∷ []) }
    {
        let (_, new) = self.pairs.insert_full((image, name))?;
        Ok(new)
    }
}
