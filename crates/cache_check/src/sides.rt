// The words of a cache that slide, from its view.
ghost use Rattle.std.specs.Prelude.{◌≡◌};
ghost use Rattle.cache_check.specs.Steps.Sides.{chain_view};
ghost use Rattle.cache_check.specs.Verdict.{chains_of};

use crate::CacheView;
use crate::chains::Chains;
use crate::shape::data_mapping;

/// The words that slide, and where the data start.
pub(crate) fn chains_of(view: &CacheView) -> Chains<'_>
    ensures { chain_view result ≡ chains_of view.entry.now }
{
    view.facts();
    Chains {
        words: &view.words,
        start: data_mapping(&view.head).address,
    }
}
