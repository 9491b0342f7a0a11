// Words found by where they stand.
ghost use Rattle.std.specs.Prelude.{◌≡◌, ◌<◌, ◌+◌, ℕ, length, nat_lt, option_copied, slice_index_or};
ghost use Rattle.prebind.specs.declared.resolved.PlacedWord.{PlacedWord};
ghost use Rattle.cache_check.specs.Bytes as spec;
ghost use Rattle.cache_check.specs.Steps.Sides.{chain_view};

use crate::chains::Chains;
use prebind::PlacedWord;
use slide_chain::ChainWord;

/// The word that slides at an address.
#[tactic(auto, unfolding(crate::specs::Bytes::chain_at))]
pub(crate) fn chain_at(chains: &Chains<'_>, address: u64) -> Option<ChainWord>
    ensures { result ≡ spec.chain_at (chain_view chains.now) address }
{
    let offset = address.wrapping_sub(chains.start);
    let index = chains.words.partition_point(
        |w: &ChainWord| -> bool
            ensures { result ≡ nat_lt w.now.offset offset }
        { w.offset < offset },
    );
    let word = chains.words.get(index)?;
    if word.offset == offset {
        Some(*word)
    } else {
        None
    }
}

/// The pointer of a file at an address.
#[tactic(auto, unfolding(crate::specs::Bytes::pointer_here))]
pub(crate) fn pointer_here(pointers: &[PlacedWord], address: u64) -> Option<PlacedWord>
    requires { (i j : ℕ) (d : PlacedWord) → i < j → j < length pointers.now → (slice_index_or pointers.now i d).at.address < (slice_index_or pointers.now j d).at.address }
    ensures { result ≡ spec.pointer_here pointers.now address }
{
    let index = pointers.partition_point(
        |w: &PlacedWord| -> bool
            ensures { result ≡ nat_lt w.now.at.address address }
        { w.at.address < address },
    );
    let word = pointers.get(index)?;
    if word.at.address == address {
        Some(*word)
    } else {
        None
    }
}
