// The words of a cache that slide.
ghost use Rattle.std.specs.Prelude.{◌≤◌, ◌<◌, ◌+◌, ◌^◌, ℕ, length, slice_index_or};
ghost use Rattle.slide_chain.specs.declared.words.ChainWord.{ChainWord};

use slide_chain::ChainWord;

/// The words of a cache that slide, by rising offset in its data, and the address at which these start.
#[derive(Clone, Copy)]
pub(crate) struct Chains<'s> {
    pub words: &'s [ChainWord],
    pub start: u64,
    ghost rises: { (i j : ℕ) (d : ChainWord) → i < j → j < length words.now → (slice_index_or words.now i d).offset + 8 ≤ (slice_index_or words.now j d).offset },
    ghost low: { (i : ℕ) (d : ChainWord) → i < length words.now → start + (slice_index_or words.now i d).offset < 2 ^ 63 },
}
