// The chain words of one page, out of its counters.
ghost use Rattle.std.specs.Prelude.{◌≡◌, ℕ, ◌+◌, ◌*◌, ◌^◌, ◌<◌, ◌≤◌, ◌&&◌, List, [], ◌∷◌, ◌++◌, length, slice_index, nat_eq, nat_lt, Some, IfOk, OnOk, IfSome, IfNone, if◌then◌else◌};
ghost use Rattle.slide_chain.specs.Chains.{in_order, words_at, overlapping, lowest};
ghost use Rattle.slide_chain.specs.Steps.Marks.{AreCounted};

use crate::ChainWord;
use crate::sieve::PLACES;
use dsc_base::{NoMemory, get_u64};

/// Appends the chain words of a page, by rising offset. The least place where two words overlap,
/// if there is one; what was appended then means nothing.
pub(crate) fn gather(
    marks: &[u64],
    area: &[u8],
    mask: u64,
    value_add: u64,
    page: usize,
    words: &mut Vec<ChainWord>,
) -> Result<Option<usize>, NoMemory>
    requires places { length marks.now ≡ 1023 }
    requires inside { page + 4096 ≤ length area.now }
    ensures overlaps { IfOk result (λ o. IfSome o (λ at. (places : List ℕ) → AreCounted marks.now page places
        → lowest (overlapping places) ≡ Some at)) }
    ensures apart { IfOk result (λ o. IfNone o ((places : List ℕ) → AreCounted marks.now page places
        → overlapping places ≡ [])) }
    ensures words { IfOk result (λ o. IfNone o ((places : List ℕ) → AreCounted marks.now page places
        → words.new.items
        ≡ words.old.items ++ words_at mask value_add area.now (in_order places 1024 page))) }
{
    for k in 0..PLACES {
        if overlaps(marks, k) {
            return Ok(Some(page + k * 4));
        }
        if marks[k] > 0 {
            push_word(area, mask, value_add, page + k * 4, words)?;
        }
    }
    Ok(None)
}

/// Whether the word at a place is reached, and one more in its eight bytes.
fn overlaps(marks: &[u64], k: usize) -> bool
    requires places { length marks.now ≡ 1023 }
    requires within { k < 1023 }
    ensures { result ≡ (nat_lt 0 (slice_index marks.now k)
        && nat_lt 1 (slice_index marks.now k + slice_index marks.now (k + 1))) }
{
    marks[k] > 1 || marks[k] == 1 && k + 1 < PLACES && marks[k + 1] > 0
}

/// Appends the word at a place if its value isn't 0.
fn push_word(
    area: &[u8],
    mask: u64,
    value_add: u64,
    at: usize,
    words: &mut Vec<ChainWord>,
) -> Result<(), NoMemory>
    requires { at + 8 ≤ length area.now }
    ensures { OnOk result (words.new.items ≡ words.old.items
        ++ words_at mask value_add area.now (at ∷ [])) }
{
    let value = get_u64(area, at) & !mask;
    if value != 0 {
        words.push(ChainWord {
            offset: at as u64,
            value: value.wrapping_add(value_add),
        })?;
    }
    Ok(())
}
