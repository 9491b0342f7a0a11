// Words of a cache that slide where no pointer of the file leads to a place.
ghost use Rattle.std.specs.Prelude.{◌≡◌, ◌≤◌, ◌<◌, ◌+◌, ℕ, length, nat_le, slice_index_or};
ghost use Rattle.prebind.specs.declared.resolved.PlacedWord.{PlacedWord};
ghost use Rattle.slide_chain.specs.declared.words.ChainWord.{ChainWord};
ghost use Rattle.cache_check.specs.Bytes as spec;
ghost use Rattle.cache_check.specs.Steps.Sides.{chain_view, pair_view};

use crate::Seen;
use crate::chains::Chains;
use crate::lookup::pointer_here;
use crate::mismatch::Mismatch;
use crate::pairs::Pair;
use macho_image::{Section, number_at_address};
use prebind::{PlacedWord, WordTarget};
use slide_chain::ChainWord;

/// Where a section ends.
fn end_of(section: &Section) -> u128
    ensures { result ≡ section.now.addr + section.now.size }
{
    u128::from(section.addr) + u128::from(section.size)
}

/// Whether the 8 bytes from an address share one with a section.
fn shares_section(address: u64, section: &Section) -> bool
    ensures { result ≡ spec.shares_section address section.now }
{
    let from = u128::from(address.max(section.addr));
    from < end_of(section).min(u128::from(address) + 8)
}

/// Whether a pointer leads to a place.
fn leads_to_place(pointer: Option<PlacedWord>) -> bool
    ensures { result ≡ spec.leads_to_place pointer }
{
    match pointer {
        Some(word) => matches!(word.target, WordTarget::Place { .. }),
        None => false,
    }
}

/// Whether a word that slides at an address shares a byte with the section, and doesn't begin where a pointer
/// of the file leads to a place.
#[tactic(auto, unfolding(macho_image::specs::Places::above))]
fn is_stray(pointers: &[PlacedWord], pair: &Pair<'_, '_, '_>, address: u64) -> bool
    requires { (i j : ℕ) (d : PlacedWord) → i < j → j < length pointers.now → (slice_index_or pointers.now i d).at.address < (slice_index_or pointers.now j d).at.address }
    ensures { result ≡ spec.is_stray pointers.now (pair_view pair.now) address }
{
    if !shares_section(address, pair.there) {
        return false;
    }
    let distance = address.wrapping_sub(pair.there.addr);
    let here = pair.here.addr.wrapping_add(distance);
    !leads_to_place(pointer_here(pointers, here))
}

/// Such a word, at the lowest byte that it shares with the section.
fn stray(number: u32, pair: &Pair<'_, '_, '_>, word: u64, address: u64) -> Mismatch
    ensures { result ≡ spec.stray number (pair_view pair.now) word address }
{
    let cached = pair.cached;
    let own = pair.own;
    let distance = address.saturating_sub(cached.vmaddr);
    let start = own.vmaddr.wrapping_add(distance);
    Mismatch {
        section: number,
        offset: address.saturating_sub(pair.there.addr),
        found: Seen::Address(word),
        wanted: Seen::Number(number_at_address(own, start)),
    }
}

/// How many words that slide end by an address.
fn count_before(chains: &Chains<'_>, address: u64) -> usize
    ensures bound { result ≤ length chains.now.words.now }
    ensures before { (i : ℕ) (d : ChainWord) → i < result → chains.now.start + (slice_index_or chains.now.words.now i d).offset + 8 ≤ address }
{
    let start = chains.start;
    chains.words.partition_point(
        |w: &ChainWord| -> bool
            ensures { result ≡ nat_le (start + w.now.offset + 8) address }
        { address >= 8 && start <= address - 8 && w.offset <= address - 8 - start },
    )
}

/// A word that slides by its number, as above.
fn stray_of(
    chains: &Chains<'_>,
    pointers: &[PlacedWord],
    number: u32,
    pair: &Pair<'_, '_, '_>,
    index: usize,
) -> Option<Mismatch>
    requires rises { (i j : ℕ) (d : PlacedWord) → i < j → j < length pointers.now → (slice_index_or pointers.now i d).at.address < (slice_index_or pointers.now j d).at.address }
    requires inside { index < length chains.now.words.now }
    ensures { result ≡ spec.stray_of (chain_view chains.now) pointers.now number (pair_view pair.now) index }
{
    let word = chains.words[index];
    let address = chains.start.wrapping_add(word.offset);
    if is_stray(pointers, pair, address) {
        Some(stray(number, pair, word.value, address))
    } else {
        None
    }
}

/// The first word that slides, shares a byte with the section of a number, and doesn't begin where a pointer
/// of the file leads to a place.
pub(crate) fn stray_in(
    chains: &Chains<'_>,
    pointers: &[PlacedWord],
    number: u32,
    pair: &Pair<'_, '_, '_>,
) -> Option<Mismatch>
    requires rises { (i j : ℕ) (d : PlacedWord) → i < j → j < length pointers.now → (slice_index_or pointers.now i d).at.address < (slice_index_or pointers.now j d).at.address }
    ensures { result ≡ spec.stray_in (chain_view chains.now) pointers.now number (pair_view pair.now) }
{
    let end = end_of(pair.there);
    for index in count_before(chains, pair.there.addr)..chains.words.len() {
        if u128::from(chains.start) + u128::from(chains.words[index].offset) >= end {
            return None;
        }
        if let Some(stray) = stray_of(chains, pointers, number, pair, index) {
            return Some(stray);
        }
    }
    None
}
