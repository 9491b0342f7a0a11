// Which words of one page are reached: a counter for each place where a word may begin, four bytes
// apart. All chains of a page are followed at once, by rising place, so that a page costs no more
// than its places and its first words.
ghost use Rattle.std.specs.Prelude.{◌≡◌, ℕ, ◌+◌, ◌-◌, ◌*◌, ◌/◌, ◌%◌, ◌^◌, ◌<◌, ◌≤◌, ◌||◌, Bool, true, false, List, [], length, drop, slice_index, slice_set, nat_eq, nat_lt, nat_le, filter, Option, Some, IfSome, IfNone, if◌then◌else◌};
ghost use Rattle.std.specs.List.{flat_map, list_any};
ghost use Rattle.dsc_base.specs.Numbers.{number_at};
ghost use Rattle.slide_chain.specs.Chains.{IsRun, delta_of, chain, heads, extra_heads, page_reached, page_leaving, lowest};
ghost use Rattle.slide_chain.specs.Steps.Marks.{counted, AreCounted, followed};

use crate::words::delta;
use dsc_base::get_u64;

/// How many places for a word a page has: the last one is 0xFF8 bytes on.
pub(crate) const PLACES: usize = 1023;

/// The start of a page without words.
pub(crate) const NO_WORD: u16 = 0x4000;

/// The bit of a start that leads to extras, and of the last extra of a run.
pub(crate) const MARKED: u16 = 0x8000;

/// Counts the words that are reached in a page. The place where a chain leaves the page, if one
/// does: the least one, which is the page's own for a first word.
pub(crate) fn sift_page(
    marks: &mut [u64],
    area: &[u8],
    mask: u64,
    extras: &[u16],
    page: usize,
    start: u16,
) -> Option<usize>
    requires places { length marks.old ≡ 1023 }
    requires inside { page + 4096 ≤ length area.now }
    requires run { IsRun mask }
    ensures leaves { IfSome result (λ at. lowest (page_leaving mask extras.now area.now page start) ≡ Some at) }
    ensures stays { IfNone result (page_leaving mask extras.now area.now page start ≡ []) }
    ensures counted { IfNone result (AreCounted marks.new page (page_reached mask extras.now area.now page start)) }
{
    if !count_heads(marks, extras, start) {
        return Some(page);
    }
    sift(marks, area, mask, page)
}

/// Counts the first words of a page's chains, in place of what was counted. False where one of
/// them leaves no room for a word in the page.
fn count_heads(marks: &mut [u64], extras: &[u16], start: u16) -> bool
    requires places { length marks.old ≡ 1023 }
    ensures counted { result ≡ true → (page : ℕ) → AreCounted marks.new page (heads extras.now page start) }
    ensures outside { result ≡ false → (page : ℕ) → list_any (nat_lt (page + 0xFF8)) (heads extras.now page start)
        ≡ true }
    ensures few { result ≡ true → counted (λ k. 1) marks.new 0 1023 < 2 ^ 64 }
{
    marks.fill(0);
    if start == NO_WORD {
        return true;
    }
    if start < MARKED {
        return count_head(marks, start);
    }
    count_run(marks, &extras[skipped(extras, start)..])
}

/// How many extras stand before those of a start.
pub(crate) fn skipped(extras: &[u16], start: u16) -> usize
    ensures inside { result ≤ length extras.now }
    ensures same { drop result extras.now ≡ drop (start % 0x4000) extras.now }
{
    extras.len().min((start % 0x4000) as usize)
}

/// Counts one first word, a number of places on. False where it isn't in the page.
fn count_head(marks: &mut [u64], place: u16) -> bool
    requires places { length marks.old ≡ 1023 }
    requires room { slice_index marks.old place + 1 < 2 ^ 64 }
    ensures inside { result ≡ nat_lt place 1023 }
    ensures counted { result ≡ true → marks.new ≡ slice_set marks.old place (slice_index marks.old place + 1) }
{
    let place = place as usize;
    if place >= PLACES {
        return false;
    }
    marks[place] += 1;
    true
}

/// Counts the first words of a run of extras.
fn count_run(marks: &mut [u64], extras: &[u16]) -> bool
    requires places { length marks.old ≡ 1023 }
    requires empty { (f : ℕ → ℕ) → counted f marks.old 0 1023 ≡ 0 }
    ensures counted { result ≡ true → (page : ℕ) → AreCounted marks.new page (extra_heads page extras.now) }
    ensures outside { result ≡ false → (page : ℕ) → list_any (nat_lt (page + 0xFF8)) (extra_heads page extras.now)
        ≡ true }
    ensures few { result ≡ true → counted (λ k. 1) marks.new 0 1023 < 2 ^ 64 }
{
    for extra in extras {
        if !count_head(marks, extra % 0x4000) {
            return false;
        }
        if *extra >= MARKED {
            return true;
        }
    }
    true
}

/// Follows the chains from the words that are counted, and counts all words that they reach in
/// this page. The place of the first word whose step leads past the page's end, if there is one.
fn sift(marks: &mut [u64], area: &[u8], mask: u64, page: usize) -> Option<usize>
    requires places { length marks.old ≡ 1023 }
    requires inside { page + 4096 ≤ length area.now }
    requires run { IsRun mask }
    requires room { counted (λ k. 1) marks.old 0 1023 < 2 ^ 64 }
    ensures counted { IfNone result ((places : List ℕ) → AreCounted marks.old page places
        → AreCounted marks.new page (flat_map (chain mask area.now (page + 0xFF8) 1024) places)) }
    ensures stays { IfNone result ((k : ℕ) → k < 1023 → 0 < slice_index marks.new k
        → page + k * 4 + delta_of mask (number_at 8 area.now (page + k * 4)) ≤ page + 0xFF8) }
    ensures leaves { IfSome result (λ at. (places : List ℕ) → AreCounted marks.old page places
        → lowest (filter (λ a. nat_lt (page + 0xFF8) (a + delta_of mask (number_at 8 area.now a)))
        (flat_map (chain mask area.now (page + 0xFF8) 1024) places)) ≡ Some at) }
{
    for k in 0..PLACES {
        if !follow(marks, area, mask, page, k) {
            return Some(page + k * 4);
        }
    }
    None
}

/// Counts the word that a place leads to, as often as the place itself is counted. False where the
/// step leads past the page's end.
fn follow(marks: &mut [u64], area: &[u8], mask: u64, page: usize, k: usize) -> bool
    requires places { length marks.old ≡ 1023 }
    requires within { k < 1023 }
    requires inside { page + 4096 ≤ length area.now }
    requires run { IsRun mask }
    requires room { counted (λ j. 1) marks.old k (1023 - k) < 2 ^ 64 }
    ensures stays { result ≡ (nat_eq (slice_index marks.old k) 0
        || nat_le (page + k * 4 + delta_of mask (number_at 8 area.now (page + k * 4)))
        (page + 0xFF8)) }
    ensures counts { result ≡ true → marks.new ≡ followed mask area.now page k marks.old }
{
    let count = marks[k];
    if count == 0 {
        return true;
    }
    let units = delta(get_u64(area, page + k * 4), mask) / 4;
    if units == 0 {
        return true;
    }
    if units >= (PLACES - k) as u64 {
        return false;
    }
    marks[k + units as usize] += count;
    true
}
