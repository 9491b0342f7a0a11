// Where runs of extras end.
ghost use Rattle.std.specs.Prelude.{◌≡◌, ℕ, ◌%◌, ◌≤◌, ◌<◌, ◌||◌, length, drop, nat_lt, Bool, true, false};
ghost use Rattle.std.specs.List.{list_any};
ghost use Rattle.slide_chain.specs.Chains.{is_marked, endless_page};

use crate::sieve::MARKED;

/// The first page whose run of extras has no end.
pub(crate) fn endless_page(starts: &[u16], extras: &[u16]) -> Option<usize>
    ensures { result ≡ endless_page extras.now 0 starts.now }
{
    let end = runs_end(extras);
    for (page, start) in starts.iter().enumerate() {
        if !run_ends(*start, end) {
            return Some(page);
        }
    }
    None
}

/// Whether a start leads to no extras, or to some before the last one that ends a run.
fn run_ends(start: u16, end: usize) -> bool
    ensures { result ≡ (nat_lt start 0x8000 || nat_lt (start % 0x4000) end) }
{
    start < MARKED || ((start % 0x4000) as usize) < end
}

/// How many extras there are up to the last one that ends a run.
fn runs_end(extras: &[u16]) -> usize
    ensures inside { result ≤ length extras.now }
    ensures behind { list_any is_marked (drop result extras.now) ≡ false }
    ensures last { (i : ℕ) → i < result → list_any is_marked (drop i extras.now) ≡ true }
{
    let mut end = extras.len();
    while end > 0 && extras[end - 1] < MARKED {
        end -= 1;
    }
    end
}
