// Extras without repetitions: many pages may share one long run that names a first word again and
// again, and each of them is to cost no more than the words that it has.
ghost use Rattle.std.specs.Prelude.{◌≡◌, ℕ, ◌+◌, ◌*◌, ◌%◌, ◌≤◌, ◌<◌, ◌^◌, min, Bool, true, false, List, [], ◌∷◌, ◌++◌, ◌&&◌, not, nat_eq, nat_lt, length, drop, take, slice_index, IfOk, OnOk, if◌then◌else◌};
ghost use Rattle.slide_chain.specs.Chains.{heads, extra_heads, is_marked};
ghost use Rattle.slide_chain.specs.Steps.Reading.{SamePlaces, SameHeads};
ghost use Rattle.slide_chain.specs.Steps.Thinning.{Repeats, kept_extras, moved_start};

use crate::sieve::{MARKED, NO_WORD};
use dsc_base::NoMemory;
use std::alloc::Global;

/// How many extras a start can name, and how many first words an extra can.
const NAMED: usize = 0x4000;

/// Starts and extras that lead to the same first words, where no run names one twice.
pub(crate) fn thin(
    alloc: Global,
    starts: &[u16],
    extras: &[u16],
) -> Result<(Vec<u16>, Vec<u16>), NoMemory>
    ensures { IfOk result (λ r. SameHeads starts.now extras.now r.0.items r.1.items) }
{
    let repeated = find_repeated(alloc, extras)?;
    let mut few = Vec::new(alloc);
    let mut places = Vec::new(alloc);
    keep_others(extras, &repeated, &mut few, &mut places)?;
    let mut moved = Vec::with_capacity(alloc, starts.len())?;
    for start in starts {
        moved.push(move_start(*start, &places))?;
    }
    Ok((moved, few))
}

/// For each extra, whether its first word is named again behind it in its run.
fn find_repeated(alloc: Global, extras: &[u16]) -> Result<Vec<bool>, NoMemory>
    ensures flags { IfOk result (λ v. length v.items ≡ length extras.now) }
    ensures repeats { IfOk result (λ v. Repeats v.items extras.now) }
{
    let mut repeated = vec![in alloc; false; extras.len()]?;
    let mut seen = zeros(alloc, NAMED)?;
    mark_repeated(extras, &mut repeated, &mut seen);
    Ok(repeated)
}

fn zeros(alloc: Global, count: usize) -> Result<Vec<usize>, NoMemory>
    ensures count { IfOk result (λ v. length v.items ≡ count) }
    ensures zeros { IfOk result (λ v. (k : ℕ) → slice_index v.items k ≡ 0) }
{
    let zeros = vec![in alloc; 0usize; count]?;
    Ok(zeros)
}

/// Goes through the extras from the last one on. A run is known by its end, and each first word by
/// the run in which it was named last.
fn mark_repeated(extras: &[u16], repeated: &mut [bool], seen: &mut [usize])
    requires flags { length repeated.old ≡ length extras.now }
    requires names { length seen.old ≡ 0x4000 }
    requires unseen { (k : ℕ) → slice_index seen.old k ≡ 0 }
    ensures { Repeats repeated.new extras.now }
{
    let mut run = extras.len() + 1;
    let mut i = extras.len();
    while i > 0 {
        i -= 1;
        let extra = extras[i];
        let head = (extra % 0x4000) as usize;
        run = run_at(extra, i, run);
        repeated[i] = is_repeated(extra, seen[head], run);
        seen[head] = run;
    }
}

/// The run of an extra: its own where it ends one, else the one behind it.
#[tactic(auto, unfolding(crate::specs::Chains::is_marked))]
fn run_at(extra: u16, i: usize, behind: usize) -> usize
    requires { i + 1 < 2 ^ 64 }
    ensures { result ≡ (if is_marked extra then i + 1 else behind) }
{
    if extra >= MARKED { i + 1 } else { behind }
}

/// Whether an extra ends no run, and its first word was named last in this run.
#[tactic(auto, unfolding(crate::specs::Chains::is_marked))]
fn is_repeated(extra: u16, seen: usize, run: usize) -> bool
    ensures { result ≡ (not (is_marked extra) && nat_eq seen run) }
{
    extra < MARKED && seen == run
}

/// Keeps the extras that aren't repeated, and says of those that a start can name where they stand
/// then, or those behind them.
fn keep_others(
    extras: &[u16],
    repeated: &[bool],
    few: &mut Vec<u16>,
    places: &mut Vec<u16>,
) -> Result<(), NoMemory>
    requires flags { length repeated.now ≡ length extras.now }
    requires empty { few.old.items ≡ [] }
    requires none { places.old.items ≡ [] }
    ensures kept { OnOk result (few.new.items ≡ kept_extras repeated.now extras.now) }
    ensures count { OnOk result (length places.new.items ≡ min 0x4000 (length extras.now)) }
    ensures places { OnOk result ((k : ℕ) → k < length places.new.items → (slice_index places.new.items k ≤ k)
        × (drop (slice_index places.new.items k) few.new.items
        ≡ kept_extras (drop k repeated.now) (drop k extras.now))) }
{
    for (i, extra) in extras.iter().enumerate() {
        push_place(i, few.len(), places)?;
        push_extra(*extra, repeated[i], few)?;
    }
    Ok(())
}

fn push_place(i: usize, place: usize, places: &mut Vec<u16>) -> Result<(), NoMemory>
    requires { place ≤ i }
    ensures { OnOk result (places.new.items ≡ places.old.items
        ++ (if nat_lt i 0x4000 then place ∷ [] else [])) }
{
    if i < NAMED {
        places.push(place as u16)?;
    }
    Ok(())
}

fn push_extra(extra: u16, is_repeated: bool, few: &mut Vec<u16>) -> Result<(), NoMemory>
    ensures { OnOk result (few.new.items ≡ few.old.items ++ (if is_repeated then [] else extra ∷ [])) }
{
    if !is_repeated {
        few.push(extra)?;
    }
    Ok(())
}

/// The start that leads to the extras that were kept of those that another one leads to.
#[tactic(auto, unfolding(crate::specs::Steps::Thinning::moved_start))]
fn move_start(start: u16, places: &[u16]) -> u16
    ensures { result ≡ moved_start start places.now }
{
    let index = (start % 0x4000) as usize;
    if start < MARKED {
        start
    } else if index < places.len() {
        MARKED + places[index] % 0x4000
    } else {
        NO_WORD
    }
}
