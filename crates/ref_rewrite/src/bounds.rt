// Bound words that lead out of a cache.
ghost use Rattle.std.specs.Prelude.{◌≡◌, nat_eq, nat_lt, map, find, option_map, position};
ghost use Rattle.std.specs.List.Sorted.{IsNonDecreasingBy};
ghost use Rattle.dsc_base.specs.Refusals.{broken, Refuses};
ghost use Rattle.dsc_base.specs.declared.rule.Rule.TheVariants.{BoundOutOfRange};
ghost use Rattle.ref_rewrite.specs.Breaks as breaks;
ghost use Rattle.ref_rewrite.specs.Steps.{IsMoving, target_at, target_beyond};

use crate::moving::Moving;
use bind_ops::Bind;
use cache_layout::Layout;
use dsc_base::{Fault, REGION_START, Rule, Site};
use prebind::{PlacedWord, WordTarget};

/// Whether an address is below the region's start or behind the end of the read-only segments.
fn is_beyond(layout: &Layout, address: u64) -> bool
    ensures { result ≡ breaks.is_beyond layout.now address }
{
    let fixed = layout.fixed();
    let end = u128::from(REGION_START) + u128::from(fixed.at) + u128::from(fixed.len);
    address < REGION_START || end < u128::from(address)
}

fn leads_beyond(moving: &Moving<'_, '_>, target: WordTarget) -> bool
    requires { IsMoving moving.now }
    ensures { result ≡ breaks.leads_beyond moving.now.layout.now target }
{
    match target {
        WordTarget::Place {
            image,
            segment,
            distance,
        } => is_beyond(
            moving.layout,
            moving.start(image, segment).wrapping_add(distance),
        ),
        WordTarget::Constant(_) => false,
    }
}

/// Where the word at an address leads, of words in the order of their addresses.
fn target_at(words: &[PlacedWord], address: u64) -> Option<WordTarget>
    requires { IsNonDecreasingBy (λ w. w.at.address) words.now }
    ensures { result ≡ target_at words.now address }
{
    let index = words.partition_point(
        |w: &PlacedWord| -> bool
            ensures { result ≡ nat_lt w.now.at.address address }
        { w.at.address < address },
    );
    let word = words.get(index)?;
    if word.at.address == address {
        Some(word.target)
    } else {
        None
    }
}

fn is_out(moving: &Moving<'_, '_>, words: &[PlacedWord], bind: &Bind<'_>) -> bool
    requires moving { IsMoving moving.now }
    requires order { IsNonDecreasingBy (λ w. w.at.address) words.now }
    ensures { result ≡ target_beyond moving.now.layout.now words.now bind.now }
{
    match target_at(words, bind.at.address) {
        Some(target) => leads_beyond(moving, target),
        None => false,
    }
}

fn first_out(moving: &Moving<'_, '_>, words: &[PlacedWord], binds: &[Bind<'_>]) -> Option<usize>
    requires moving { IsMoving moving.now }
    requires order { IsNonDecreasingBy (λ w. w.at.address) words.now }
    ensures { result ≡ position (target_beyond moving.now.layout.now words.now) binds.now }
{
    binds.iter().position(|b| is_out(moving, words, b))
}

/// Refuses the first bind whose word leads to a place out of the cache's segments, by the words in the order
/// of their addresses.
pub(crate) fn check_binds(
    moving: &Moving<'_, '_>,
    words: &[PlacedWord],
    binds: &[Bind<'_>],
) -> Result<(), Fault>
    requires moving { IsMoving moving.now }
    requires order { IsNonDecreasingBy (λ w. w.at.address) words.now }
    ensures { Refuses (broken BoundOutOfRange (position (target_beyond moving.now.layout.now words.now) binds.now)) result }
{
    match first_out(moving, words, binds) {
        Some(at) => Err(Fault::Broken(Site {
            rule: Rule::BoundOutOfRange,
            at: at as u64,
        })),
        None => Ok(()),
    }
}
