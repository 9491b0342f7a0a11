// The bound and rebased words of an image, and where they lead.
ghost use Rattle.std.specs.Prelude.{◌≡◌, ◌<◌, ◌++◌, ◌∷◌, [], not, None, length, map, filter, nat_eq, option_map, IfOk, OnOk, MatchResult};
ghost use Rattle.std.specs.List.Sorted.{IsPermutation, IsNonDecreasingBy};
ghost use Rattle.indexmap.specs.IndexMap.{get};
ghost use Rattle.indexmap.specs.IndexSet.{contains};
ghost use Rattle.dsc_base.specs.Refusals.{Refuses};
ghost use Rattle.prebind.specs.Words as spec;
ghost use Rattle.prebind.specs.WordRules as rules;
ghost use Rattle.prebind.specs.Targets as targets;

use crate::body::Body;
use crate::lookups::{bound_addresses, recorded_pointers};
use crate::rebased::push_rebases;
use crate::{PlacedWord, Resolved, WordTarget};
use bind_ops::Bind;
use dsc_base::{Fault, NoMemory, Rule, Site};
use macho_image::Location;
use split_info::Reference;
use std::alloc::Global;

/// The rule that a bind breaks whose symbol has this outcome.
fn outcome_fault(weak: bool, outcome: Resolved) -> Option<Rule>
    ensures { result ≡ rules.outcome_fault weak outcome }
{
    match outcome {
        Resolved::BadOrdinal => Some(Rule::BadOrdinal),
        Resolved::Loop => Some(Rule::ReexportLoop),
        Resolved::Absent => {
            if weak {
                None
            } else {
                Some(Rule::UnresolvedSymbol)
            }
        }
        _ => None,
    }
}

fn added(number: u64, addend: i64) -> u64
    ensures { result ≡ targets.added number addend }
{
    number.wrapping_add(addend.cast_unsigned())
}

fn bound_target(addend: i64, outcome: Resolved) -> WordTarget
    ensures { result ≡ targets.bound_target addend outcome }
{
    match outcome {
        Resolved::Place {
            image,
            segment,
            distance,
        } => WordTarget::Place {
            image,
            segment,
            distance: added(distance, addend),
        },
        Resolved::Constant(number) => WordTarget::Constant(added(number, addend)),
        _ => WordTarget::Constant(added(0, addend)),
    }
}

/// The word that the bind of an index gives whose symbol has this outcome: it leads as far behind the symbol's
/// place as the bind's addend says, also where a weak symbol is absent, which counts as 0.
///
/// Refuses with that index `BadOrdinal`, `ReexportLoop`, and `UnresolvedSymbol` where the symbol isn't weak.
/// It takes no memory.
pub fn place_resolved(index: usize, bind: &Bind<'_>, outcome: Resolved) -> Result<PlacedWord, Fault>
    ensures found { IfOk result (λ w. w ≡ record { at = bind.now.at; target = targets.bound_target bind.now.addend outcome }) }
    ensures cause { Refuses (option_map (λ rule. record { rule = rule; at = index }) (rules.outcome_fault bind.now.weak outcome)) result }
{
    match outcome_fault(bind.weak, outcome) {
        Some(rule) => Err(Fault::Broken(Site {
            rule,
            at: index as u64,
        })),
        None => Ok(PlacedWord {
            at: bind.at,
            target: bound_target(bind.addend, outcome),
        }),
    }
}

/// Puts words in the order of their addresses.
fn sort_words(words: &mut Vec<PlacedWord>) -> Result<(), NoMemory>
    ensures { OnOk result (spec.AreOrdered words.old.items words.new.items) }
{
    words.sort_by_key(|w| w.at.address)?;
    Ok(())
}

/// Words that are bound, and behind them the rebases that aren't, in the order of their addresses; or the
/// first rule that these rebases break.
pub(crate) fn with_rebases(
    alloc: Global,
    segments: &Body<'_, '_>,
    image: u32,
    binds: &[Bind<'_>],
    references: &[Reference],
    rebases: &[Location],
    placed: Vec<PlacedWord>,
) -> Result<Vec<PlacedWord>, Fault>
    ensures found { IfOk result (λ v. spec.AreOrdered (placed.items ++ spec.rebased_words image segments.now (spec.is_bound binds.now) (targets.pointer_at references.now) rebases.now) v.items) }
    ensures cause { Refuses (rules.rebase_fault segments.now (spec.is_bound binds.now) (targets.pointer_at references.now) rebases.now) result }
{
    let mut words = placed;
    let bound = bound_addresses(alloc, binds)?;
    let pointers = recorded_pointers(alloc, references)?;
    match push_rebases(segments, &bound, &pointers, image, rebases, &mut words) {
        Ok(()) => {}
        Err(fault) => return Err(fault),
    }
    sort_words(&mut words)?;
    Ok(words)
}
