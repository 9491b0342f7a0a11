// Rebases that aren't bound: each has an address of its own image.
ghost use Rattle.std.specs.Prelude.{◌≡◌, ◌∷◌, ◌++◌, [], ℕ, Some, None, true, not, ◌&&◌, nat_eq, map, filter, position, slice_get, IfOk, OnOk};
ghost use Rattle.indexmap.specs.IndexMap.{get};
ghost use Rattle.indexmap.specs.IndexSet.{contains};
ghost use Rattle.dsc_base.specs.Refusals.{broken, first_break, Refuses};
ghost use Rattle.macho_image.specs.Segments.{value_of, inside};
ghost use Rattle.prebind.specs.WordRules as rules;
ghost use Rattle.prebind.specs.Kept as steps;
ghost use Rattle.prebind.specs.Words as spec;

use crate::body::Body;
use crate::{PlacedWord, WordTarget};
use dsc_base::{Fault, NoMemory, Rule, Site};
use indexmap::{IndexMap, IndexSet};
use macho_image::Location;

/// How a rebase may stray: into `__LINKEDIT`, or into no segment, where none is recorded for it; or out of the
/// segment that is recorded.
#[derive(Clone, Copy)]
enum Stray {
    IntoLinkedit,
    Nowhere,
    OutOfRange,
}

impl Stray {
    /// The rule that it breaks.
    fn rule(self) -> Rule
        ensures { result ≡ steps.rule_of self }
    {
        match self {
            Stray::IntoLinkedit => Rule::PointsIntoLinkedit,
            Stray::Nowhere => Rule::RebaseOutside,
            Stray::OutOfRange => Rule::PointerOutOfRange,
        }
    }
}

fn points_into_linkedit(segments: &Body<'_, '_>, value: u64, recorded: Option<u32>) -> bool
    ensures { result ≡ rules.breaks_135 segments.now value recorded }
{
    if recorded.is_some() {
        return false;
    }
    match segments.find(value) {
        Some(place) => segments.is_linkedit_at(place.segment),
        None => false,
    }
}

fn points_nowhere(segments: &Body<'_, '_>, value: u64, recorded: Option<u32>) -> bool
    ensures { result ≡ rules.breaks_136 segments.now value recorded }
{
    if recorded.is_some() {
        return false;
    }
    segments.find(value).is_none()
}

fn points_out_of_range(segments: &Body<'_, '_>, value: u64, recorded: Option<u32>) -> bool
    ensures { result ≡ rules.breaks_137 segments.now value recorded }
{
    match recorded {
        Some(number) => segments.is_out_of(number, value),
        None => false,
    }
}

/// The place of a value in the segment that contains it, unless that is `__LINKEDIT`.
fn value_place(segments: &Body<'_, '_>, image: u32, value: u64) -> Option<WordTarget>
    ensures { result ≡ steps.kept_target image segments.now value None }
{
    match segments.find(value) {
        Some(place) if !segments.is_linkedit_at(place.segment) => Some(WordTarget::Place {
            image,
            segment: place.segment,
            distance: place.distance,
        }),
        _ => None,
    }
}

/// The place of a value in the segment that is recorded for it, unless it lies out of that.
#[tactic(auto, unfolding(macho_image::specs::Places::above))]
fn recorded_place(
    segments: &Body<'_, '_>,
    image: u32,
    segment: u32,
    value: u64,
) -> Option<WordTarget>
    ensures { result ≡ steps.kept_target image segments.now value (Some segment) }
{
    if segments.is_out_of(segment, value) {
        return None;
    }
    Some(WordTarget::Place {
        image,
        segment,
        distance: value.wrapping_sub(segments.start_of(segment)),
    })
}

/// Where a rebase of image number `image` leads that has this value, unless it breaks a rule.
fn target_of(
    segments: &Body<'_, '_>,
    image: u32,
    value: u64,
    recorded: Option<u32>,
) -> Option<WordTarget>
    ensures { result ≡ steps.kept_target image segments.now value recorded }
{
    match recorded {
        Some(segment) => recorded_place(segments, image, segment, value),
        None => value_place(segments, image, value),
    }
}

fn is_free(bound: &IndexSet<u64>, word: &Location) -> bool
    ensures { result ≡ not (contains nat_eq bound.now word.now.address) }
{
    bound.is_empty() || !bound.contains(&word.address)
}

fn recorded_at(pointers: &IndexMap<u64, u32>, word: &Location) -> Option<u32>
    ensures { result ≡ get nat_eq pointers.now word.now.address }
{
    if pointers.is_empty() {
        return None;
    }
    pointers.get(&word.address).copied()
}

/// Whether a rebase with this value strays in one way.
fn strays(segments: &Body<'_, '_>, value: u64, recorded: Option<u32>, stray: Stray) -> bool
    ensures { result ≡ steps.strays stray segments.now value recorded }
{
    match stray {
        Stray::IntoLinkedit => points_into_linkedit(segments, value, recorded),
        Stray::Nowhere => points_nowhere(segments, value, recorded),
        Stray::OutOfRange => points_out_of_range(segments, value, recorded),
    }
}

fn first_straying(
    segments: &Body<'_, '_>,
    bound: &IndexSet<u64>,
    pointers: &IndexMap<u64, u32>,
    words: &[Location],
    stray: Stray,
) -> Option<usize>
    ensures { result ≡ rules.first_rebase (steps.strays stray) segments.now (contains nat_eq bound.now) (get nat_eq pointers.now) words.now }
{
    words.iter().position(|l| {
        is_free(bound, l)
            && strays(
                segments,
                segments.value_at(l),
                recorded_at(pointers, l),
                stray,
            )
    })
}

/// Refuses the first rebase that strays in one way.
fn check_stray(
    segments: &Body<'_, '_>,
    bound: &IndexSet<u64>,
    pointers: &IndexMap<u64, u32>,
    words: &[Location],
    stray: Stray,
) -> Result<(), Fault>
    ensures { Refuses (broken (steps.rule_of stray) (rules.first_rebase (steps.strays stray) segments.now (contains nat_eq bound.now) (get nat_eq pointers.now) words.now)) result }
{
    match first_straying(segments, bound, pointers, words, stray) {
        Some(at) => Err(Fault::Broken(Site {
            rule: stray.rule(),
            at: at as u64,
        })),
        None => Ok(()),
    }
}

/// Refuses the first of the rules that rebases break: all that lead into `__LINKEDIT` go before those that
/// lead into no segment, and these before recorded ones that leave their segment.
fn check_rebases(
    segments: &Body<'_, '_>,
    bound: &IndexSet<u64>,
    pointers: &IndexMap<u64, u32>,
    words: &[Location],
) -> Result<(), Fault>
    ensures { Refuses (rules.rebase_fault segments.now (contains nat_eq bound.now) (get nat_eq pointers.now) words.now) result }
{
    check_stray(segments, bound, pointers, words, Stray::IntoLinkedit)?;
    check_stray(segments, bound, pointers, words, Stray::Nowhere)?;
    check_stray(segments, bound, pointers, words, Stray::OutOfRange)?;
    Ok(())
}

/// Appends the rebases that aren't bound, each with where it leads, and tells whether all keep the rules. It
/// looks each of them up once, and ends at one that breaks a rule.
fn place_rebases(
    segments: &Body<'_, '_>,
    bound: &IndexSet<u64>,
    pointers: &IndexMap<u64, u32>,
    image: u32,
    rebases: &[Location],
    words: &mut Vec<PlacedWord>,
) -> Result<bool, NoMemory>
    ensures kept { IfOk result (λ kept. kept ≡ not (steps.any_breaks segments.now (contains nat_eq bound.now) (get nat_eq pointers.now) rebases.now)) }
    ensures placed { IfOk result (λ kept. kept ≡ true → words.new.items ≡ words.old.items ++ spec.rebased_words image segments.now (contains nat_eq bound.now) (get nat_eq pointers.now) rebases.now) }
{
    words.reserve(rebases.len())?;
    for word in rebases {
        if is_free(bound, word) {
            let value = segments.value_at(word);
            match target_of(segments, image, value, recorded_at(pointers, word)) {
                Some(target) => words.push(PlacedWord { at: *word, target })?,
                None => return Ok(false),
            }
        }
    }
    Ok(true)
}

/// Appends the rebases that aren't bound, each with where it leads, or refuses the first rule that they break.
/// They are looked up again, rule by rule, only where one is broken.
pub(crate) fn push_rebases(
    segments: &Body<'_, '_>,
    bound: &IndexSet<u64>,
    pointers: &IndexMap<u64, u32>,
    image: u32,
    rebases: &[Location],
    words: &mut Vec<PlacedWord>,
) -> Result<(), Fault>
    ensures placed { OnOk result (words.new.items ≡ words.old.items ++ spec.rebased_words image segments.now (contains nat_eq bound.now) (get nat_eq pointers.now) rebases.now) }
    ensures cause { Refuses (rules.rebase_fault segments.now (contains nat_eq bound.now) (get nat_eq pointers.now) rebases.now) result }
{
    if place_rebases(segments, bound, pointers, image, rebases, words)? {
        return Ok(());
    }
    check_rebases(segments, bound, pointers, rebases)
}
