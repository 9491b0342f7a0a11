// The nested lists of a stream, one after another.
ghost use Rattle.std.specs.Prelude.{◌≡◌, ◌≤◌, ℕ, length, IfOk, IfErr};
ghost use Rattle.split_info.specs.Stream.{Spelled, Refused, number};
ghost use Rattle.split_info.specs.Split.{reference_fault};
ghost use Rattle.split_info.specs.Reading.{offsets, groups, targets, pairs, ReadsTo, RefusesPart};

use crate::extent::{Extent, Target, from_section, reference_in, target_in, to_section};
use crate::words::Words;
use crate::{RefKind, Reference};
use dsc_base::{Fault, RECORD_LIMIT, Rule, Site, read_uleb};
use macho_image::Image;

/// A stream, and the rebases of its image.
#[derive(Drop)]
pub(crate) struct Source<'r> {
    pub stream: &'r [u8],
    pub rebases: &'r Words<'r>,
}

pub(crate) fn refused(rule: Rule, at: usize) -> Fault
    ensures { result ≡ Fault.Broken (record { rule = rule; at = at }) }
{
    Fault::Broken(Site {
        rule,
        at: at as u64,
    })
}

pub(crate) fn read_number(stream: &[u8], at: usize) -> Result<(u64, usize), Fault>
    requires { at ≤ length stream.now }
    ensures found { IfOk result (λ p. (more : ℕ → ℕ → Spelled) → number stream.now at more ≡ more p.0 p.1) }
    ensures within { IfOk result (λ p. p.1 ≤ length stream.now) }
    ensures cause { IfErr result (λ fault. (fault ≡ Fault.Broken (record { rule = Rule.SplitBadUleb; at = at })) × ((more : ℕ → ℕ → Spelled) → number stream.now at more ≡ Refused (record { rule = Rule.SplitBadUleb; at = at }))) }
{
    match read_uleb(stream, at) {
        Ok(read) => Ok(read),
        Err(_) => Err(refused(Rule::SplitBadUleb, at)),
    }
}

fn reference_fault(rebases: &Words<'_>, reference: &Reference, before: usize) -> Option<Rule>
    ensures { result ≡ reference_fault rebases.now before reference.now }
{
    if reference.kind.is_pointer() && !rebases.have(reference) {
        Some(Rule::SplitPointerNotRebased)
    } else if before >= RECORD_LIMIT {
        Some(Rule::SplitTooMany)
    } else {
        None
    }
}

/// So many references of one kind from one section to one place.
fn read_offsets(
    source: &Source<'_>,
    kind: RefKind,
    from: Extent,
    target: Target,
    count: u64,
    start: usize,
    found: &mut Vec<Reference>,
) -> Result<usize, Fault>
    requires { start ≤ length source.now.stream.now }
    ensures read { IfOk result (ReadsTo source.now.rebases.now found.old.items found.new.items (offsets source.now.stream.now kind from target count 0 start)) }
    ensures within { IfOk result (λ next. next ≤ length source.now.stream.now) }
    ensures cause { IfErr result (RefusesPart source.now.rebases.now found.old.items (offsets source.now.stream.now kind from target count 0 start)) }
{
    let mut at = start;
    let mut distance = 0;
    for _ in 0..count {
        let (delta, next) = read_number(source.stream, at)?;
        let Some(reference) = reference_in(kind, from, target, distance, delta) else {
            return Err(refused(Rule::SplitOutsideSection, at));
        };
        if let Some(rule) = reference_fault(source.rebases, &reference, found.len()) {
            return Err(refused(rule, at));
        }
        found.push(reference)?;
        distance += delta;
        at = next;
    }
    Ok(at)
}

/// So many groups of references from one section to one place, each group of one kind.
fn read_groups(
    source: &Source<'_>,
    from: Extent,
    target: Target,
    count: u64,
    start: usize,
    found: &mut Vec<Reference>,
) -> Result<usize, Fault>
    requires { start ≤ length source.now.stream.now }
    ensures read { IfOk result (ReadsTo source.now.rebases.now found.old.items found.new.items (groups source.now.stream.now from target count start)) }
    ensures within { IfOk result (λ next. next ≤ length source.now.stream.now) }
    ensures cause { IfErr result (RefusesPart source.now.rebases.now found.old.items (groups source.now.stream.now from target count start)) }
{
    let mut at = start;
    for _ in 0..count {
        let (code, counted) = read_number(source.stream, at)?;
        let Some(kind) = RefKind::of(code) else {
            return Err(refused(Rule::SplitBadKind, at));
        };
        let (offsets, first) = read_number(source.stream, counted)?;
        at = read_offsets(source, kind, from, target, offsets, first, found)?;
    }
    Ok(at)
}

/// The groups of so many places in one section, from another one.
fn read_targets(
    source: &Source<'_>,
    from: Extent,
    to: Extent,
    count: u64,
    start: usize,
    found: &mut Vec<Reference>,
) -> Result<usize, Fault>
    requires { start ≤ length source.now.stream.now }
    ensures read { IfOk result (ReadsTo source.now.rebases.now found.old.items found.new.items (targets source.now.stream.now from to count 0 start)) }
    ensures within { IfOk result (λ next. next ≤ length source.now.stream.now) }
    ensures cause { IfErr result (RefusesPart source.now.rebases.now found.old.items (targets source.now.stream.now from to count 0 start)) }
{
    let mut at = start;
    let mut offset = 0;
    for _ in 0..count {
        let (delta, counted) = read_number(source.stream, at)?;
        let Some(target) = target_in(to, offset, delta) else {
            return Err(refused(Rule::SplitOutsideSection, at));
        };
        let (groups, first) = read_number(source.stream, counted)?;
        at = read_groups(source, from, target, groups, first, found)?;
        offset += delta;
    }
    Ok(at)
}

/// The references between so many pairs of sections.
pub(crate) fn read_pairs(
    source: &Source<'_>,
    image: &Image<'_>,
    count: u64,
    start: usize,
    found: &mut Vec<Reference>,
) -> Result<usize, Fault>
    requires { start ≤ length source.now.stream.now }
    ensures read { IfOk result (ReadsTo source.now.rebases.now found.old.items found.new.items (pairs source.now.stream.now image.now count start)) }
    ensures within { IfOk result (λ next. next ≤ length source.now.stream.now) }
    ensures cause { IfErr result (RefusesPart source.now.rebases.now found.old.items (pairs source.now.stream.now image.now count start)) }
{
    let mut at = start;
    for _ in 0..count {
        let (one, second) = read_number(source.stream, at)?;
        let Some(from) = from_section(image, one) else {
            return Err(refused(Rule::SplitBadSection, at));
        };
        let (other, counted) = read_number(source.stream, second)?;
        let Some(to) = to_section(image, other) else {
            return Err(refused(Rule::SplitBadSection, second));
        };
        let (targets, first) = read_number(source.stream, counted)?;
        at = read_targets(source, from, to, targets, first, found)?;
    }
    Ok(at)
}
