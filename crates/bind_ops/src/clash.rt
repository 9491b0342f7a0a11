// The rule that words of rebases, binds and lazy binds share no part of one another.
ghost use Rattle.std.specs.Prelude.{◌≡◌, ◌≤◌, ◌<◌, ◌+◌, ◌++◌, ℕ, length, nat_le, slice_index, IfOk, IfErr};
ghost use Rattle.std.specs.List.Sorted.{IsPermutation, IsNonDecreasingBy};
ghost use Rattle.dsc_base.specs.declared.fault.Fault.TheVariants as faults;
ghost use Rattle.dsc_base.specs.Refusals.{Refuses, least};
ghost use Rattle.macho_image.specs.Order.{addresses_of};
ghost use Rattle.bind_ops.specs.Binds.{places_of};
ghost use Rattle.bind_ops.specs.Clash.{first_in, clash_break};

use crate::Bind;
use dsc_base::{Fault, Rule, Site};
use macho_image::Location;
use std::alloc::Global;

/// The size of a word.
const WORD: u64 = 8;

fn push_addresses(out: &mut Vec<u64>, binds: &[Bind<'_>]) -> Result<(), Fault>
    ensures found { IfOk result (λ _. out.new.items ≡ out.old.items ++ addresses_of (places_of binds.now)) }
    ensures cause { IfErr result (λ e. e ≡ faults.Memory) }
{
    for bind in binds {
        out.push(bind.at.address)?;
    }
    Ok(())
}

/// The addresses of the binds of two streams, ascending.
fn bound_addresses(
    alloc: Global,
    first: &[Bind<'_>],
    second: &[Bind<'_>],
) -> Result<Vec<u64>, Fault>
    ensures moved { IfOk result (λ v. IsPermutation (addresses_of (places_of first.now) ++ addresses_of (places_of second.now)) v.items) }
    ensures rises { IfOk result (λ v. IsNonDecreasingBy (λ x. x) v.items) }
    ensures cause { IfErr result (λ e. e ≡ faults.Memory) }
{
    let mut addresses = Vec::new(alloc);
    push_addresses(&mut addresses, first)?;
    push_addresses(&mut addresses, second)?;
    addresses.sort_unstable();
    Ok(addresses)
}

/// The addresses of rebases, ascending.
fn rebased_addresses(alloc: Global, rebases: &[Location]) -> Result<Vec<u64>, Fault>
    ensures moved { IfOk result (λ v. IsPermutation (addresses_of rebases.now) v.items) }
    ensures rises { IfOk result (λ v. IsNonDecreasingBy (λ x. x) v.items) }
    ensures cause { IfErr result (λ e. e ≡ faults.Memory) }
{
    let mut addresses = Vec::with_capacity(alloc, rebases.len())?;
    for rebase in rebases {
        addresses.push(rebase.address)?;
    }
    addresses.sort_unstable();
    Ok(addresses)
}

fn is_above(address: u64, low: u64, gap: u64) -> bool
    ensures { result ≡ nat_le (low + gap) address }
{
    address >= low && address - low >= gap
}

/// From an index on, the first of ascending addresses that lies at least so far above another one.
fn first_above(addresses: &[u64], from: usize, low: u64, gap: u64) -> usize
    requires { from ≤ length addresses.now }
    ensures within { result ≤ length addresses.now }
    ensures passed { (k : ℕ) → from ≤ k → k < result → slice_index addresses.now k < low + gap }
    ensures found { result < length addresses.now → low + gap ≤ slice_index addresses.now result }
{
    for index in from..addresses.len() {
        if is_above(addresses[index], low, gap) {
            return index;
        }
    }
    addresses.len()
}

/// Of ascending addresses, the first at which a word has the start of another one in it, at least so far above
/// its own.
fn first_below(lower: &[u64], upper: &[u64], gap: u64) -> Option<u64>
    requires lower { IsNonDecreasingBy (λ x. x) lower.now }
    requires upper { IsNonDecreasingBy (λ x. x) upper.now }
    ensures { result ≡ first_in gap lower.now upper.now }
{
    let mut next = 0;
    for low in lower {
        next = first_above(upper, next, *low, gap);
        if next < upper.len() && upper[next].saturating_sub(*low) < WORD {
            return Some(*low);
        }
    }
    None
}

fn least(one: Option<u64>, other: Option<u64>) -> Option<u64>
    ensures { result ≡ least one other }
{
    match (one, other) {
        (Some(a), Some(b)) => Some(a.min(b)),
        (Some(a), None) => Some(a),
        (None, other) => other,
    }
}

/// The least address at which a rebase and a bind of either stream share a part, or a bind and a lazy bind share
/// anything. Each list ascends, and the last has the binds of both streams.
fn first_clash(rebased: &[u64], bound: &[u64], lazily: &[u64], all: &[u64]) -> Option<u64>
    requires rebased { IsNonDecreasingBy (λ x. x) rebased.now }
    requires bound { IsNonDecreasingBy (λ x. x) bound.now }
    requires lazily { IsNonDecreasingBy (λ x. x) lazily.now }
    requires all { IsNonDecreasingBy (λ x. x) all.now }
    ensures { result ≡ least (least (first_in 1 rebased.now all.now) (first_in 1 all.now rebased.now)) (least (first_in 0 bound.now lazily.now) (first_in 0 lazily.now bound.now)) }
{
    let skew = least(first_below(rebased, all, 1), first_below(all, rebased, 1));
    let near = least(first_below(bound, lazily, 0), first_below(lazily, bound, 0));
    least(skew, near)
}

/// Refuses `WordsOverlap` where a rebase and a bind or lazy bind are 1 to 7 bytes apart, or a bind and a lazy
/// bind less than 8, at the least address in such a pair. The three lists may be in any order.
pub fn words_clash(
    alloc: Global,
    rebases: &[Location],
    binds: &[Bind<'_>],
    lazy: &[Bind<'_>],
) -> Result<(), Fault>
    ensures { Refuses (clash_break (addresses_of rebases.now) (addresses_of (places_of binds.now)) (addresses_of (places_of lazy.now))) result }
{
    let rebased = rebased_addresses(alloc, rebases)?;
    let bound = bound_addresses(alloc, binds, &[])?;
    let lazily = bound_addresses(alloc, lazy, &[])?;
    let all = bound_addresses(alloc, binds, lazy)?;
    match first_clash(&rebased, &bound, &lazily, &all) {
        Some(at) => Err(Fault::Broken(Site {
            rule: Rule::WordsOverlap,
            at,
        })),
        None => Ok(()),
    }
}
