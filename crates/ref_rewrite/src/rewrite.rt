// All images rewritten, in halves that threads share.
mod image;

ghost use Rattle.std.specs.Prelude.{◌≡◌, ◌≤◌, ◌<◌, ◌+◌, ◌^◌, All, replicate, take, sum_by, length};
ghost use denote.Param.Send.{IsSync};
ghost use Rattle.ref_rewrite.specs.Plans.{Fit, IsSoundPlan};
ghost use Rattle.ref_rewrite.specs.Rewritten.{joined};
ghost use Rattle.ref_rewrite.specs.Runs.{IsRun, IsBlankRun};

use crate::ImagePlan;
use dsc_base::Gate;
use std::marker::Sync;
use std::thread::{Threads, join_mut};

/// Carries out the plans in the three buffers, which are zeros and stand for three ranges of the cache file.
/// The jobs, from 1 to 64, are the most threads that work at once, and the bytes are the same for any number
/// of them. `gate.enter` is called once for each image, with its number among the plans, before any of its
/// bytes changes. It takes no memory.
pub fn rewrite_all<R: Threads + Sync, G: Gate + Sync>(
    rt: &R,
    text: &mut [u8],
    writable: &mut [u8],
    fixed: &mut [u8],
    plans: &[ImagePlan<'_>],
    jobs: u32,
    gate: &G,
)
    requires text { text.old ≡ replicate (length text.old) 0 }
    requires writable { writable.old ≡ replicate (length writable.old) 0 }
    requires fixed { fixed.old ≡ replicate (length fixed.old) 0 }
    requires fit { Fit (length text.old) (length writable.old) (length fixed.old) plans.now }
    requires jobs { (1 ≤ jobs) × (jobs ≤ 64) }
    ensures text { text.new ≡ joined (λ p. p.text) plans.now }
    ensures writable { writable.new ≡ joined (λ p. p.writable) plans.now }
    ensures fixed { fixed.new ≡ joined (λ p. p.fixed) plans.now }
{
    rewrite_run(rt, gate, jobs, 0, plans, text, writable, fixed);
}

/// Carries out the plans of a run of images, the first of which has the number `first` among all.
#[cycle(run)]
fn rewrite_run<R: Threads + Sync, G: Gate + Sync>(
    rt: &R,
    gate: &G,
    jobs: u32,
    first: usize,
    plans: &[ImagePlan<'_>],
    text: &mut [u8],
    writable: &mut [u8],
    fixed: &mut [u8],
)
    requires first { first + length plans.now < 2 ^ 64 }
    requires text { IsBlankRun (λ p. p.text) text.old plans.now }
    requires writable { IsBlankRun (λ p. p.writable) writable.old plans.now }
    requires fixed { IsBlankRun (λ p. p.fixed) fixed.old plans.now }
    requires sound { All IsSoundPlan plans.now }
    ensures text { text.new ≡ joined (λ p. p.text) plans.now }
    ensures writable { writable.new ≡ joined (λ p. p.writable) plans.now }
    ensures fixed { fixed.new ≡ joined (λ p. p.fixed) plans.now }
{
    if plans.is_empty() {
        return;
    }
    if plans.len() == 1 {
        let plan = &plans[0];
        image::rewrite_image(gate, first, plan, text, writable, fixed);
        return;
    }
    let low = plans.len() / 2;
    let (left, right) = plans.split_at(low);
    let (text_len, writable_len, fixed_len) = lens(plans, low);
    let (text_left, text_right) = text.split_at_mut(text_len);
    let (writable_left, writable_right) = writable.split_at_mut(writable_len);
    let (fixed_left, fixed_right) = fixed.split_at_mut(fixed_len);
    rewrite_halves(
        rt,
        gate,
        jobs,
        first,
        left,
        right,
        text_left,
        writable_left,
        fixed_left,
        text_right,
        writable_right,
        fixed_right,
    );
}

/// Carries out the plans of two runs that follow one another: side by side where there are jobs for both, and
/// else in turn.
#[cycle(run)]
fn rewrite_halves<R: Threads + Sync, G: Gate + Sync>(
    rt: &R,
    gate: &G,
    jobs: u32,
    first: usize,
    left: &[ImagePlan<'_>],
    right: &[ImagePlan<'_>],
    text_left: &mut [u8],
    writable_left: &mut [u8],
    fixed_left: &mut [u8],
    text_right: &mut [u8],
    writable_right: &mut [u8],
    fixed_right: &mut [u8],
)
    requires first { first + length left.now + length right.now < 2 ^ 64 }
    requires text_left { IsBlankRun (λ p. p.text) text_left.old left.now }
    requires writable_left { IsBlankRun (λ p. p.writable) writable_left.old left.now }
    requires fixed_left { IsBlankRun (λ p. p.fixed) fixed_left.old left.now }
    requires text_right { IsBlankRun (λ p. p.text) text_right.old right.now }
    requires writable_right { IsBlankRun (λ p. p.writable) writable_right.old right.now }
    requires fixed_right { IsBlankRun (λ p. p.fixed) fixed_right.old right.now }
    requires sound_left { All IsSoundPlan left.now }
    requires sound_right { All IsSoundPlan right.now }
    ensures text_left { text_left.new ≡ joined (λ p. p.text) left.now }
    ensures writable_left { writable_left.new ≡ joined (λ p. p.writable) left.now }
    ensures fixed_left { fixed_left.new ≡ joined (λ p. p.fixed) left.now }
    ensures text_right { text_right.new ≡ joined (λ p. p.text) right.now }
    ensures writable_right { writable_right.new ≡ joined (λ p. p.writable) right.now }
    ensures fixed_right { fixed_right.new ≡ joined (λ p. p.fixed) right.now }
{
    let second = first + left.len();
    if jobs < 2 {
        rewrite_run(
            rt,
            gate,
            1,
            first,
            left,
            text_left,
            writable_left,
            fixed_left,
        );
        rewrite_run(
            rt,
            gate,
            1,
            second,
            right,
            text_right,
            writable_right,
            fixed_right,
        );
        return;
    }
    let low = jobs / 2;
    let high = jobs - low;
    let mut front = ||
        requires { IsSync R.row × IsSync G.row × (first + length left.now < 2 ^ 64) × IsBlankRun (λ p. p.text) text_left.now left.now × IsBlankRun (λ p. p.writable) writable_left.now left.now × IsBlankRun (λ p. p.fixed) fixed_left.now left.now × All IsSoundPlan left.now }
        ensures { (text_left.exit.now ≡ joined (λ p. p.text) left.entry.now) × (writable_left.exit.now ≡ joined (λ p. p.writable) left.entry.now) × (fixed_left.exit.now ≡ joined (λ p. p.fixed) left.entry.now) }
    {
        rewrite_run(
            rt,
            gate,
            low,
            first,
            left,
            text_left,
            writable_left,
            fixed_left,
        )
    };
    let mut back = ||
        requires { IsSync R.row × IsSync G.row × (second + length right.now < 2 ^ 64) × IsBlankRun (λ p. p.text) text_right.now right.now × IsBlankRun (λ p. p.writable) writable_right.now right.now × IsBlankRun (λ p. p.fixed) fixed_right.now right.now × All IsSoundPlan right.now }
        ensures { (text_right.exit.now ≡ joined (λ p. p.text) right.entry.now) × (writable_right.exit.now ≡ joined (λ p. p.writable) right.entry.now) × (fixed_right.exit.now ≡ joined (λ p. p.fixed) right.entry.now) }
    {
        rewrite_run(
            rt,
            gate,
            high,
            second,
            right,
            text_right,
            writable_right,
            fixed_right,
        )
    };
    join_mut(rt, &mut front, &mut back);
}

/// How many bytes of each buffer the first images have, as many as `low`: the next one's spans begin there.
fn lens(plans: &[ImagePlan<'_>], low: usize) -> (usize, usize, usize)
    requires low { low < length plans.now }
    requires text { IsRun (λ p. p.text) plans.now }
    requires writable { IsRun (λ p. p.writable) plans.now }
    requires fixed { IsRun (λ p. p.fixed) plans.now }
    ensures text { result.0 ≡ sum_by (λ p. p.text.len) (take low plans.now) }
    ensures writable { result.1 ≡ sum_by (λ p. p.writable.len) (take low plans.now) }
    ensures fixed { result.2 ≡ sum_by (λ p. p.fixed.len) (take low plans.now) }
{
    let start = &plans[0];
    let next = &plans[low];
    let text = next.text.at - start.text.at;
    let writable = next.writable.at - start.writable.at;
    let fixed = next.fixed.at - start.fixed.at;
    (text as usize, writable as usize, fixed as usize)
}
