// The cache of trial dylibs, and what is told of it.
ghost use Rattle.std.specs.Prelude.{◌≡◌, ◌≤◌, length, IfOk, IfErr, string_bytes};
ghost use Rattle.std.specs.List.{sum};
ghost use Rattle.cache_build.specs.Sound.{IsSoundCache};
ghost use Rattle.cache_check.specs.Views.{view_of};
ghost use Rattle.dsc_base.specs.Limits.{span_limit};
ghost use Rattle.dsc_tool.specs.Steps.{IsTrialCache, TrialStop};
ghost use Rattle.dsc_tool.specs.Texts.{trial_line};
ghost use Rattle.dsc_tool.specs.Words.{IsTrial};
ghost use Rattle.dsc_tool.specs.declared.stop.Stop.TheVariants as stops;

use crate::stop::Stop;
use crate::text::trial_text;
use cache_build::{Options, build};
use cache_check::read_cache;
use dsc_base::Gate;
use dsc_gen::{Shape, generate};
use std::alloc::Global;
use std::thread::Threads;

/// How large trial dylibs are: four pages of text and of data, with as many pointers as deltas, and links.
const SHAPE: Shape = Shape {
    pages: 4,
    pointers: 100,
    links: 20,
};

/// The cache of so many trial dylibs, whose contents the seed decides.
pub(crate) fn trial_cache<R: Threads + Sync, G: Gate + Sync>(
    rt: &R,
    alloc: Global,
    options: &Options,
    seed: u64,
    count: u32,
    gate: &G,
) -> Result<Vec<u8>, Stop>
    requires { IsTrial options.now count }
    ensures cache { IfOk result (λ c. IsTrialCache seed count c.items) }
    ensures stop { IfErr result (TrialStop seed count) }
{
    let files = generate(alloc, seed, count, &SHAPE)?;
    Ok(build(rt, alloc, &files, options, gate)?)
}

/// The line that tells of the cache of so many trial dylibs. The words that slide are counted as the cache is
/// read back: nothing is found in it.
pub(crate) fn summary(alloc: Global, images: u32, cache: &[u8]) -> Result<String, Stop>
    requires { IsSoundCache cache.now }
    ensures line { IfOk result (λ line. string_bytes line ≡ trial_line images (length (view_of cache.now).words) (length cache.now) (sum cache.now)) }
    ensures stop { IfErr result (λ stop. stop ≡ stops.Memory) }
{
    let words = read_cache(alloc, cache)?.words.len();
    Ok(trial_text(alloc, images, words, cache.len() as u64, byte_sum(cache))?)
}

fn byte_sum(bytes: &[u8]) -> u64
    requires { length bytes.now ≤ span_limit }
    ensures { result ≡ sum bytes.now }
{
    let mut total = 0;
    for byte in bytes {
        total += u64::from(*byte);
    }
    total
}
