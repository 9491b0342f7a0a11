// Building a cache of a set of dylibs.
ghost use Rattle.std.specs.Prelude.{◌≡◌, ◌≤◌, ◌<◌, ℕ, None, length, map, All, IfOk, IfErr, OnOk};
ghost use Rattle.cache_check.specs.Images.{images_finding};
ghost use Rattle.cache_check.specs.Views.{view_of};
ghost use Rattle.cache_build.specs.Breaks.{set_break};
ghost use Rattle.cache_header.specs.Reading.{span};
ghost use Rattle.load_model.specs.Phases.{contents};
ghost use Rattle.cache_build.specs.Built.{built};
ghost use Rattle.cache_build.specs.Filling.{ArePartsOf};
ghost use Rattle.cache_build.specs.Ready.{IsReady};
ghost use Rattle.cache_build.specs.Sound.{IsSoundCache};
ghost use Rattle.dsc_base.specs.Refusals.{IsSetRefusal, RefusesSet};
ghost use Rattle.cache_build.specs.Always.{CorrespondsAlways};

use crate::filling::{Parts, filled_cache};
use crate::frame::Frame;
use crate::gathering::gather;
use cache_layout::{Layout, lay_out};
use dsc_base::{Gate, SetFault};
use load_model::{FileSet, read_files};
use prebind::Set;
use std::alloc::Global;
use std::thread::Threads;

/// How to build: with how many workers, and with how many bits for the distance to the next word of a
/// chain.
#[derive(Clone, Copy, Debug, PartialEq, Eq)]
pub struct Options {
    pub jobs: u32,
    pub delta_bits: u32,
}

/// Does nothing: its contract tells what is true of each slice of bytes.
fn are_bytes(bytes: &[u8])
    ensures { All (λ b. b < 256) bytes.now }
{
    let _ = bytes;
}

/// The same of files.
fn files_are_bytes(files: &[Vec<u8>])
    ensures { All (λ f. All (λ b. b < 256) f) (contents files.now) }
{
    for file in files {
        are_bytes(file);
    }
}

/// The set that files make, and its layout; or the first rule that they break up to there.
fn read_set<'a>(alloc: Global, files: &'a [Vec<u8>]) -> Result<(FileSet<'a>, Layout), SetFault>
    requires few { length files.now ≤ 4096 }
    requires bytes { All (λ f. All (λ b. b < 256) f) (contents files.now) }
    ensures ready { IfOk result (λ r. (bits : ℕ) → (1 ≤ bits) × (bits ≤ 16) → IsReady bits (contents files.entry.now) (record { images = r.0.images.items; streams = r.0.streams.items; links = r.0.links }) r.0.tables.items (map (λ v. v.items) r.0.words.items) r.1) }
    ensures cause { IfErr result (λ e. (bits : ℕ) → IsSetRefusal (set_break bits (contents files.entry.now)) e) }
{
    let read = read_files(alloc, files)?;
    let layout = lay_out(alloc, &read.images)?;
    Ok((read, layout))
}

/// What the cache of the files is filled with, and where. What was read of them is let go: the words of a
/// set may take more memory than its cache.
fn make_parts<'a>(
    alloc: Global,
    files: &'a [Vec<u8>],
    bits: u32,
) -> Result<(Layout, Parts<'a>, Frame), SetFault>
    requires few { length files.now ≤ 4096 }
    requires bytes { All (λ f. All (λ b. b < 256) f) (contents files.now) }
    requires bits { (1 ≤ bits) × (bits ≤ 16) }
    ensures parts { IfOk result (λ r. ArePartsOf (built bits (contents files.entry.now)) r.0 r.2 r.1) }
    ensures cause { RefusesSet (set_break bits (contents files.entry.now)) result }
{
    let (read, layout) = read_set(alloc, files)?;
    let set = Set {
        images: &read.images,
        streams: &read.streams,
        links: &read.links,
    };
    let (parts, frame) = gather(alloc, &set, &read.tables, &read.words, &layout, bits)?;
    Ok((layout, parts, frame))
}

/// The cache of the files.
///
/// Refuses the first rule that they break: those of `read_files` come first, of shapes `NotMachO` to
/// `LinkeditRange`; then `SpanTooLarge` of the layout; `DeltaOutOfRange` to `BoundOutOfRange` of numbers whose
/// targets move; `TooManyExtras` of the words that slide; and `LinkeditTooLarge`. `Memory` says that memory
/// ran out.
pub fn build<R: Threads + Sync, G: Gate + Sync>(
    rt: &R,
    alloc: Global,
    files: &[Vec<u8>],
    options: &Options,
    gate: &G,
) -> Result<Vec<u8>, SetFault>
    requires few { (1 ≤ length files.now) × (length files.now ≤ 4096) }
    requires jobs { (1 ≤ options.now.jobs) × (options.now.jobs ≤ 64) }
    requires bits { (1 ≤ options.now.delta_bits) × (options.now.delta_bits ≤ 16) }
    ensures cache { IfOk result (λ c. c.items ≡ built options.now.delta_bits (contents files.now)) }
    ensures unbroken { OnOk result (set_break options.now.delta_bits (contents files.now) ≡ None) }
    ensures corresponds { set_break options.now.delta_bits (contents files.now) ≡ None → CorrespondsAlways (contents files.now) (built options.now.delta_bits (contents files.now)) }
    ensures span { set_break options.now.delta_bits (contents files.now) ≡ None → span (built options.now.delta_bits (contents files.now)) ≡ length (built options.now.delta_bits (contents files.now)) }
    ensures sound { set_break options.now.delta_bits (contents files.now) ≡ None → IsSoundCache (built options.now.delta_bits (contents files.now)) }
    ensures images { set_break options.now.delta_bits (contents files.now) ≡ None → images_finding (view_of (built options.now.delta_bits (contents files.now))) ≡ None }
    ensures cause { IfErr result (IsSetRefusal (set_break options.now.delta_bits (contents files.now))) }
{
    files_are_bytes(files);
    let (layout, parts, frame) = make_parts(alloc, files, options.delta_bits)?;
    let cache = filled_cache(rt, alloc, &layout, &frame, &parts, options.jobs, gate)?;
    Ok(cache)
}
