// A rebase stream written for locations.
ghost use Rattle.std.specs.Prelude.{◌≡◌, ◌<◌, ◌≤◌, ◌+◌, ◌++◌, ◌∷◌, ◌^◌, length, drop, None, IfOk, OnOk};
ghost use Rattle.dsc_base.specs.Limits.{record_limit};
ghost use Rattle.macho_image.specs.Places.{IsWord};
ghost use Rattle.rebase_ops.specs.Rebases.{rebases_of, rebase_break};
ghost use Rattle.rebase_ops.specs.Writing as spec;

use dsc_base::{NoMemory, put_uleb};
use macho_image::{Image, Location};
use std::alloc::Global;

/// `SET_TYPE_IMM` with the type of pointers, and `DONE`.
const SET_POINTER_TYPE: u8 = 0x11;

const DONE: u8 = 0;

/// Opcodes without their immediates.
const SET_SEGMENT_AND_OFFSET_ULEB: u8 = 0x20;

const DO_REBASE_IMM_TIMES: u8 = 0x50;

const DO_REBASE_ULEB_TIMES: u8 = 0x60;

/// The greatest number that an immediate has room for.
const MOST_IMMEDIATE: usize = 15;

/// The size of a pointer.
const POINTER: u64 = 8;

/// The rebase stream that records these locations: for each run of pointers that lie side by side in one
/// segment its place and how many they are. The opcodes are those of `mach-o/loader.h`.
///
/// The locations are such as `read_rebases` gives, in segments 0 to 15, for which the opcode has room.
/// `read_rebases` gives them back where there are at most 1,048,576 of them. `NoMemory` where there is none
/// for the stream.
pub fn write_rebases(
    alloc: Global,
    image: &Image<'_>,
    locations: &[Location],
) -> Result<Vec<u8>, NoMemory>
    requires { spec.CanBeWritten image.now locations.now }
    ensures bytes { IfOk result (λ v. v.items ≡ spec.rebase_bytes image.now locations.now) }
    ensures words { IfOk result (λ v. rebases_of v.items image.now ≡ locations.now) }
    ensures sound { length locations.now ≤ record_limit → IfOk result (λ v. rebase_break v.items image.now ≡ None) }
{
    image.facts();
    let mut out = Vec::new(alloc);
    out.push(SET_POINTER_TYPE)?;
    let mut at = 0;
    while at < locations.len() {
        let first = locations[at];
        let count = 1 + followers(first, &locations[at + 1..]);
        put_run(image, first, count, &mut out)?;
        at += count;
    }
    out.push(DONE)?;
    Ok(out)
}

/// How many of the locations behind the first one go on with its run.
fn followers(first: Location, rest: &[Location]) -> usize
    ensures within { result ≤ length rest.now }
    ensures run { spec.runs_of (first ∷ rest.now) ≡ spec.run_from first (1 + result) ∷ spec.runs_of (drop result rest.now) }
{
    let mut last = first;
    for (i, location) in rest.iter().enumerate() {
        if !is_next(last, *location) {
            return i;
        }
        last = *location;
    }
    rest.len()
}

/// Whether a location lies right behind another one, in its segment.
fn is_next(last: Location, location: Location) -> bool
    ensures { result ≡ spec.is_next last location.segment location.address }
{
    location.segment == last.segment && last.address.checked_add(POINTER) == Some(location.address)
}

/// Appends the run of so many locations that begins with this one.
fn put_run(
    image: &Image<'_>,
    first: Location,
    count: usize,
    out: &mut Vec<u8>,
) -> Result<(), NoMemory>
    requires word { IsWord image.now first }
    requires low { first.segment < 16 }
    ensures { OnOk result (out.new.items ≡ out.old.items ++ spec.run_bytes image.now (spec.run_from first count)) }
{
    out.push(SET_SEGMENT_AND_OFFSET_ULEB + first.segment as u8)?;
    put_uleb(out, offset_in(image, first))?;
    put_times(count, out)
}

/// How far a location lies above the start of its segment.
#[tactic(auto, unfolding(crate::specs::Writing::offset_in))]
fn offset_in(image: &Image<'_>, location: Location) -> u64
    requires { IsWord image.now location }
    ensures { result ≡ spec.offset_in image.now location.segment location.address }
{
    let segment = &image.segments[location.segment as usize];
    location.address - segment.vmaddr
}

/// Appends the opcode that records so many pointers, each 8 bytes behind the one before it.
fn put_times(count: usize, out: &mut Vec<u8>) -> Result<(), NoMemory>
    ensures { OnOk result (out.new.items ≡ out.old.items ++ spec.times_bytes count) }
{
    if count <= MOST_IMMEDIATE {
        out.push(DO_REBASE_IMM_TIMES + count as u8)?;
    } else {
        out.push(DO_REBASE_ULEB_TIMES)?;
        put_uleb(out, count as u64)?;
    }
    Ok(())
}
