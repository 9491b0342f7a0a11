// Which segment contains an address, by halving.
ghost use Rattle.std.specs.Prelude.{◌≡◌, ◌<◌, ◌+◌, ◌^◌, length, IfOk};
ghost use Rattle.std.specs.List.{AllPairs};
ghost use Rattle.macho_image.specs.Index as spec;

use crate::bytes::are_bytes;
use crate::{Image, Segment};
use dsc_base::NoMemory;
use std::alloc::Global;
use std::marker::Model;

/// The segment that contains an address, by its number, and how far the address lies above that segment's
/// start.
#[derive(Clone, Copy, Debug, PartialEq, Eq)]
pub struct Inside {
    pub segment: u32,
    pub distance: u64,
}

/// A segment that has addresses.
#[derive(Clone, Copy)]
struct Entry {
    segment: u32,
    start: u64,
    size: u64,
}

/// The segments of an image, in the order of their addresses.
#[derive(Drop)]
pub struct SegmentIndex {
    entries: Vec<Entry>,
}

impl Model for SegmentIndex {
    ghost use Rattle.std.specs.Prelude.{List};
    ghost use Rattle.std.specs.List.{AllPairs};
    ghost use Rattle.macho_image.specs.declared.places.segment_index.Entry.{Entry};
    ghost use Rattle.macho_image.specs.Index.{IsBefore};

    ghost Value = { List Entry };

    ghost view = { λ i. i.entries.items };

    ghost invariant = { λ i. AllPairs IsBefore i.entries.items };
}

/// The segments that have addresses, in command order.
fn entries(alloc: Global, segments: &[Segment<'_>]) -> Result<Vec<Entry>, NoMemory>
    requires { length segments.now < 2 ^ 32 }
    ensures { IfOk result (λ v. v.items ≡ spec.entries_from 0 segments.now) }
{
    let mut entries = Vec::with_capacity(alloc, segments.len())?;
    for (number, segment) in segments.iter().enumerate() {
        if segment.vmsize > 0 {
            entries.push(Entry {
                segment: number as u32,
                start: segment.vmaddr,
                size: segment.vmsize,
            })?;
        }
    }
    Ok(entries)
}

fn ends_by(entry: &Entry, address: u64) -> bool
    ensures { result ≡ spec.ends_by address entry.now }
{
    entry.start <= address && entry.size <= address - entry.start
}

fn find_in(entries: &[Entry], address: u64) -> Option<Inside>
    requires { AllPairs spec.IsBefore entries.now }
    ensures { result ≡ spec.found_in entries.now address }
{
    let index = entries.partition_point(
        |e: &Entry| -> bool
            ensures { result ≡ spec.ends_by address e.now }
        { ends_by(e, address) },
    );
    let entry = entries.get(index)?;
    if entry.start <= address {
        Some(Inside {
            segment: entry.segment,
            distance: address - entry.start,
        })
    } else {
        None
    }
}

impl SegmentIndex {
    /// The index of all segments of an image that have addresses, `__LINKEDIT` too: `find` gives the one
    /// segment that contains an address. `NoMemory` comes where memory runs out.
    pub fn new(alloc: Global, image: &Image<'_>) -> Result<SegmentIndex, NoMemory>
        ensures { IfOk result (spec.Indexes image.now.segments) }
    {
        image.facts();
        are_bytes(image.header);
        SegmentIndex::over(alloc, &image.segments)
    }

    /// The index of segments that share no address, fewer than 2^32 of them. `NoMemory` comes where memory
    /// runs out.
    pub fn over(alloc: Global, segments: &[Segment<'_>]) -> Result<SegmentIndex, NoMemory>
        requires apart { spec.AreApart segments.now }
        requires few { length segments.now < 2 ^ 32 }
        ensures { IfOk result (spec.Indexes segments.now) }
    {
        let mut entries = entries(alloc, segments)?;
        entries.sort_by_key(|e| e.start)?;
        Ok(SegmentIndex { entries })
    }

    /// The segment that contains an address, or `None` where there is none. It takes no memory, and as
    /// many steps as the number of segments can be halved.
    pub fn find(&self, address: u64) -> Option<Inside>
        ensures { result ≡ spec.found_in self.now address }
    {
        find_in(&self.entries, address)
    }
}
