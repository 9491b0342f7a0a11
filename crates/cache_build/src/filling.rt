// A cache filled with its parts.
ghost use Rattle.std.specs.Prelude.{◌≡◌, ◌≤◌, ◌+◌, ◌++◌, replicate, length, IfOk};
ghost use Rattle.dsc_base.specs.Region.{padded};
ghost use Rattle.cache_build.specs.Filling.{segments_of, CanFill, filled, HasRooms};

use crate::frame::Frame;
use cache_layout::Layout;
use dsc_base::{Gate, NoMemory};
use ref_rewrite::{ImagePlan, rewrite_all};
use slide_chain::{SlideInfo, write_chains};
use std::alloc::Global;
use std::thread::Threads;

/// What a cache is filled with: its head, the plan of each image with its header, the places of the words
/// in the data that are linked, slide information, and the merged linkedit.
#[derive(Drop)]
pub struct Parts<'a> {
    pub head: Vec<u8>,
    pub plans: Vec<ImagePlan<'a>>,
    pub words: Vec<u64>,
    pub info: SlideInfo,
    pub slide_info: Vec<u8>,
    pub linkedit: Vec<u8>,
}

/// Puts bytes at the front of zeros.
fn put_front(area: &mut [u8], bytes: &[u8])
    requires zeros { area.old ≡ replicate (length area.old) 0 }
    requires room { length bytes.now ≤ length area.old }
    ensures { area.new ≡ padded (length area.old) bytes.now }
{
    area[..bytes.len()].copy_from_slice(bytes);
}

/// Fills the segments of all mappings, which are zeros.
fn fill_segments<R: Threads + Sync, G: Gate + Sync>(
    rt: &R,
    area: &mut [u8],
    layout: &Layout,
    plans: &[ImagePlan<'_>],
    words: &[u64],
    info: &SlideInfo,
    jobs: u32,
    gate: &G,
)
    requires jobs { (1 ≤ jobs) × (jobs ≤ 64) }
    requires zeros { area.old ≡ replicate (length area.old) 0 }
    requires size { length area.old ≡ layout.now.text.len + (layout.now.writable.len + layout.now.fixed.len) }
    requires fills { CanFill layout.now plans.now info.now words.now }
    ensures { area.new ≡ segments_of plans.now info.now words.now }
{
    let text_len = layout.text().len as usize;
    let writable_len = layout.writable().len as usize;
    let (text, behind) = area.split_at_mut(text_len);
    let (writable, fixed) = behind.split_at_mut(writable_len);
    rewrite_all(rt, text, writable, fixed, plans, jobs, gate);
    write_chains(rt, writable, words, info, jobs);
}

/// Fills a cache, which is zeros.
fn fill<R: Threads + Sync, G: Gate + Sync>(
    rt: &R,
    cache: &mut [u8],
    layout: &Layout,
    frame: &Frame,
    parts: &Parts<'_>,
    jobs: u32,
    gate: &G,
)
    requires jobs { (1 ≤ jobs) × (jobs ≤ 64) }
    requires zeros { cache.old ≡ replicate (length cache.old) 0 }
    requires size { length cache.old ≡ frame.now.span }
    requires rooms { HasRooms layout.now frame.now parts.now.head.items parts.now.slide_info.items parts.now.linkedit.items }
    requires fills { CanFill layout.now parts.now.plans.items parts.now.info parts.now.words.items }
    ensures { cache.new ≡ filled layout.now frame.now parts.now.head.items (segments_of parts.now.plans.items parts.now.info parts.now.words.items) parts.now.slide_info.items parts.now.linkedit.items }
{
    let start = layout.text().at as usize;
    let (front, behind) = cache.split_at_mut(start);
    put_front(front, &parts.head);
    let (segments, tail) = behind.split_at_mut(frame.slide_at as usize - start);
    fill_segments(
        rt,
        segments,
        layout,
        &parts.plans,
        &parts.words,
        &parts.info,
        jobs,
        gate,
    );
    let (middle, last) = tail.split_at_mut((frame.linkedit_at - frame.slide_at) as usize);
    put_front(middle, &parts.slide_info);
    put_front(last, &parts.linkedit);
}

/// The cache of these parts. Its bytes are allocated once.
pub fn filled_cache<R: Threads + Sync, G: Gate + Sync>(
    rt: &R,
    alloc: Global,
    layout: &Layout,
    frame: &Frame,
    parts: &Parts<'_>,
    jobs: u32,
    gate: &G,
) -> Result<Vec<u8>, NoMemory>
    requires jobs { (1 ≤ jobs) × (jobs ≤ 64) }
    requires rooms { HasRooms layout.now frame.now parts.now.head.items parts.now.slide_info.items parts.now.linkedit.items }
    requires fills { CanFill layout.now parts.now.plans.items parts.now.info parts.now.words.items }
    ensures { IfOk result (λ c. c.items ≡ filled layout.now frame.now parts.now.head.items (segments_of parts.now.plans.items parts.now.info parts.now.words.items) parts.now.slide_info.items parts.now.linkedit.items) }
{
    let mut cache = vec![in alloc; 0u8; frame.span as usize]?;
    fill(rt, &mut cache, layout, frame, parts, jobs, gate);
    Ok(cache)
}
