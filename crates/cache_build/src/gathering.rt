// What the cache of a set is filled with.
ghost use Rattle.std.specs.Prelude.{◌≤◌, map, IfOk};
ghost use Rattle.dsc_base.specs.Refusals.{RefusesSet};
ghost use Rattle.prebind.specs.Steps.{set_of};
ghost use Rattle.cache_build.specs.Breaks.{behind_layout};
ghost use Rattle.cache_build.specs.Cache.{cache_from};
ghost use Rattle.cache_build.specs.Filling.{ArePartsOf, IsPrepared, CanBuild};

use crate::filling::Parts;
use crate::frame::Frame;
use crate::head::cache_head;
use crate::planned::{all_words, put_headers};
use crate::slides::slide_info_of;
use cache_layout::Layout;
use dsc_base::SetFault;
use linkedit_merge::merge;
use nlist_table::Tables;
use prebind::{PlacedWord, Set};
use ref_rewrite::plan;
use std::alloc::Global;

/// What the cache of a set is filled with, and where slide information and linkedit stand in it. Refuses what
/// the set breaks behind its layout.
pub fn gather<'a>(
    alloc: Global,
    set: &Set<'_, 'a>,
    tables: &[Tables<'_>],
    placed: &[Vec<PlacedWord>],
    layout: &Layout,
    bits: u32,
) -> Result<(Parts<'a>, Frame), SetFault>
    requires some { 1 ≤ bits }
    requires most { bits ≤ 16 }
    requires prepared { IsPrepared (set_of set.now) tables.now (map (λ v. v.items) placed.now) layout.now }
    requires can { CanBuild bits layout.now (set_of set.now) }
    ensures parts { IfOk result (λ r. ArePartsOf (cache_from bits layout.now (set_of set.now)) layout.now r.1 r.0) }
    ensures cause { RefusesSet (behind_layout bits layout.now (set_of set.now)) result }
{
    let mut plans = plan(alloc, set, layout, placed)?;
    let words = all_words(alloc, &plans)?;
    let (info, slide_info) = slide_info_of(alloc, layout.writable().len, &words, bits)?;
    let slide_size = slide_info.len() as u64;
    let (linkedit, spots) = merge(alloc, set, tables, layout, slide_size)?;
    let frame = Frame::of_sizes(layout, slide_size, linkedit.len() as u64);
    put_headers(alloc, &mut plans, set.images, layout, &spots)?;
    let head = cache_head(alloc, set.images, layout, &frame)?;
    let parts = Parts {
        head,
        plans,
        words,
        info,
        slide_info,
        linkedit,
    };
    Ok((parts, frame))
}
