// The plans of all images: the words that they chain, and their headers.
ghost use Rattle.std.specs.Prelude.{◌≡◌, ◌≤◌, ◌<◌, [], length, slice_index_or, OnOk, IfOk};
ghost use Rattle.std.specs.List.{flat_map};
ghost use Rattle.ref_rewrite.specs.Planned.{AreSized, with_headers};
ghost use Rattle.macho_edit.specs.Conditions.{CanMove};
ghost use Rattle.cache_build.specs.Cache.{no_spots, header_of, headers_of};
ghost use Rattle.cache_build.specs.Filling.{CanMoveEach};

use cache_layout::Layout;
use dsc_base::NoMemory;
use macho_edit::{LinkSpots, cached_header};
use macho_image::Image;
use ref_rewrite::ImagePlan;
use std::alloc::Global;

/// How many words the plans chain.
fn word_count(plans: &[ImagePlan<'_>]) -> usize {
    let mut count: usize = 0;
    for plan in plans {
        count = count.saturating_add(plan.words.len());
    }
    count
}

/// The places in the data of the words that the plans chain.
pub fn all_words(alloc: Global, plans: &[ImagePlan<'_>]) -> Result<Vec<u64>, NoMemory>
    ensures { IfOk result (λ v. v.items ≡ flat_map (λ p. p.words) plans.now) }
{
    let mut words = Vec::with_capacity(alloc, word_count(plans))?;
    for plan in plans {
        words.extend_from_slice(&plan.words)?;
    }
    Ok(words)
}

/// The header of image `number` in the cache.
fn own_header(
    alloc: Global,
    image: &Image<'_>,
    layout: &Layout,
    number: u32,
    spots: &[LinkSpots],
) -> Result<Vec<u8>, NoMemory>
    requires moves { number < length layout.now.moves }
    requires places { number < length spots.now }
    requires can { CanMove image.now (slice_index_or layout.now.moves number []) (slice_index_or spots.now number no_spots) }
    ensures header { IfOk result (λ h. h.items ≡ header_of layout.now spots.now number image.now) }
    ensures size { IfOk result (λ h. length h.items ≡ length image.now.header) }
{
    cached_header(alloc, image, layout.moves(number), &spots[number as usize])
}

#[tactic(auto, using(crate::proofs::PlanHeaders::sized_none, crate::proofs::PlanHeaders::all_sized))]
/// Puts into each plan the header that its image has in the cache.
pub fn put_headers(
    alloc: Global,
    plans: &mut [ImagePlan<'_>],
    images: &[Image<'_>],
    layout: &Layout,
    spots: &[LinkSpots],
) -> Result<(), NoMemory>
    requires few { length images.now ≤ 4096 }
    requires one_each { length plans.old ≡ length images.now }
    requires moves { length layout.now.moves ≡ length images.now }
    requires places { length spots.now ≡ length images.now }
    requires can { CanMoveEach layout.now spots.now images.now }
    ensures headers { OnOk result (plans.new ≡ with_headers (headers_of layout.now spots.now images.now) plans.old) }
    ensures sized { OnOk result (AreSized (headers_of layout.now spots.now images.now) images.now) }
{
    for (number, image) in images.iter().enumerate() {
        let header = own_header(alloc, image, layout, number as u32, spots)?;
        let plan = &mut plans[number];
        plan.header = header;
    }
    Ok(())
}
