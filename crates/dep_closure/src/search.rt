// The order in which an image and those that it re-exports are searched.
ghost use Rattle.std.specs.Prelude.{◌≡◌, ◌≤◌, ◌<◌, ◌+◌, ◌++◌, [], reverse, length, map, All, IfOk, OnOk};
ghost use Rattle.std.specs.List.{range_with_len};
ghost use Rattle.dep_closure.specs.SearchOrder.{visit};

use dsc_base::NoMemory;
use std::alloc::Global;

/// Puts images before all that are pending, of which the next one is the last.
fn put_first(pending: &mut Vec<u32>, images: &[u32]) -> Result<(), NoMemory>
    ensures { OnOk result (pending.new.items ≡ pending.old.items ++ reverse images.now) }
{
    pending.extend(images.iter().rev().copied())?;
    Ok(())
}

/// The search order of an image. An image has been visited in this search if its stamp is the image's
/// number and one, so that no search clears the marks of another. The images to be visited wait in a
/// list, the next one last, and not on the stack, where a chain of 4,097 re-exports would go as deep.
fn search_from(
    alloc: Global,
    links: &[Vec<u32>],
    image: u32,
    stamps: &mut [u32],
    pending: &mut Vec<u32>,
) -> Result<Vec<u32>, NoMemory>
    requires few { length links.now ≤ 4097 }
    requires image { image < length links.now }
    requires inside { All (λ v. All (λ k. k < length links.now) v.items) links.now }
    requires stamps { length stamps.old ≡ length links.now }
    requires fresh { All (λ s. s ≤ image) stamps.old }
    requires none { pending.old.items ≡ [] }
    ensures order { IfOk result (λ v. v.items ≡ visit (length links.now) (map (λ v. v.items) links.now) [] image) }
    ensures stamps { All (λ s. s ≤ image + 1) stamps.new }
    ensures none { OnOk result (pending.new.items ≡ []) }
{
    let stamp = image + 1;
    let mut order = Vec::new(alloc);
    pending.push(image)?;
    while let Some(next) = pending.pop() {
        if stamps[next as usize] == stamp {
            continue;
        }
        stamps[next as usize] = stamp;
        order.push(next)?;
        put_first(pending, &links[next as usize])?;
    }
    Ok(order)
}

/// The search order of each image, where `links` has what each of them re-exports. An image that
/// re-exports nothing takes one step and four bytes. At worst, in a set that re-exports all of itself
/// everywhere, it is a step for each pair of an image and a re-export of the set, and four bytes for each
/// pair of images.
pub(crate) fn search_orders(alloc: Global, links: &[Vec<u32>]) -> Result<Vec<Vec<u32>>, NoMemory>
    requires few { length links.now ≤ 4097 }
    requires inside { All (λ v. All (λ k. k < length links.now) v.items) links.now }
    ensures { IfOk result (λ v. map (λ o. o.items) v.items ≡ map (visit (length links.now) (map (λ l. l.items) links.now) []) (range_with_len 0 (length links.now))) }
{
    let mut stamps = vec![in alloc; 0u32; links.len()]?;
    let marks = stamps.as_mut_slice();
    let mut pending = Vec::new(alloc);
    let mut orders = Vec::with_capacity(alloc, links.len())?;
    for image in 0..links.len() {
        let order = search_from(alloc, links, image as u32, marks, &mut pending)?;
        orders.push(order)?;
    }
    Ok(orders)
}
