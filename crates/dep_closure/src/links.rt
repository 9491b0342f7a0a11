// The links of a set of images.
ghost use Rattle.std.specs.Prelude.{◌≡◌, ◌≤◌, ◌<◌, [], length, map, slice_index_or, IfOk};
ghost use Rattle.dep_closure.specs.Dependencies.{dependencies_of};
ghost use Rattle.dep_closure.specs.SearchOrder.{reexports};
ghost use Rattle.dep_closure.specs.Linked.{links_of, dependency_at, AreLinks};
ghost use Rattle.dep_closure.specs.Breaks.{link_break};
ghost use Rattle.dsc_base.specs.Refusals.{in_set, RefusesSet};

use crate::Dep;
use crate::dependencies::{image_dependencies, image_reexports};
use crate::names::{Names, name_images};
use crate::search::search_orders;
use dsc_base::{Break, Fault, NoMemory, SetFault};
use macho_image::Image;
use std::alloc::Global;
use std::marker::Model;

/// The links of a set of images: what each library ordinal of an image names, and in which order the
/// images are searched that one of them re-exports.
#[derive(Drop)]
pub struct Links {
    dependencies: Vec<Vec<Dep>>,
    orders: Vec<Vec<u32>>,
}

impl Model for Links {
    ghost use Rattle.std.specs.Prelude.{map};
    ghost use Rattle.dep_closure.specs.Linked.{Linked};

    ghost Value = { Linked };

    ghost view = { λ l. record { dependencies = map (λ v. v.items) l.dependencies.items; orders = map (λ v. v.items) l.orders.items } };
}

impl Links {
    /// What a library ordinal of an image names: 0 is the image itself, 1 is its first dependency.
    /// `Missing` is a weak dependency whose name no image has, and `BadOrdinal` comes where the image has
    /// fewer dependencies.
    pub fn dependency(&self, image: u32, ordinal: u64) -> Dep
        requires { image < length self.now.dependencies }
        ensures { result ≡ dependency_at self.now image ordinal }
    {
        if ordinal == 0 {
            return Dep::Image(image);
        }
        let dependencies = self.dependencies[image as usize].as_slice();
        dependencies
            .get((ordinal - 1) as usize)
            .copied()
            .unwrap_or(Dep::BadOrdinal)
    }

    /// The images in which a symbol of an image is searched, one after another: the image itself, and
    /// for each of its re-exports in command order what that one's search finds first. No image is there
    /// twice.
    pub fn search_order(&self, image: u32) -> &[u32]
        requires { image < length self.now.orders }
        ensures { result.now ≡ slice_index_or self.now.orders image [] }
    {
        self.orders[image as usize].as_slice()
    }
}

/// What the dependencies of each image name, or the first rule that one of the images breaks.
fn all_dependencies(
    alloc: Global,
    names: &Names<'_, '_>,
    images: &[Image<'_>],
) -> Result<Vec<Vec<Dep>>, SetFault>
    requires few { length images.now ≤ 4097 }
    requires same { names.now ≡ images.now }
    ensures found { IfOk result (λ v. map (λ d. d.items) v.items ≡ map (dependencies_of images.now) images.now) }
    ensures cause { RefusesSet (link_break images.now) result }
{
    let mut found = Vec::with_capacity(alloc, images.len())?;
    for (number, image) in images.iter().enumerate() {
        match image_dependencies(alloc, names, number as u32, image) {
            Ok(dependencies) => found.push(dependencies)?,
            Err(fault) => return Err(fault.in_image(number as u32)),
        }
    }
    Ok(found)
}

/// What each image re-exports.
fn all_reexports(
    alloc: Global,
    names: &Names<'_, '_>,
    images: &[Image<'_>],
) -> Result<Vec<Vec<u32>>, NoMemory>
    requires { names.now ≡ images.now }
    ensures { IfOk result (λ v. map (λ r. r.items) v.items ≡ reexports images.now) }
{
    let mut found = Vec::with_capacity(alloc, images.len())?;
    for image in images {
        let reexports = image_reexports(alloc, names, image)?;
        found.push(reexports)?;
    }
    Ok(found)
}

/// The links of a set of images, of which there are at most those of a cache and one program.
///
/// Refuses the first rule that the set breaks, image by image, and within one in this order:
/// `DuplicateName`, where an earlier image has its install name, with the number of the first such one;
/// `RelativeDependency`, where the name of a dependency doesn't begin with `/`, with its ordinal; and
/// `MissingDependency`, where a dependency that isn't weak names no image, with its ordinal. `Memory` says
/// that memory ran out.
pub fn link_set(alloc: Global, images: &[Image<'_>]) -> Result<Links, SetFault>
    requires { length images.now ≤ 4097 }
    ensures links { IfOk result (λ l. l ≡ links_of images.now) }
    ensures sound { IfOk result (AreLinks (length images.now)) }
    ensures cause { RefusesSet (link_break images.now) result }
{
    let names = name_images(alloc, images)?;
    let dependencies = all_dependencies(alloc, &names, images)?;
    let reexports = all_reexports(alloc, &names, images)?;
    let orders = search_orders(alloc, &reexports)?;
    Ok(Links {
        dependencies,
        orders,
    })
}
