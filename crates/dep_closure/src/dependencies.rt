// What the dependencies of an image name, and what it re-exports.
ghost use Rattle.std.specs.Prelude.{◌≡◌, ◌≤◌, not, length, IfOk, map, position, IfSome, IfNone, OnOk};
ghost use Rattle.std.specs.List.{filter_map};
ghost use Rattle.dsc_base.specs.Refusals.{Refuses};
ghost use Rattle.dep_closure.specs.Dependencies.{named_by, dependencies_of};
ghost use Rattle.dep_closure.specs.SearchOrder.{is_reexport, reexport_by, reexports_of};
ghost use Rattle.dep_closure.specs.Breaks.{is_weak, is_absolute, dependency_break, image_break};

use crate::Dep;
use crate::names::Names;
use dsc_base::{Fault, NoMemory, Rule, Site};
use macho_image::{Dependency, Image, LinkKind};
use std::alloc::Global;

fn is_weak(kind: LinkKind) -> bool
    ensures { result ≡ is_weak kind }
{
    matches!(kind, LinkKind::Weak)
}

fn is_reexport(kind: LinkKind) -> bool
    ensures { result ≡ is_reexport kind }
{
    matches!(kind, LinkKind::Reexport)
}

fn is_absolute(name: &[u8]) -> bool
    ensures { result ≡ is_absolute name.now }
{
    matches!(name, [b'/', ..])
}

fn refused(rule: Rule, at: u64) -> Fault
    ensures { result ≡ Fault.Broken (record { rule = rule; at = at }) }
{
    Fault::Broken(Site { rule, at })
}

/// The first dependency whose name is no absolute path.
fn first_relative(dependencies: &[Dependency<'_>]) -> Option<usize>
    ensures { result ≡ position (λ d. not (is_absolute d.name)) dependencies.now }
{
    dependencies.iter().position(|d| !is_absolute(d.name))
}

/// What each dependency names, or the first of rules 122 and 123 that one of them breaks.
fn resolve(
    alloc: Global,
    names: &Names<'_, '_>,
    dependencies: &[Dependency<'_>],
) -> Result<Vec<Dep>, Fault>
    ensures found { IfOk result (λ v. v.items ≡ map (named_by names.now) dependencies.now) }
    ensures cause { Refuses (dependency_break names.now dependencies.now) result }
{
    if let Some(index) = first_relative(dependencies) {
        return Err(refused(Rule::RelativeDependency, index as u64 + 1));
    }
    let mut found = Vec::with_capacity(alloc, dependencies.len())?;
    for (index, dependency) in dependencies.iter().enumerate() {
        match names.find(dependency.name) {
            Some(image) => found.push(Dep::Image(image))?,
            None if is_weak(dependency.kind) => found.push(Dep::Missing)?,
            None => return Err(refused(Rule::MissingDependency, index as u64 + 1)),
        }
    }
    Ok(found)
}

/// What the dependencies of image number `number` name, or the first of rules 121 to 123 that it breaks.
pub(crate) fn image_dependencies(
    alloc: Global,
    names: &Names<'_, '_>,
    number: u32,
    image: &Image<'_>,
) -> Result<Vec<Dep>, Fault>
    ensures found { IfOk result (λ v. v.items ≡ dependencies_of names.now image.now) }
    ensures cause { Refuses (image_break names.now number image.now) result }
{
    if let Some(earlier) = names.find_before(image.install_name, number) {
        return Err(refused(Rule::DuplicateName, u64::from(earlier)));
    }
    let found = resolve(alloc, names, &image.dependencies)?;
    Ok(found)
}

fn reexported(names: &Names<'_, '_>, dependency: &Dependency<'_>) -> Option<u32>
    ensures { result ≡ reexport_by names.now dependency.now }
{
    if is_reexport(dependency.kind) {
        names.find(dependency.name)
    } else {
        None
    }
}

/// The images that an image re-exports, in command order.
pub(crate) fn image_reexports(
    alloc: Global,
    names: &Names<'_, '_>,
    image: &Image<'_>,
) -> Result<Vec<u32>, NoMemory>
    ensures { IfOk result (λ v. v.items ≡ reexports_of names.now image.now) }
{
    let found = image
        .dependencies
        .iter()
        .filter_map(|d| reexported(names, d))
        .collect(alloc)?;
    Ok(found)
}
