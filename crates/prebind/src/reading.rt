// The streams of an image read.
ghost use Rattle.std.specs.Prelude.{◌≡◌, ◌<◌, ◌^◌, ◌++◌, ◌∷◌, [], None, All, length, map, option_copied, IfOk, OnOk};
ghost use Rattle.std.specs.List.Sorted.{IsNonDecreasingBy};
ghost use Rattle.dsc_base.specs.Refusals.{first_break, in_each, Refuses, RefusesSet};
ghost use Rattle.macho_image.specs.Order.{addresses_of};
ghost use Rattle.bind_ops.specs.Binds.{binds_of, bind_break, places_of};
ghost use Rattle.bind_ops.specs.declared.kind.StreamKind.TheVariants as kinds;
ghost use Rattle.bind_ops.specs.Weak.{weak_break};
ghost use Rattle.bind_ops.specs.Clash.{clash_break};
ghost use Rattle.rebase_ops.specs.Rebases.{rebases_of, rebase_break};
ghost use Rattle.split_info.specs.Split.{references_of, split_break};
ghost use Rattle.export_trie.specs.Exports.{exports_of};
ghost use Rattle.export_trie.specs.Order.{trie_break};
ghost use Rattle.prebind.specs.Sets as spec;

use crate::ImageStreams;
use bind_ops::{Bind, StreamKind, check_weak, read_binds, words_clash};
use dsc_base::{Fault, NoMemory, SetFault};
use export_trie::{Export, read_trie};
use macho_image::{Image, Location};
use rebase_ops::read_rebases;
use split_info::read_split;
use std::alloc::Global;

fn check_weak_binds(stream: &[u8]) -> Result<(), Fault>
    ensures { Refuses (weak_break stream.now) result }
{
    match check_weak(stream) {
        Ok(()) => Ok(()),
        Err(site) => Err(Fault::Broken(site)),
    }
}

/// Where binds stand.
fn places(alloc: Global, binds: &[Bind<'_>]) -> Result<Vec<Location>, NoMemory>
    ensures { IfOk result (λ v. v.items ≡ places_of binds.now) }
{
    let mut places = Vec::with_capacity(alloc, binds.len())?;
    for bind in binds {
        places.push(bind.at)?;
    }
    Ok(places)
}

/// The binds of both streams, those of the lazy one last.
fn both<'a>(mut bind: Vec<Bind<'a>>, mut lazy: Vec<Bind<'a>>) -> Result<Vec<Bind<'a>>, NoMemory>
    ensures { IfOk result (λ v. v.items ≡ bind.entry.items ++ lazy.entry.items) }
{
    bind.append(&mut lazy)?;
    Ok(bind)
}

/// What the streams of an image spell: its rebases, the binds of both streams, the references of its
/// split-segment information, and its export trie; and all that the trie exports, in bytewise order of
/// names. The formats are those of `mach-o/loader.h`, and of the split-segment information of Apple's
/// published linker.
///
/// Refuses the first rule that a stream breaks, in this order: of the rebase stream `RebaseBadUleb` to
/// `RebasedTwice`; of the bind stream `BindBadUleb` to `BindBadName`; of the lazy stream the same with
/// `Lazy`; `WeakBinding`; `WordsOverlap`; of the export trie `TrieBadUleb` to `TrieTooManyNames`; and of
/// the split-segment information `NoSplitInfo` to `SplitOverlap`; each at the place that the rule tells.
/// `Memory` says that memory ran out.
#[tactic(auto, unfolding(crate::specs::Sets::lists_of, crate::specs::Sets::streams_break))]
pub fn read_streams<'a>(
    alloc: Global,
    image: &Image<'a>,
) -> Result<(ImageStreams<'a>, Vec<Export>), Fault>
    ensures lists { IfOk result (λ r. r.0 ≡ spec.lists_of image.now) }
    ensures exports { IfOk result (λ r. r.1.items ≡ exports_of image.now.streams.exports) }
    ensures cause { Refuses (spec.streams_break image.now) result }
{
    let rebases = read_rebases(alloc, image.streams.rebase, image)?;
    let bind = read_binds(alloc, image.streams.bind, StreamKind::Bind, image)?;
    let lazy = read_binds(alloc, image.streams.lazy, StreamKind::Lazy, image)?;
    check_weak_binds(image.streams.weak)?;
    words_clash(alloc, &rebases, &bind, &lazy)?;
    let exports = read_trie(alloc, image.streams.exports)?;
    let binds = both(bind, lazy)?;
    let bound = places(alloc, &binds)?;
    let references = read_split(alloc, image.streams.split, image, &rebases, &bound)?;
    let streams = ImageStreams {
        rebases,
        binds,
        references,
        exports: image.streams.exports,
    };
    Ok((streams, exports))
}

/// What the streams of each image spell, in the order of the images.
///
/// Refuses what `read_streams` refuses of the first image that it refuses. `Memory` says that memory ran out.
pub fn read_all_streams<'a>(
    alloc: Global,
    images: &[Image<'a>],
) -> Result<Vec<ImageStreams<'a>>, SetFault>
    requires few { length images.now < 2 ^ 32 }
    ensures lists { IfOk result (λ v. v.items ≡ map spec.lists_of images.now) }
    ensures unbroken { OnOk result (All (λ i. spec.streams_break i ≡ None) images.now) }
    ensures cause { RefusesSet (in_each spec.streams_break 0 images.now) result }
{
    let mut streams = Vec::with_capacity(alloc, images.len())?;
    for (number, image) in images.iter().enumerate() {
        match read_streams(alloc, image) {
            Ok((read, _)) => streams.push(read)?,
            Err(fault) => return Err(fault.in_image(number as u32)),
        }
    }
    Ok(streams)
}
