// How the images of a cache are linked, and the rules that they break as a set.
ghost use Rattle.std.specs.Prelude.{◌≡◌, ◌≤◌, ◌+◌, ◌++◌, [], None, map, length, IfOk};
ghost use Rattle.dsc_base.specs.Limits.{set_record_limit, export_names_limit};
ghost use Rattle.dsc_base.specs.Refusals.{Refuses, RefusesSet};
ghost use Rattle.bind_ops.specs.Binds.{binds_of, bind_break};
ghost use Rattle.bind_ops.specs.declared.kind.StreamKind.TheVariants as kinds;
ghost use Rattle.export_trie.specs.Exports.{exports_of};
ghost use Rattle.export_trie.specs.Order.{trie_break};
ghost use Rattle.load_model.specs.Sums as sums;
ghost use Rattle.prebind.specs.Sets.{all_binds};
ghost use Rattle.extractor.specs.Vetting as spec;
ghost use Rattle.extractor.specs.Reading.{AreRead, IsRead};

use bind_ops::{Bind, StreamKind, read_binds};
use dsc_base::{Fault, NoMemory, SetFault};
use export_trie::Export;
use load_model::{Totals, total_with};
use macho_image::Image;
use prebind::{ImageStreams, read_exports};
use std::alloc::Global;

/// The binds of a stream that is accepted.
fn binds_in<'a>(
    alloc: Global,
    stream: &'a [u8],
    kind: StreamKind,
    image: &Image<'_>,
) -> Result<Vec<Bind<'a>>, NoMemory>
    requires { bind_break kind stream.now image.now ≡ None }
    ensures { IfOk result (λ v. v.items ≡ binds_of kind stream.entry.now image.now) }
{
    match read_binds(alloc, stream, kind, image) {
        Ok(binds) => Ok(binds),
        Err(_) => Err(NoMemory),
    }
}

/// The exports of an image whose trie is accepted.
fn exports_in(alloc: Global, image: &Image<'_>) -> Result<Vec<Export>, NoMemory>
    requires { IsRead image.now }
    ensures { IfOk result (λ v. v.items ≡ exports_of image.now.streams.exports) }
{
    read_exports(alloc, image.streams.exports)
}

/// What the streams of an image of a cache spell: the binds of both streams, and its export trie.
fn read_lists<'a>(alloc: Global, image: &Image<'a>) -> Result<ImageStreams<'a>, NoMemory>
    requires { IsRead image.now }
    ensures { IfOk result (λ s. s ≡ spec.cached_lists image.now) }
{
    let mut binds = binds_in(alloc, image.streams.bind, StreamKind::Bind, image)?;
    let mut lazy = binds_in(alloc, image.streams.lazy, StreamKind::Lazy, image)?;
    binds.append(&mut lazy)?;
    Ok(ImageStreams {
        rebases: Vec::new(alloc),
        binds,
        references: Vec::new(alloc),
        exports: image.streams.exports,
    })
}

/// What is read of an image of a cache, and the totals of the images up to it.
#[derive(Drop)]
struct Counted<'a> {
    streams: ImageStreams<'a>,
    totals: Totals,
}

/// What an image has, behind images with these totals.
fn read_counted<'a>(alloc: Global, image: &Image<'a>, before: Totals) -> Result<Counted<'a>, Fault>
    requires { IsRead image.now }
    ensures streams { IfOk result (λ l. l.streams ≡ spec.cached_lists image.now) }
    ensures records { IfOk result (λ l. l.totals.records ≡ before.records + sums.count_in (spec.cached_lists image.now)) }
    ensures names { IfOk result (λ l. l.totals.names ≡ before.names + sums.name_bytes image.now) }
    ensures few { IfOk result (λ l. l.totals.records ≤ set_record_limit) }
    ensures short { IfOk result (λ l. l.totals.names ≤ export_names_limit) }
    ensures cause { Refuses (sums.sums_break (before.records + sums.count_in (spec.cached_lists image.now)) (before.names + sums.name_bytes image.now)) result }
{
    let streams = read_lists(alloc, image)?;
    let exports = exports_in(alloc, image)?;
    let totals = match total_with(before, &streams, &exports) {
        Ok(totals) => totals,
        Err(fault) => return Err(fault),
    };
    Ok(Counted { streams, totals })
}

/// What the streams of each image spell, or the first image with which there are too many records, or too
/// many bytes of names.
pub(crate) fn read_all<'a>(
    alloc: Global,
    images: &[Image<'a>],
) -> Result<Vec<ImageStreams<'a>>, SetFault>
    requires few { length images.now ≤ 4096 }
    requires read { AreRead images.now }
    ensures streams { IfOk result (λ v. v.items ≡ map spec.cached_lists images.now) }
    ensures cause { RefusesSet (spec.sums_from 0 0 0 images.now) result }
{
    let mut streams = Vec::with_capacity(alloc, images.len())?;
    let mut totals = Totals {
        records: 0,
        names: 0,
    };
    for (number, image) in images.iter().enumerate() {
        match read_counted(alloc, image, totals) {
            Ok(counted) => {
                totals = counted.totals;
                streams.push(counted.streams)?;
            }
            Err(fault) => return Err(fault.in_image(number as u32)),
        }
    }
    Ok(streams)
}
