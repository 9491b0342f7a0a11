// The streams and tables of a set, read image by image.
ghost use Rattle.std.specs.Prelude.{◌≡◌, ◌≤◌, ◌+◌, ◌-◌, ◌^◌, min, map, length, IfOk};
ghost use Rattle.dsc_base.specs.Limits.{set_record_limit, export_names_limit};
ghost use Rattle.dsc_base.specs.Refusals.{Refuses, RefusesSet};
ghost use Rattle.nlist_table.specs.Symbols.{tables_of};
ghost use Rattle.prebind.specs.Sets.{lists_of};
ghost use Rattle.load_model.specs.Phases as spec;
ghost use Rattle.load_model.specs.Sums as sums;

use dsc_base::{EXPORT_NAMES_LIMIT, Fault, Rule, SET_RECORD_LIMIT, SetFault, Site};
use export_trie::Export;
use macho_image::Image;
use nlist_table::{Tables, read_tables};
use prebind::{ImageStreams, read_streams};
use std::alloc::Global;

/// How many records the streams of some images have together, and how many bytes the names that these export.
#[derive(Clone, Copy, Debug, PartialEq, Eq)]
pub struct Totals {
    pub records: u64,
    pub names: u64,
}

/// What is read of an image's linkedit, and the totals of the images up to it.
#[derive(Drop)]
struct Linkedit<'a> {
    streams: ImageStreams<'a>,
    tables: Tables<'a>,
    totals: Totals,
}

/// How many records streams have behind others; no more than a number has room for.
fn records_with(before: u64, streams: &ImageStreams<'_>) -> u64
    ensures { result ≡ min (before + sums.count_in streams.now) (2 ^ 64 - 1) }
{
    let words = streams.rebases.len() as u64;
    let others = (streams.binds.len() as u64).saturating_add(streams.references.len() as u64);
    before.saturating_add(words.saturating_add(others))
}

/// How many bytes the names of exports have behind others; no more than a number has room for.
fn names_with(before: u64, exports: &[Export]) -> u64
    ensures { result ≡ min (before + sums.bytes_in exports.now) (2 ^ 64 - 1) }
{
    let mut total = before;
    for export in exports {
        total = total.saturating_add(export.name.as_slice().len() as u64);
    }
    total
}

/// Refuses `SetTooLarge` where so many records, or names of so many bytes, are more than the images up to one
/// may have together.
#[tactic(auto, unfolding(crate::specs::Sums::sums_break))]
fn check_sums(records: u64, names: u64) -> Result<(), Fault>
    ensures { Refuses (sums.sums_break records names) result }
{
    if records > SET_RECORD_LIMIT || names > EXPORT_NAMES_LIMIT {
        return Err(Fault::Broken(Site {
            rule: Rule::SetTooLarge,
            at: 0,
        }));
    }
    Ok(())
}

/// The totals of images with one more behind them, which has these streams and exports.
///
/// Refuses `SetTooLarge` where they are more than the images up to one may have together. It takes no memory.
pub fn total_with(
    before: Totals,
    streams: &ImageStreams<'_>,
    exports: &[Export],
) -> Result<Totals, Fault>
    ensures records { IfOk result (λ t. t.records ≡ before.records + sums.count_in streams.now) }
    ensures names { IfOk result (λ t. t.names ≡ before.names + sums.bytes_in exports.now) }
    ensures few { IfOk result (λ t. t.records ≤ set_record_limit) }
    ensures short { IfOk result (λ t. t.names ≤ export_names_limit) }
    ensures cause { Refuses (sums.sums_break (before.records + sums.count_in streams.now) (before.names + sums.bytes_in exports.now)) result }
{
    let records = records_with(before.records, streams);
    let names = names_with(before.names, exports);
    match check_sums(records, names) {
        Ok(()) => Ok(Totals { records, names }),
        Err(fault) => Err(fault),
    }
}

/// The linkedit of an image behind images with these totals.
#[tactic(auto, unfolding(crate::specs::Phases::linkedit_break))]
fn read_linkedit<'a>(
    alloc: Global,
    image: &Image<'a>,
    before: Totals,
) -> Result<Linkedit<'a>, Fault>
    ensures streams { IfOk result (λ l. l.streams ≡ lists_of image.now) }
    ensures tables { IfOk result (λ l. l.tables ≡ tables_of image.now) }
    ensures records { IfOk result (λ l. l.totals.records ≡ before.records + sums.record_count image.now) }
    ensures names { IfOk result (λ l. l.totals.names ≡ before.names + sums.name_bytes image.now) }
    ensures few { IfOk result (λ l. l.totals.records ≤ set_record_limit) }
    ensures short { IfOk result (λ l. l.totals.names ≤ export_names_limit) }
    ensures cause { Refuses (spec.linkedit_break before.records before.names image.now) result }
{
    let (streams, exports) = read_streams(alloc, image)?;
    let tables = read_tables(alloc, image)?;
    let totals = match total_with(before, &streams, &exports) {
        Ok(totals) => totals,
        Err(fault) => return Err(fault),
    };
    Ok(Linkedit {
        streams,
        tables,
        totals,
    })
}

/// The streams and the tables of each image, or the first rule that one of them breaks.
pub(crate) fn read_linkedits<'a>(
    alloc: Global,
    images: &[Image<'a>],
) -> Result<(Vec<ImageStreams<'a>>, Vec<Tables<'a>>), SetFault>
    requires few { length images.now ≤ 4096 }
    ensures streams { IfOk result (λ r. r.0.items ≡ map lists_of images.now) }
    ensures tables { IfOk result (λ r. r.1.items ≡ map tables_of images.now) }
    ensures cause { RefusesSet (spec.linkedits_from 0 0 0 images.now) result }
{
    let mut streams = Vec::with_capacity(alloc, images.len())?;
    let mut tables = Vec::with_capacity(alloc, images.len())?;
    let mut totals = Totals {
        records: 0,
        names: 0,
    };
    for (number, image) in images.iter().enumerate() {
        match read_linkedit(alloc, image, totals) {
            Ok(linkedit) => {
                totals = linkedit.totals;
                streams.push(linkedit.streams)?;
                tables.push(linkedit.tables)?;
            }
            Err(fault) => return Err(fault.in_image(number as u32)),
        }
    }
    Ok((streams, tables))
}
