// Files read whole and linked into a set.
ghost use Rattle.std.specs.Prelude.{◌≡◌, ◌≤◌, map, length, IfOk};
ghost use Rattle.dsc_base.specs.Refusals.{RefusesSet};
ghost use Rattle.dep_closure.specs.Linked.{links_of};
ghost use Rattle.nlist_table.specs.Symbols.{tables_of};
ghost use Rattle.prebind.specs.Sets.{lists_of, image_set, IsSoundSet};
ghost use Rattle.load_model.specs.Phases.{contents, images_of, symbols_break, files_break};
ghost use Rattle.load_model.specs.Placed.{AreAllPlaced};

use crate::linkedits::read_linkedits;
use crate::symbols::{check_all_exports, place_all_words};
use dep_closure::{Links, link_set};
use dsc_base::SetFault;
use macho_image::{Image, read_images};
use nlist_table::Tables;
use prebind::{ImageStreams, PlacedWord, Set};
use std::alloc::Global;

/// The images of a set of files, in the order of the files: what the streams and tables of each spell, how
/// they are linked, and the pointers of each in address order, with where they lead.
#[derive(Drop)]
pub struct FileSet<'a> {
    pub images: Vec<Image<'a>>,
    pub streams: Vec<ImageStreams<'a>>,
    pub tables: Vec<Tables<'a>>,
    pub links: Links,
    pub words: Vec<Vec<PlacedWord>>,
}

/// The set that files make, read whole and linked.
///
/// The dylib of a universal file is the slice that `pick_slice` gives, and another file is one whole.
///
/// Refuses the first rule that they break, by phase and then by image: of the shapes of files `NotMachO` to
/// `LinkeditRange`; of the streams and tables `RebaseBadUleb` to `SetTooLarge`; of the set `DuplicateName` to
/// `MissingDependency`; and of where exports and words lead first `ExportOutside` of all images, and then
/// `BadOrdinal` to `PointerOutOfRange`. `Memory` says that memory ran out.
pub fn read_files<'a>(alloc: Global, files: &'a [Vec<u8>]) -> Result<FileSet<'a>, SetFault>
    requires few { length files.now ≤ 4096 }
    ensures images { IfOk result (λ s. s.images.items ≡ images_of (contents files.entry.now)) }
    ensures streams { IfOk result (λ s. s.streams.items ≡ map lists_of (images_of (contents files.entry.now))) }
    ensures tables { IfOk result (λ s. s.tables.items ≡ map tables_of (images_of (contents files.entry.now))) }
    ensures links { IfOk result (λ s. s.links ≡ links_of (images_of (contents files.entry.now))) }
    ensures words { IfOk result (λ s. AreAllPlaced (image_set (images_of (contents files.entry.now))) s.words.items) }
    ensures cause { RefusesSet (files_break (contents files.entry.now)) result }
{
    let images = match read_images(alloc, files) {
        Ok(images) => images,
        Err(fault) => return Err(fault),
    };
    let (streams, tables) = match read_linkedits(alloc, &images) {
        Ok(read) => read,
        Err(fault) => return Err(fault),
    };
    let links = match link_set(alloc, &images) {
        Ok(links) => links,
        Err(fault) => return Err(fault),
    };
    let words = match place_set(alloc, &images, &streams, &links) {
        Ok(words) => words,
        Err(fault) => return Err(fault),
    };
    Ok(FileSet {
        images,
        streams,
        tables,
        links,
        words,
    })
}

/// Where the exports and words of a set lead: the pointers of each image, placed.
#[tactic(auto, unfolding(crate::specs::Phases::symbols_break))]
fn place_set(
    alloc: Global,
    images: &[Image<'_>],
    streams: &[ImageStreams<'_>],
    links: &Links,
) -> Result<Vec<Vec<PlacedWord>>, SetFault>
    requires sound { IsSoundSet (record { images = images.now; streams = streams.now; links = links.now }) }
    ensures placed { IfOk result (λ v. AreAllPlaced (record { images = images.now; streams = streams.now; links = links.now }) v.items) }
    ensures cause { RefusesSet (symbols_break (record { images = images.now; streams = streams.now; links = links.now })) result }
{
    let set = Set {
        images,
        streams,
        links,
    };
    check_all_exports(alloc, &set)?;
    let words = place_all_words(alloc, &set)?;
    Ok(words)
}
