// The files that are made of the images of a cache.
ghost use Rattle.std.specs.Prelude.{◌≡◌, ◌≤◌, ◌<◌, ◌+◌, All, ◌++◌, ◌⊎◌, Ok, Err, Some, None, true, IfOk, IfErr, length, map, slice_get};
ghost use Rattle.std.specs.List.{range_with_len};
ghost use Rattle.dsc_base.specs.Texts.{is_plain_text};
ghost use Rattle.cache_check.specs.Views.{view_finding};
ghost use Rattle.extractor.specs.Vetting.{vet_finding};
ghost use Rattle.dsc_tool.specs.Extraction as spec;
ghost use Rattle.dsc_tool.specs.Made.{vetted_made};
ghost use Rattle.dsc_tool.specs.Steps.{ExtractStop, ExtractWorks, FlawStop, HasView, PromisesOf, made_of, new_files};
ghost use Rattle.dsc_tool.specs.declared.stop.Stop.TheVariants as stops;

use crate::inputs::read_cache;
use crate::product::{NewFile, Product};
use crate::status::Ending;
use crate::stop::Stop;
use crate::text::extracted_text;
use cache_check::CacheView;
use dsc_base::{NoMemory, Store, Text};
use extractor::{Vetted, extract, vet};
use std::alloc::Global;

/// The files of the images of the cache of this name, or of the one with a path, to be put at the prefix followed
/// by their paths, and the line that tells how many they are. All of them are made before the first is put.
pub(crate) fn prepare_extract<S: Store>(
    alloc: Global,
    name: &str,
    prefix: &str,
    image: Option<Text>,
    store: &mut S,
) -> Result<Product, Stop>
    ensures product { IfOk result (λ p. ExtractWorks (S.files store.old) name.now prefix.now image (made_of p)) }
    ensures stop { IfErr result (ExtractStop (S.files store.old)
        (S.get_faults store.old) (S.get_faults store.new) name.now prefix.now image) }
    ensures files { S.files store.new ≡ S.files store.old }
    ensures put_count { S.put_faults store.new ≡ S.put_faults store.old }
{
    let view = read_view(alloc, name, store)?;
    extract_from(alloc, &view, prefix, image)
}

/// Does nothing: its contract tells what is true of each slice of bytes.
fn are_bytes(bytes: &[u8])
    ensures { All (λ b. b < 256) bytes.now }
{
    let _ = bytes;
}

/// The cache of this name, read whole. Of its file nothing is kept but what the view keeps.
fn read_view<S: Store>(alloc: Global, name: &str, store: &mut S) -> Result<CacheView, Stop>
    ensures view { IfOk result (HasView (S.files store.old) name.now) }
    ensures stop { IfErr result (FlawStop view_finding (S.files store.old)
        (S.get_faults store.old) (S.get_faults store.new) name.now) }
    ensures files { S.files store.new ≡ S.files store.old }
    ensures put_count { S.put_faults store.new ≡ S.put_faults store.old }
{
    let cache = read_cache(alloc, store, name)?;
    are_bytes(&cache);
    Ok(cache_check::read_cache(alloc, &cache)?)
}

/// The files that are asked for of a cache that was read, and the line.
fn extract_from(
    alloc: Global,
    view: &CacheView,
    prefix: &str,
    image: Option<Text>,
) -> Result<Product, Stop>
    requires { spec.ArePlain view.now.head.images }
    ensures product { IfOk result (λ p. vetted_made prefix.now image view.now (vet_finding view.now) ≡ Ok (made_of p)) }
    ensures extracted { IfOk result (λ p. PromisesOf view.now) }
    ensures stop { IfErr result (λ s. (s ≡ stops.Memory) ⊎ (vetted_made prefix.now image view.now (vet_finding view.now) ≡ Err s)) }
{
    let vetted = vet(alloc, view)?;
    vetted.promise();
    let files = asked_files(alloc, &vetted, prefix, image)?;
    let line = extracted_text(alloc, files.len())?;
    Ok(Product {
        ending: Ending::Done,
        files,
        text: line.into_bytes(),
    })
}

/// The files of all images, or of the first with a path.
fn asked_files(
    alloc: Global,
    vetted: &Vetted<'_>,
    prefix: &str,
    image: Option<Text>,
) -> Result<Vec<NewFile>, Stop>
    requires { spec.ArePlain vetted.now.view.head.images }
    ensures files { IfOk result (λ files. spec.asked_files prefix.now image vetted.now.view ≡ Some (new_files files.items)) }
    ensures stop { IfErr result (λ s. (s ≡ stops.Memory) ⊎ ((s ≡ stops.NoImage) × (spec.asked_files prefix.now image vetted.now.view ≡ None))) }
{
    let view = vetted.view;
    view.facts();
    match image {
        None => {
            let count = view.head.images.len() as u32;
            Ok(image_files(alloc, vetted, prefix, 0, count)?)
        }
        Some(path) => match vetted.number(path.as_str().as_bytes()) {
            None => Err(Stop::NoImage),
            Some(number) => Ok(image_files(alloc, vetted, prefix, number, 1)?),
        },
    }
}

/// The files of so many images, from this one on.
fn image_files(
    alloc: Global,
    vetted: &Vetted<'_>,
    prefix: &str,
    first: u32,
    count: u32,
) -> Result<Vec<NewFile>, NoMemory>
    requires plain { spec.ArePlain vetted.now.view.head.images }
    requires inside { first + count ≤ length vetted.now.view.head.images }
    requires few { first + count ≤ 4096 }
    ensures { IfOk result (λ files. new_files files.items ≡ map (spec.image_file prefix.now vetted.now.view) (range_with_len first count)) }
{
    let mut files = Vec::with_capacity(alloc, count as usize)?;
    for index in 0..count {
        let file = image_file(alloc, vetted, prefix, first + index)?;
        files.push(file)?;
    }
    Ok(files)
}

/// The file of an image, at the prefix followed by the image's path.
fn image_file(
    alloc: Global,
    vetted: &Vetted<'_>,
    prefix: &str,
    number: u32,
) -> Result<NewFile, NoMemory>
    requires plain { spec.ArePlain vetted.now.view.head.images }
    requires inside { number < length vetted.now.view.head.images }
    ensures { IfOk result (λ file. (file.name, file.bytes.items) ≡ spec.image_file prefix.now vetted.now.view number) }
{
    let name = file_name(alloc, prefix, image_path(vetted.view, number))?;
    let bytes = extract(alloc, vetted, number)?;
    Ok(NewFile { name, bytes })
}

fn image_path(view: &CacheView, number: u32) -> &[u8]
    requires { number < length view.now.head.images }
    ensures { result.now ≡ spec.path_in (slice_get view.entry.now.head.images number) }
{
    view.head.images[number as usize].path.as_slice()
}

fn file_name(alloc: Global, prefix: &str, path: &[u8]) -> Result<Text, NoMemory>
    requires { is_plain_text path.now ≡ true }
    ensures { IfOk result (λ name. name ≡ prefix.now ++ path.now) }
{
    let path = text_of(path);
    let name = format!(in alloc; "{prefix}{path}")?;
    Text::from_str(alloc, name.as_str())
}

/// What is plain is text.
fn text_of(path: &[u8]) -> &str
    requires { is_plain_text path.now ≡ true }
    ensures { result.now ≡ path.entry.now }
{
    str::from_utf8(path).unwrap()
}
