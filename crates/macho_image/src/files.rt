// The dylibs of files, read one after another.
ghost use Rattle.std.specs.Prelude.{◌≡◌, ◌≤◌, ◌+◌, None, length, IfOk, IfErr, OnOk, [], ◌∷◌, ◌++◌};
ghost use Rattle.macho_image.specs.Macho.{image_of};
ghost use Rattle.macho_image.specs.Universal.{bytes_of, slice_break};
ghost use Rattle.dsc_base.specs.Refusals.{IsRefusal, Refuses, IsSetRefusal, in_each};
ghost use Rattle.macho_image.specs.Files.{dylib_of, shape_break, images_of, contents};

use crate::{Form, Image, pick_slice, read_image};
use dsc_base::{Fault, NoMemory, SetFault, Span};
use std::alloc::{AllocError, Global};

/// A part of a file.
fn part_of<'a>(file: &'a [u8], part: Span) -> &'a [u8]
    requires { part.at + part.len ≤ length file.now }
    ensures { result.now ≡ bytes_of file.entry.now part }
{
    &file[part.at as usize..][..part.len as usize]
}

/// The dylib of a file: the slice of a universal file, and another file whole.
fn dylib_of<'a>(file: &'a [u8]) -> Result<&'a [u8], Fault>
    ensures dylib { IfOk result (λ b. b.now ≡ dylib_of file.entry.now) }
    ensures cause { Refuses (slice_break file.entry.now) result }
{
    match pick_slice(file) {
        Ok(slice) => Ok(part_of(file, slice)),
        Err(site) => Err(Fault::Broken(site)),
    }
}

/// The image of a file's dylib, or the first rule that the file breaks.
fn read_dylib<'a>(alloc: Global, file: &'a [u8]) -> Result<Image<'a>, Fault>
    ensures image { IfOk result (λ i. i ≡ image_of (dylib_of file.entry.now) 0) }
    ensures unbroken { OnOk result (shape_break file.entry.now ≡ None) }
    ensures cause { IfErr result (IsRefusal (shape_break file.entry.now)) }
{
    let dylib = dylib_of(file)?;
    let image = read_image(alloc, dylib, 0, Form::Standalone)?;
    Ok(image)
}

/// The images of the dylibs of files, in the order of the files: of a universal file the slice that `pick_slice`
/// gives, and another file whole.
///
/// Refuses the first rule, `NotMachO` to `LinkeditRange`, that the first file breaks that breaks one. `Memory`
/// says that memory ran out.
pub fn read_images<'a>(alloc: Global, files: &'a [Vec<u8>]) -> Result<Vec<Image<'a>>, SetFault>
    requires { length files.now ≤ 4096 }
    ensures images { IfOk result (λ v. v.items ≡ images_of (contents files.entry.now)) }
    ensures unbroken { OnOk result (in_each shape_break 0 (contents files.entry.now) ≡ None) }
    ensures cause { IfErr result (IsSetRefusal (in_each shape_break 0 (contents files.entry.now))) }
{
    let mut images = Vec::with_capacity(alloc, files.len())?;
    for (number, file) in files.iter().enumerate() {
        match read_dylib(alloc, file) {
            Ok(image) => push_image(&mut images, image)?,
            Err(fault) => return Err(fault.in_image(number as u32)),
        }
    }
    Ok(images)
}

/// Appends an image.
fn push_image<'a>(images: &mut Vec<Image<'a>>, image: Image<'a>) -> Result<(), NoMemory>
    ensures { OnOk result (images.new.items ≡ images.old.items ++ image.entry ∷ []) }
{
    images.push(image).map_err(AllocError::from)?;
    Ok(())
}
