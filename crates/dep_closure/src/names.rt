// The images of a set by their install names.
ghost use Rattle.std.specs.Prelude.{◌≡◌, ◌≤◌, take, length, IfOk};
ghost use Rattle.dep_closure.specs.Dependencies.{image_named};

use dsc_base::NoMemory;
use indexmap::IndexMap;
use macho_image::Image;
use std::alloc::Global;
use std::marker::Model;

/// The images of a set, and of each install name the number of the first image that has it.
#[derive(Drop)]
pub(crate) struct Names<'s, 'a> {
    images: &'s [Image<'a>],
    numbers: IndexMap<&'a [u8], u32>,
}

impl<'s, 'a> Model for Names<'s, 'a> {
    ghost use Rattle.std.specs.Prelude.{List};
    ghost use Rattle.macho_image.specs.Records.{Img};

    ghost Value = { List Img };

    ghost use Rattle.dep_closure.specs.Names.{AreNumbered};

    ghost view = { λ n. n.images.now };

    ghost invariant = { AreNumbered };
}

impl<'s, 'a> Names<'s, 'a> {
    /// The number of the first image with an install name.
    pub(crate) fn find(&self, name: &[u8]) -> Option<u32>
        ensures { result ≡ image_named self.now name.now }
    {
        self.numbers.get(name).copied()
    }

    /// The same of the images before one.
    pub(crate) fn find_before(&self, name: &[u8], image: u32) -> Option<u32>
        ensures { result ≡ image_named (take image self.now) name.now }
    {
        let number = self.find(name)?;
        if number < image { Some(number) } else { None }
    }
}

/// The images by their install names.
pub(crate) fn name_images<'s, 'a>(
    alloc: Global,
    images: &'s [Image<'a>],
) -> Result<Names<'s, 'a>, NoMemory>
    requires { length images.now ≤ 4097 }
    ensures { IfOk result (λ names. names ≡ images.entry.now) }
{
    let mut numbers: IndexMap<&'a [u8], u32> = IndexMap::new(alloc);
    for (number, image) in images.iter().enumerate() {
        if !numbers.contains_key(image.install_name) {
            match numbers.insert(image.install_name, number as u32) {
                Ok(_) => {}
                Err(_) => return Err(NoMemory),
            }
        }
    }
    Ok(Names { images, numbers })
}
