// Files from a number.
ghost use Rattle.std.specs.Prelude.{◌≡◌, ◌≤◌, length, map, IfOk};
ghost use Rattle.dsc_gen.specs.Files.{IsShape, generated};

use crate::Shape;
use crate::draws::draw_image;
use crate::file::make_file;
use dsc_base::NoMemory;
use rand_pcg::Lcg64Xsh32;
use std::alloc::Global;

/// The stream of the generator, as in the demonstration programs of PCG.
const STREAM: u64 = 54;

/// Dylibs of this shape, from 1 to 4,096 of them, whose contents the number `seed` decides: Mach-O files
/// for x86_64 as `mach-o/loader.h` of Apple's published sources has them. Image `k` is named
/// `/gen/libNNNN.dylib` by `k` in four digits, and needs the image before it; image 0 needs none.
///
/// Each has as many deltas from `__text` to `__data`, which its split-segment information tells, as it has
/// pointers in `__data`; it exports `_s0` to `_s7`; and each of its links is bound to one of these symbols of
/// the image before it, or, in image 0, of itself. A shape has 1 to 256 pages, and at most 128 pointers and
/// links together for each page. `NoMemory` where there is none for the files.
pub fn generate(
    alloc: Global,
    seed: u64,
    count: u32,
    shape: &Shape,
) -> Result<Vec<Vec<u8>>, NoMemory>
    requires some { 1 ≤ count }
    requires few { count ≤ 4096 }
    requires shape { IsShape shape.now }
    ensures files { IfOk result (λ v. map (λ file. file.items) v.items ≡ generated seed count shape.now) }
    ensures count { IfOk result (λ v. length v.items ≡ count) }
{
    let mut generator = Lcg64Xsh32::new(seed, STREAM);
    let mut files = Vec::with_capacity(alloc, count as usize)?;
    for k in 0..count {
        let draw = draw_image(alloc, &mut generator, shape)?;
        let bytes = make_file(alloc, shape, k, &draw)?;
        files.push(bytes)?;
    }
    Ok(files)
}
