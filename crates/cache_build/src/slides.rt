// The slide information of a cache.
ghost use Rattle.std.specs.Prelude.{◌≡◌, ◌≤◌, ◌%◌, length, IfOk};
ghost use Rattle.dsc_base.specs.Refusals.{RefusesSet};
ghost use Rattle.slide_chain.specs.Info.{info_bytes};
ghost use Rattle.slide_chain.specs.Making.{AreWords, AllBelow, IsMade, info_of, chains_break};

use dsc_base::SetFault;
use slide_chain::{SlideInfo, make_slide_info, slide_info_bytes};
use std::alloc::Global;

/// The slide information of data of so many bytes with these words, and its bytes. Its rule is one of the
/// whole set, which is shown at image 0.
pub fn slide_info_of(
    alloc: Global,
    data_size: u64,
    words: &[u64],
    bits: u32,
) -> Result<(SlideInfo, Vec<u8>), SetFault>
    requires some { 1 ≤ bits }
    requires most { bits ≤ 16 }
    requires pages { data_size % 4096 ≡ 0 }
    requires room { data_size ≤ 0x2000_0000 }
    requires words { AreWords 0 words.now }
    requires inside { AllBelow data_size words.now }
    ensures info { IfOk result (λ r. r.0 ≡ info_of bits data_size words.now) }
    ensures made { IfOk result (λ r. IsMade r.0 data_size words.now) }
    ensures bytes { IfOk result (λ r. r.1.items ≡ info_bytes (info_of bits data_size words.now)) }
    ensures small { IfOk result (λ r. length r.1.items ≤ 0x2000_0000) }
    ensures cause { RefusesSet (chains_break bits data_size words.now) result }
{
    let info = match make_slide_info(alloc, data_size, words, bits) {
        Ok(info) => info,
        Err(fault) => return Err(fault.in_image(0)),
    };
    let bytes = slide_info_bytes(alloc, &info)?;
    Ok((info, bytes))
}
