// Writing the head of a cache.
ghost use Rattle.std.specs.Prelude.{◌≡◌, ◌++◌, ℕ, List, None, IfOk, OnOk};
ghost use Rattle.cache_header.specs.Spelling.{head_bytes, IsWritable};
ghost use Rattle.cache_header.specs.Reading.{head_read};
ghost use Rattle.cache_header.specs.Findings.{head_finding};
ghost use Rattle.cache_header.specs.Widths.{FitsHead};

use crate::CacheHead;
use crate::tables::{header, image_table, mapping_table, paths, text_table};
use dsc_base::NoMemory;
use std::alloc::Global;

/// The bytes of a head, one part after another.
fn spell_head(alloc: Global, head: &CacheHead) -> Result<Vec<u8>, NoMemory>
    requires { IsWritable head.now }
    ensures bytes { IfOk result (λ v. v.items ≡ head_bytes head.now) }
    ensures fits { OnOk result (FitsHead head.now) }
{
    let count = head.images.len() as u32;
    let mut bytes = header(alloc, count, head.slide_info, head.uuid, head.max_slide)?;
    let mappings = mapping_table(alloc, &head.mappings)?;
    bytes.extend_from_slice(&mappings)?;
    let images = image_table(alloc, &head.images)?;
    bytes.extend_from_slice(&images)?;
    let texts = text_table(alloc, &head.images)?;
    bytes.extend_from_slice(&texts)?;
    let paths = paths(alloc, &head.images)?;
    bytes.extend_from_slice(&paths)?;
    Ok(bytes)
}

/// The bytes of a head with three mappings and at most 4,096 images, whose paths are plain: header,
/// mapping table, image table, image text table, and the paths with their NULs in the order of the
/// images. `read_cache_head` gives the head back, whatever bytes follow it.
pub fn write_cache_head(alloc: Global, head: &CacheHead) -> Result<Vec<u8>, NoMemory>
    requires { IsWritable head.now }
    ensures bytes { IfOk result (λ v. v.items ≡ head_bytes head.now) }
    ensures read_back { IfOk result (λ v. (rest : List ℕ) → head_read (v.items ++ rest) ≡ head.now) }
    ensures sound { IfOk result (λ v. (rest : List ℕ) → head_finding (v.items ++ rest) ≡ None) }
    ensures fits { OnOk result (FitsHead head.now) }
{
    let bytes = spell_head(alloc, head)?;
    Ok(bytes)
}
