// The identifier of a cache.
ghost use Rattle.std.specs.Prelude.{◌≡◌, IfOk};
ghost use Rattle.cache_header.specs.Identifier.{identifier_of};

use dsc_base::NoMemory;
use std::alloc::Global;
use uuid::Uuid;

/// The identifier of a cache with images of these identifiers: version 5 of RFC 9562 in the OID
/// namespace, over the identifiers joined.
pub fn cache_uuid(alloc: Global, images: &[[u8; 16]]) -> Result<[u8; 16], NoMemory>
    ensures { IfOk result (λ v. v ≡ identifier_of images.now) }
{
    let mut joined = Vec::new(alloc);
    for image in images {
        joined.extend_from_slice(image)?;
    }
    Ok(Uuid::new_v5(&Uuid::NAMESPACE_OID, &joined).into_bytes())
}
