// The paths of a cache's images.
ghost use Rattle.std.specs.Prelude.{◌≡◌, List, Some, None, nat_eq, length, drop, position, option_copied, if◌then◌else◌};
ghost use Rattle.std.specs.List.{before_first};
ghost use Rattle.cache_header.specs.Paths.{is_nul};
ghost use Rattle.cache_header.specs.Findings.{begins_plain};

use dsc_base::is_plain_text;

/// The bytes from an offset on, none where that is past the end.
pub(crate) fn behind<'a>(bytes: &'a [u8], at: u32) -> &'a [u8]
    ensures { result.now ≡ drop at bytes.entry.now }
{
    let len = bytes.len();
    if (at as usize) < len {
        &bytes[at as usize..]
    } else {
        &bytes[len..]
    }
}

fn nul_at(bytes: &[u8]) -> Option<usize>
    ensures { result ≡ position is_nul bytes.now }
{
    bytes.iter().position(|x| *x == 0)
}

/// The path at the front of the bytes, up to a NUL, where it is plain.
pub(crate) fn plain_path<'a>(bytes: &'a [u8]) -> Option<&'a [u8]>
    ensures { option_copied result ≡
        (if begins_plain bytes.entry.now then Some (before_first is_nul bytes.entry.now) else None) }
{
    let len = nul_at(bytes)?;
    let path = &bytes[..len];
    if is_plain_text(path) {
        Some(path)
    } else {
        None
    }
}
