// Names in a string table.
ghost use Rattle.std.specs.Prelude.{◌≡◌, position, nat_eq, take, drop, option_copied};
ghost use Rattle.macho_image.specs.Nlists.{name_at};

use dsc_base::NAME_LIMIT;
use memchr::memchr;

fn nul_at(bytes: &[u8]) -> Option<usize>
    ensures { result ≡ position (λ x. nat_eq x 0) bytes.now }
{
    memchr(0, bytes)
}

/// The bytes from an index on, none where that is past the end.
fn behind<'a>(strings: &'a [u8], index: u64) -> &'a [u8]
    ensures { result.now ≡ drop index strings.entry.now }
{
    let len = strings.len();
    if index < len as u64 {
        &strings[index as usize..]
    } else {
        &strings[len..]
    }
}

/// The first `len` bytes, or all where there are fewer.
fn front<'a>(bytes: &'a [u8], len: usize) -> &'a [u8]
    ensures { result.now ≡ take len bytes.entry.now }
{
    if len < bytes.len() {
        &bytes[..len]
    } else {
        bytes
    }
}

/// The name at an index, without its NUL, if the string table has one there. At 0 stands the empty one.
#[tactic(auto, unfolding(macho_image::specs::Nlists::name_at))]
pub(crate) fn name_at<'a>(strings: &'a [u8], index: u64) -> Option<&'a [u8]>
    ensures { option_copied result ≡ name_at strings.entry.now index }
{
    if index == 0 {
        return Some(&[]);
    }
    let reach = front(behind(strings, index), NAME_LIMIT);
    let len = nul_at(reach)?;
    Some(front(reach, len))
}
