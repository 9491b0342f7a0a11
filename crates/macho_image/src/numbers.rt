// The numbers of the load commands that are accepted, and what kind of command each is.
ghost use Rattle.std.specs.Prelude.{◌≡◌};
ghost use Rattle.macho_image.specs.Macho as spec;
ghost use Rattle.macho_image.specs.Rules as rules;

use crate::LinkKind;

pub(crate) const LC_SEGMENT_64: u32 = 0x19;

pub(crate) const LC_ID_DYLIB: u32 = 0xD;

pub(crate) const LC_DYLD_INFO: u32 = 0x22;

pub(crate) const LC_DYLD_INFO_ONLY: u32 = 0x8000_0022;

pub(crate) const LC_SYMTAB: u32 = 2;

pub(crate) const LC_DYSYMTAB: u32 = 0xB;

pub(crate) const LC_UUID: u32 = 0x1B;

pub(crate) const LC_SEGMENT_SPLIT_INFO: u32 = 0x1E;

pub(crate) const LC_FUNCTION_STARTS: u32 = 0x26;

pub(crate) const LC_DATA_IN_CODE: u32 = 0x29;

pub(crate) const LC_CODE_SIGNATURE: u32 = 0x1D;

pub(crate) const LC_DYLIB_CODE_SIGN_DRS: u32 = 0x2B;

const LC_LOAD_DYLIB: u32 = 0xC;

const LC_LOAD_WEAK_DYLIB: u32 = 0x8000_0018;

const LC_REEXPORT_DYLIB: u32 = 0x8000_001F;

const LC_LOAD_UPWARD_DYLIB: u32 = 0x8000_0023;

const LC_VERSION_MIN_MACOSX: u32 = 0x24;

const LC_SOURCE_VERSION: u32 = 0x2A;

const LC_BUILD_VERSION: u32 = 0x32;

const LC_RPATH: u32 = 0x8000_001C;

const LC_SUB_FRAMEWORK: u32 = 0x12;

const LC_SUB_CLIENT: u32 = 0x14;

pub(crate) fn is_dyld_info(number: u32) -> bool
    ensures { result ≡ spec.is_dyld_info number }
{
    matches!(number, LC_DYLD_INFO | LC_DYLD_INFO_ONLY)
}

pub(crate) fn link_kind(number: u32) -> Option<LinkKind>
    ensures { result ≡ spec.link_kind number }
{
    match number {
        LC_LOAD_DYLIB => Some(LinkKind::Load),
        LC_LOAD_WEAK_DYLIB => Some(LinkKind::Weak),
        LC_REEXPORT_DYLIB => Some(LinkKind::Reexport),
        LC_LOAD_UPWARD_DYLIB => Some(LinkKind::Upward),
        _ => None,
    }
}

pub(crate) fn is_dylib(number: u32) -> bool
    ensures { result ≡ spec.is_dylib number }
{
    number == LC_ID_DYLIB || link_kind(number).is_some()
}

pub(crate) fn is_linkedit_data(number: u32) -> bool
    ensures { result ≡ rules.is_linkedit_data number }
{
    matches!(
        number,
        LC_SEGMENT_SPLIT_INFO
            | LC_FUNCTION_STARTS
            | LC_DATA_IN_CODE
            | LC_CODE_SIGNATURE
            | LC_DYLIB_CODE_SIGN_DRS
    )
}

/// The size in bytes of a command's structure; 8 for a command that isn't known.
pub(crate) fn least_size(number: u32) -> u32
    ensures { result ≡ rules.least_size number }
{
    match number {
        LC_SEGMENT_64 => 72,
        LC_BUILD_VERSION => 24,
        _ if is_dylib(number) => 24,
        _ if is_dyld_info(number) => 48,
        LC_SYMTAB | LC_UUID => 24,
        LC_DYSYMTAB => 80,
        LC_VERSION_MIN_MACOSX | LC_SOURCE_VERSION => 16,
        _ if is_linkedit_data(number) => 16,
        LC_RPATH | LC_SUB_FRAMEWORK | LC_SUB_CLIENT => 12,
        _ => 8,
    }
}

pub(crate) fn is_known(number: u32) -> bool
    ensures { result ≡ rules.is_known number }
{
    match number {
        LC_SEGMENT_64 | LC_SYMTAB | LC_DYSYMTAB | LC_UUID => true,
        LC_VERSION_MIN_MACOSX | LC_SOURCE_VERSION | LC_BUILD_VERSION => true,
        LC_RPATH | LC_SUB_FRAMEWORK | LC_SUB_CLIENT => true,
        _ => is_dylib(number) || is_dyld_info(number) || is_linkedit_data(number),
    }
}
