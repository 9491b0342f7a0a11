// Numbers of mach-o/loader.h.

pub(crate) const LC_SYMTAB: u32 = 0x2;

pub(crate) const LC_DYSYMTAB: u32 = 0xB;

pub(crate) const LC_SEGMENT_64: u32 = 0x19;

pub(crate) const LC_CODE_SIGNATURE: u32 = 0x1D;

pub(crate) const LC_SEGMENT_SPLIT_INFO: u32 = 0x1E;

pub(crate) const LC_DYLD_INFO: u32 = 0x22;

pub(crate) const LC_DYLD_INFO_ONLY: u32 = 0x8000_0022;

pub(crate) const LC_FUNCTION_STARTS: u32 = 0x26;

pub(crate) const LC_DATA_IN_CODE: u32 = 0x29;

pub(crate) const LC_DYLIB_CODE_SIGN_DRS: u32 = 0x2B;

/// The flag of an image in a shared cache.
pub(crate) const MH_DYLIB_IN_CACHE: u32 = 0x8000_0000;
