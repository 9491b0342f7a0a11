//! Where the fields of Mach-O headers, load commands and sections stand: offsets in bytes from the start of
//! the structure that has the field, and sizes of structures in bytes. Names are those of `mach-o/loader.h`.

/// mach_header_64
pub const HEADER_MAGIC: usize = 0;

pub const HEADER_CPUTYPE: usize = 4;

pub const HEADER_FILETYPE: usize = 12;

pub const HEADER_NCMDS: usize = 16;

pub const HEADER_SIZEOFCMDS: usize = 20;

pub const HEADER_FLAGS: usize = 24;

pub const SIZE_OF_HEADER: usize = 32;

/// load_command
pub const COMMAND_CMD: usize = 0;

pub const COMMAND_CMDSIZE: usize = 4;

/// segment_command_64
pub const SEGMENT_SEGNAME: usize = 8;

pub const SEGMENT_VMADDR: usize = 24;

pub const SEGMENT_VMSIZE: usize = 32;

pub const SEGMENT_FILEOFF: usize = 40;

pub const SEGMENT_FILESIZE: usize = 48;

pub const SEGMENT_MAXPROT: usize = 56;

pub const SEGMENT_INITPROT: usize = 60;

pub const SEGMENT_NSECTS: usize = 64;

pub const SEGMENT_FLAGS: usize = 68;

pub const SIZE_OF_SEGMENT_COMMAND: usize = 72;

/// section_64
pub const SECTION_SECTNAME: usize = 0;

pub const SECTION_SEGNAME: usize = 16;

pub const SECTION_ADDR: usize = 32;

pub const SECTION_SIZE: usize = 40;

pub const SECTION_OFFSET: usize = 48;

pub const SECTION_NRELOC: usize = 60;

pub const SECTION_FLAGS: usize = 64;

pub const SIZE_OF_SECTION: usize = 80;

/// dyld_info_command
pub const DYLD_INFO_REBASE_OFF: usize = 8;

pub const DYLD_INFO_REBASE_SIZE: usize = 12;

pub const DYLD_INFO_BIND_OFF: usize = 16;

pub const DYLD_INFO_BIND_SIZE: usize = 20;

pub const DYLD_INFO_WEAK_BIND_OFF: usize = 24;

pub const DYLD_INFO_WEAK_BIND_SIZE: usize = 28;

pub const DYLD_INFO_LAZY_BIND_OFF: usize = 32;

pub const DYLD_INFO_LAZY_BIND_SIZE: usize = 36;

pub const DYLD_INFO_EXPORT_OFF: usize = 40;

pub const DYLD_INFO_EXPORT_SIZE: usize = 44;

/// linkedit_data_command
pub const LINKEDIT_DATA_DATAOFF: usize = 8;

pub const LINKEDIT_DATA_DATASIZE: usize = 12;

/// symtab_command
pub const SYMTAB_SYMOFF: usize = 8;

pub const SYMTAB_NSYMS: usize = 12;

pub const SYMTAB_STROFF: usize = 16;

pub const SYMTAB_STRSIZE: usize = 20;

/// dysymtab_command, which begins with the first index and the count of each of three groups of
/// symbols
pub const DYSYMTAB_ILOCALSYM: usize = 8;

pub const DYSYMTAB_NLOCALSYM: usize = 12;

pub const DYSYMTAB_IEXTDEFSYM: usize = 16;

pub const DYSYMTAB_NEXTDEFSYM: usize = 20;

pub const DYSYMTAB_IUNDEFSYM: usize = 24;

pub const DYSYMTAB_NUNDEFSYM: usize = 28;

pub const DYSYMTAB_INDIRECTSYMOFF: usize = 56;

pub const DYSYMTAB_NINDIRECTSYMS: usize = 60;

pub const DYSYMTAB_NEXTREL: usize = 68;

pub const DYSYMTAB_NLOCREL: usize = 76;

/// dylib_command
pub const DYLIB_NAME_OFFSET: usize = 8;

/// uuid_command
pub const UUID_UUID: usize = 8;
