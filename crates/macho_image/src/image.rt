// An image: what a dylib's header spells, and the parts of its file that the header names.
ghost use Rattle.std.specs.Prelude.{◌≡◌};
ghost use Rattle.macho_image.specs.Rules.{is_linkedit_segment};
ghost use Rattle.macho_image.specs.Segments.{is_text_segment};

use crate::segment::{LINKEDIT, TEXT};
use crate::{LinkKind, Section};
use std::marker::Model;

/// A segment: the fields of its `segment_command_64`, and the bytes of the file that it maps.
#[derive(Drop)]
pub struct Segment<'a> {
    pub name: [u8; 16],
    pub vmaddr: u64,
    pub vmsize: u64,
    pub fileoff: u64,
    pub filesize: u64,
    pub maxprot: u32,
    pub initprot: u32,
    pub flags: u32,
    pub bytes: &'a [u8],
}

impl<'a> Model for Segment<'a> {
    ghost use Rattle.macho_image.specs.Records.{Seg};

    ghost Value = { Seg };

    ghost view = { λ s. record { name = s.name; vmaddr = s.vmaddr; vmsize = s.vmsize; fileoff = s.fileoff; filesize = s.filesize; maxprot = s.maxprot; initprot = s.initprot; flags = s.flags; bytes = s.bytes.now } };
}

impl<'a> Segment<'a> {
    /// Whether this is `__TEXT`, the segment that begins with the header.
    #[tactic(auto, unfolding(crate::specs::Segments::is_text_segment))]
    pub fn is_text(&self) -> bool
        ensures { result ≡ is_text_segment self.now }
    {
        self.name == TEXT
    }

    /// Whether this is `__LINKEDIT`, the segment of the streams and tables.
    pub fn is_linkedit(&self) -> bool
        ensures { result ≡ is_linkedit_segment self.now }
    {
        self.name == LINKEDIT
    }
}

/// A dylib that the image needs, by the path that it names.
#[derive(Drop)]
pub struct Dependency<'a> {
    pub kind: LinkKind,
    pub name: &'a [u8],
}

impl<'a> Model for Dependency<'a> {
    ghost use Rattle.macho_image.specs.Records.{Dep};

    ghost Value = { Dep };

    ghost view = { λ d. record { kind = d.kind; name = d.name.now } };
}

/// The parts of the linkedit that the commands name, each empty where its command is absent; of the
/// split-segment information it is told whether the command is there.
#[derive(Drop)]
pub struct Streams<'a> {
    pub rebase: &'a [u8],
    pub bind: &'a [u8],
    pub weak: &'a [u8],
    pub lazy: &'a [u8],
    pub exports: &'a [u8],
    pub split: Option<&'a [u8]>,
    pub function_starts: &'a [u8],
    pub data_in_code: &'a [u8],
    pub symbols: &'a [u8],
    pub strings: &'a [u8],
    pub indirect: &'a [u8],
}

impl<'a> Model for Streams<'a> {
    ghost use Rattle.std.specs.Prelude.{option_copied};
    ghost use Rattle.macho_image.specs.Records.{StreamBytes};

    ghost Value = { StreamBytes };

    ghost view = { λ s. record { rebase = s.rebase.now; bind = s.bind.now; weak = s.weak.now; lazy = s.lazy.now; exports = s.exports.now; split = option_copied s.split; function_starts = s.function_starts.now; data_in_code = s.data_in_code.now; symbols = s.symbols.now; strings = s.strings.now; indirect = s.indirect.now } };
}

/// A dylib that was read whole. Its install name, segments, sections, dependencies, groups and
/// identifier are those that its `header` spells, which breaks no rule; a file of its own begins with its
/// first segment, and each segment has as many bytes as its filesize. `header` is the Mach header with all commands; `groups` is the first six index
/// fields of LC_DYSYMTAB, and `uuid` the one of LC_UUID, zeros where the command is absent. Each slice is a
/// part of the bytes that were read.
#[derive(Drop)]
pub struct Image<'a> {
    pub install_name: &'a [u8],
    pub segments: Vec<Segment<'a>>,
    pub sections: Vec<Section>,
    pub dependencies: Vec<Dependency<'a>>,
    pub streams: Streams<'a>,
    pub groups: [u32; 6],
    pub uuid: [u8; 16],
    pub has_dyld_info: bool,
    pub header: &'a [u8],
}

impl<'a> Model for Image<'a> {
    ghost use Rattle.macho_image.specs.Records.{Img};

    ghost Value = { Img };

    ghost use Rattle.macho_image.specs.Views.{image_view, IsSoundInside};

    ghost view = { image_view };

    ghost invariant = { IsSoundInside };
}
