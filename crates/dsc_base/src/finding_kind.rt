// What may be found wrong with a cache, in the order in which it is tried.
ghost use Rattle.std.specs.Prelude.{◌≡◌};
ghost use Rattle.dsc_base.specs.FindingNames.{number_of, name_of};

/// What is wrong with a cache. `docs/RULES.md` says when each holds.
#[derive(Clone, Copy, Debug, PartialEq, Eq, PartialOrd, Ord)]
pub enum FindingKind {
    CacheTooLarge,
    NotCache,
    ShortHeader,
    TableOutside,
    NameNotPlain,
    MappingShape,
    SlideInfoShape,
    MaskShape,
    ExtrasEnd,
    ChainLeavesPage,
    ChainsOverlap,
    ImageBroken,
    NameDiffers,
    SegmentOutside,
    NameTwice,
    StreamBroken,
    LinkBroken,
    ChainOutside,
    PointerNotSymbol,
    ForeignPointer,
    ExtractTooLarge,
}

impl FindingKind {
    /// The number under which the documents and the messages know it.
    pub fn number(self) -> u16
        ensures { result ≡ number_of self }
    {
        match self {
            FindingKind::CacheTooLarge => 201,
            FindingKind::NotCache => 202,
            FindingKind::ShortHeader => 203,
            FindingKind::TableOutside => 204,
            FindingKind::NameNotPlain => 205,
            FindingKind::MappingShape => 206,
            FindingKind::SlideInfoShape => 207,
            FindingKind::MaskShape => 208,
            FindingKind::ExtrasEnd => 209,
            FindingKind::ChainLeavesPage => 210,
            FindingKind::ChainsOverlap => 211,
            FindingKind::ImageBroken => 212,
            FindingKind::NameDiffers => 213,
            FindingKind::SegmentOutside => 214,
            FindingKind::NameTwice => 215,
            FindingKind::StreamBroken => 216,
            FindingKind::LinkBroken => 217,
            FindingKind::ChainOutside => 218,
            FindingKind::PointerNotSymbol => 219,
            FindingKind::ForeignPointer => 220,
            FindingKind::ExtractTooLarge => 221,
        }
    }

    /// Its name, as the messages print it.
    pub fn text(self) -> &'static str
        ensures { result.now ≡ name_of self }
    {
        match self {
            FindingKind::CacheTooLarge => "CacheTooLarge",
            FindingKind::NotCache => "NotCache",
            FindingKind::ShortHeader => "ShortHeader",
            FindingKind::TableOutside => "TableOutside",
            FindingKind::NameNotPlain => "NameNotPlain",
            FindingKind::MappingShape => "MappingShape",
            FindingKind::SlideInfoShape => "SlideInfoShape",
            FindingKind::MaskShape => "MaskShape",
            FindingKind::ExtrasEnd => "ExtrasEnd",
            FindingKind::ChainLeavesPage => "ChainLeavesPage",
            FindingKind::ChainsOverlap => "ChainsOverlap",
            FindingKind::ImageBroken => "ImageBroken",
            FindingKind::NameDiffers => "NameDiffers",
            FindingKind::SegmentOutside => "SegmentOutside",
            FindingKind::NameTwice => "NameTwice",
            FindingKind::StreamBroken => "StreamBroken",
            FindingKind::LinkBroken => "LinkBroken",
            FindingKind::ChainOutside => "ChainOutside",
            FindingKind::PointerNotSymbol => "PointerNotSymbol",
            FindingKind::ForeignPointer => "ForeignPointer",
            FindingKind::ExtractTooLarge => "ExtractTooLarge",
        }
    }
}
