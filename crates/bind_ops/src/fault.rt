// Why a bind stream is refused, and the rule of each stream for it.
ghost use Rattle.std.specs.Prelude.{◌≡◌};
ghost use Rattle.bind_ops.specs.Faults as spec;
ghost use Rattle.bind_ops.specs.Steps.Effects.{reason_of};

use crate::StreamKind;
use dsc_base::Rule;
use macho_image::PlaceFault;

/// Why an opcode or a record is refused.
#[derive(Clone, Copy)]
pub(crate) enum BindFault {
    /// A variable-length number ends early or has more than 64 bits.
    BadUleb,
    BadOpcode,
    /// A type other than a pointer is set.
    BadType,
    /// No word may be bound there.
    Place(PlaceFault),
    /// A record while no ordinal, no symbol or no segment is set.
    BeforeSet,
    /// The symbol would be sought in the main executable, ..
    MainLookup,
    /// .. in every image, ..
    FlatLookup,
    /// .. or among weak definitions.
    WeakLookup,
    Threaded,
    /// A name without a NUL, or of more than 16,384 bytes.
    BadName,
    /// Two words share a byte.
    Twice,
}

fn bind_rule(fault: BindFault) -> Rule
    ensures { result ≡ spec.bind_rule (reason_of fault) }
{
    match fault {
        BindFault::BadUleb => Rule::BindBadUleb,
        BindFault::BadOpcode => Rule::BindBadOpcode,
        BindFault::BadType => Rule::BindBadType,
        BindFault::Place(PlaceFault::OutsideSegment) => Rule::BindOutsideSegment,
        BindFault::Place(PlaceFault::NotWritable) => Rule::BindNotWritable,
        BindFault::Place(PlaceFault::OutsideSection) => Rule::BindOutsideSection,
        BindFault::Place(PlaceFault::Misaligned) => Rule::BindMisaligned,
        BindFault::Place(PlaceFault::CrossesPage) => Rule::BindCrossesPage,
        BindFault::Place(PlaceFault::TooMany) => Rule::BindTooMany,
        BindFault::BeforeSet => Rule::BindBeforeSet,
        BindFault::MainLookup => Rule::BindMainLookup,
        BindFault::FlatLookup => Rule::BindFlatLookup,
        BindFault::WeakLookup => Rule::BindWeakLookup,
        BindFault::Threaded => Rule::BindThreaded,
        BindFault::BadName => Rule::BindBadName,
        BindFault::Twice => Rule::BindTwice,
    }
}

fn lazy_rule(fault: BindFault) -> Rule
    ensures { result ≡ spec.lazy_rule (reason_of fault) }
{
    match fault {
        BindFault::BadUleb => Rule::LazyBadUleb,
        BindFault::BadOpcode => Rule::LazyBadOpcode,
        BindFault::BadType => Rule::LazyBadType,
        BindFault::Place(PlaceFault::OutsideSegment) => Rule::LazyOutsideSegment,
        BindFault::Place(PlaceFault::NotWritable) => Rule::LazyNotWritable,
        BindFault::Place(PlaceFault::OutsideSection) => Rule::LazyOutsideSection,
        BindFault::Place(PlaceFault::Misaligned) => Rule::LazyMisaligned,
        BindFault::Place(PlaceFault::CrossesPage) => Rule::LazyCrossesPage,
        BindFault::Place(PlaceFault::TooMany) => Rule::LazyTooMany,
        BindFault::BeforeSet => Rule::LazyBeforeSet,
        BindFault::MainLookup => Rule::LazyMainLookup,
        BindFault::FlatLookup => Rule::LazyFlatLookup,
        BindFault::WeakLookup => Rule::LazyWeakLookup,
        BindFault::Threaded => Rule::LazyThreaded,
        BindFault::BadName => Rule::LazyBadName,
        BindFault::Twice => Rule::LazyTwice,
    }
}

impl BindFault {
    /// The rule of a stream that is broken.
    pub(crate) fn rule_in(self, kind: StreamKind) -> Rule
        ensures { result ≡ spec.rule_in kind (reason_of self) }
    {
        match kind {
            StreamKind::Bind => bind_rule(self),
            StreamKind::Lazy => lazy_rule(self),
        }
    }
}
