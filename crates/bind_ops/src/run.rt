// What one opcode records, and what is set behind it.
ghost use Rattle.std.specs.Prelude.{◌≡◌, ◌++◌, ◌+◌, ◌*◌, length, map, option_map, IfOk, OnOk};
ghost use Rattle.dsc_base.specs.Refusals.{Refuses};
ghost use Rattle.macho_image.specs.Places.{wrap, unless};
ghost use Rattle.macho_image.specs.Runs.{progression, first_fault};
ghost use Rattle.macho_image.specs.Streams.{site_in};
ghost use Rattle.bind_ops.specs.Faults.{rule_in};
ghost use Rattle.bind_ops.specs.Binds as spec;
ghost use Rattle.bind_ops.specs.Steps.Effects.{reason_of, because, settings_of, offsets_of, state_after};

use crate::fault::BindFault;
use crate::opcode::Effect;
use crate::symbol::Symbol;
use crate::{Bind, StreamKind};
use dsc_base::{Fault, Site};
use macho_image::{Image, locate};

/// What is set: the segment, the offset of the next record from its start, and what words are bound to.
#[derive(Drop)]
pub(crate) struct State<'a> {
    pub segment: Option<u32>,
    pub offset: u64,
    pub ordinal: Option<u64>,
    pub symbol: Option<Symbol<'a>>,
    pub addend: i64,
}

/// The bind at an offset, as things are set, or why a record there is refused, after so many of the stream.
#[tactic(auto, unfolding(crate::specs::Binds::record_fault))]
fn bind_at<'a>(
    image: &Image<'_>,
    state: &State<'a>,
    offset: u64,
    before: usize,
) -> Result<Bind<'a>, BindFault>
    ensures { because result ≡ unless (spec.record_fault image.now (settings_of state.now) offset before) (spec.bound_at image.now (settings_of state.now) offset) }
{
    let Some(ordinal) = state.ordinal else {
        return Err(BindFault::BeforeSet);
    };
    let Some(symbol) = &state.symbol else {
        return Err(BindFault::BeforeSet);
    };
    let Some(_) = state.segment else {
        return Err(BindFault::BeforeSet);
    };
    match locate(image, state.segment, offset, before) {
        Ok(at) => Ok(Bind {
            at,
            ordinal,
            name: symbol.name,
            weak: symbol.weak,
            addend: state.addend,
        }),
        Err(fault) => Err(BindFault::Place(fault)),
    }
}

/// A fault of the opcode at a place.
pub(crate) fn broken(kind: StreamKind, fault: BindFault, at: usize) -> Fault
    ensures { result ≡ Fault.Broken (site_in (rule_in kind) at (reason_of fault)) }
{
    Fault::Broken(Site {
        rule: fault.rule_in(kind),
        at: at as u64,
    })
}

/// So many records, each a step behind the one before it, and the offset a step behind the last. It ends at
/// the first one that is refused, so that what it takes is bounded by the records that are accepted,
/// whatever the count.
fn record<'a>(
    image: &Image<'_>,
    kind: StreamKind,
    state: &State<'a>,
    count: u64,
    step: u64,
    at: usize,
    out: &mut Vec<Bind<'a>>,
) -> Result<u64, Fault>
    ensures moved { IfOk result (λ offset. offset ≡ wrap (state.now.offset + count * step)) }
    ensures added { OnOk result (out.new.items ≡ out.old.items ++ map (spec.bound_at image.now (settings_of state.now)) (progression state.now.offset step count)) }
    ensures cause { Refuses (option_map (site_in (rule_in kind) at) (first_fault (spec.record_fault image.now (settings_of state.now)) (length out.old.items) (progression state.now.offset step count))) result }
{
    let mut offset = state.offset;
    for _ in 0..count {
        match bind_at(image, state, offset, out.len()) {
            Ok(bind) => out.push(bind)?,
            Err(fault) => return Err(broken(kind, fault, at)),
        }
        offset = offset.wrapping_add(step);
    }
    Ok(offset)
}

/// Appends what the opcode at a place records, by what it does, and sets what it sets.
pub(crate) fn apply<'a>(
    image: &Image<'_>,
    kind: StreamKind,
    state: &mut State<'a>,
    effect: Effect<'a>,
    at: usize,
    out: &mut Vec<Bind<'a>>,
) -> Result<(), Fault>
    ensures moved { OnOk result (state.new ≡ state_after state.old effect.entry) }
    ensures added { OnOk result (out.new.items ≡ out.old.items ++ map (spec.bound_at image.now (settings_of state.old)) (offsets_of state.old effect.entry)) }
    ensures cause { Refuses (option_map (site_in (rule_in kind) at) (first_fault (spec.record_fault image.now (settings_of state.old)) (length out.old.items) (offsets_of state.old effect.entry))) result }
{
    match effect {
        Effect::Ends | Effect::SetsPointerType => {}
        Effect::SetsOrdinal(ordinal) => state.ordinal = Some(ordinal),
        Effect::SetsSymbol(symbol) => state.symbol = Some(symbol),
        Effect::SetsAddend(addend) => state.addend = addend,
        Effect::SetsPlace { segment, offset } => {
            state.segment = Some(segment);
            state.offset = offset;
        }
        Effect::Advances { distance } => state.offset = state.offset.wrapping_add(distance),
        Effect::Records { count, step } => {
            state.offset = record(image, kind, state, count, step, at, out)?;
        }
    }
    Ok(())
}
