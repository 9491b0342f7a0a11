// Rebase opcodes, read one at a time.
ghost use Rattle.std.specs.Prelude.{◌≡◌, ◌<◌, ◌≤◌, ◌+◌, length, IfOk};
ghost use Rattle.rebase_ops.specs.Opcodes.{operand_at, opcode_at, opcode_with};
ghost use Rattle.rebase_ops.specs.Steps.Effects.{effect_read};
ghost use Rattle.macho_image.specs.Places.{wrap};

use dsc_base::{Rule, read_uleb};

/// The size of a pointer, which is the word that a record names.
const POINTER: u64 = 8;

/// `REBASE_TYPE_POINTER`, the only type that a 64-bit image has.
const POINTER_TYPE: u8 = 1;

/// The numbers of the opcodes, the high four bits of the `REBASE_OPCODE_` constants.
const DONE: u8 = 0;

const SET_TYPE_IMM: u8 = 1;

const SET_SEGMENT_AND_OFFSET_ULEB: u8 = 2;

const ADD_ADDR_ULEB: u8 = 3;

const ADD_ADDR_IMM_SCALED: u8 = 4;

const DO_REBASE_IMM_TIMES: u8 = 5;

const DO_REBASE_ULEB_TIMES: u8 = 6;

const DO_REBASE_ADD_ADDR_ULEB: u8 = 7;

const DO_REBASE_ULEB_TIMES_SKIPPING_ULEB: u8 = 8;

/// What an opcode does. Distances and steps count in bytes, modulo 2^64.
#[derive(Clone, Copy)]
pub(crate) enum Effect {
    /// Ends the stream.
    Ends,
    SetsPointerType,
    /// Begins at an offset from the start of a segment, which is given by its number.
    SetsPlace { segment: u32, offset: u64 },
    /// Moves on without a record.
    Advances { distance: u64 },
    /// Records so many words, each a step behind the one before it, and moves a step behind the last.
    Records { count: u64, step: u64 },
}

/// An operand and the place behind it.
#[tactic(auto, unfolding(crate::specs::Opcodes::operand_at))]
fn operand(stream: &[u8], at: usize) -> Result<(u64, usize), Rule>
    requires { at ≤ length stream.now }
    ensures value { result ≡ operand_at stream.now at }
    ensures within { IfOk result (λ p. (at ≤ p.1) × (p.1 ≤ length stream.now)) }
{
    match read_uleb(stream, at) {
        Ok(read) => Ok(read),
        Err(_) => Err(Rule::RebaseBadUleb),
    }
}

/// So many words, each so many bytes behind the end of the one before it.
fn records(count: u64, skip: u64) -> Effect
    ensures { result ≡ Effect.Records count (wrap (8 + skip)) }
{
    Effect::Records {
        count,
        step: POINTER.wrapping_add(skip),
    }
}

/// What the opcode with a number and an immediate does, whose operands begin at a place, and the place behind them.
#[tactic(auto, unfolding(crate::specs::Opcodes::opcode_with))]
fn opcode_with(number: u8, immediate: u8, stream: &[u8], at: usize) -> Result<(Effect, usize), Rule>
    requires { at ≤ length stream.now }
    ensures value { result ≡ effect_read (opcode_with number immediate stream.now at) }
    ensures within { IfOk result (λ p. (at ≤ p.1) × (p.1 ≤ length stream.now)) }
{
    match number {
        DONE => Ok((Effect::Ends, at)),
        SET_TYPE_IMM if immediate == POINTER_TYPE => Ok((Effect::SetsPointerType, at)),
        SET_TYPE_IMM => Err(Rule::RebaseBadType),
        SET_SEGMENT_AND_OFFSET_ULEB => {
            let (offset, next) = operand(stream, at)?;
            let segment = u32::from(immediate);
            Ok((Effect::SetsPlace { segment, offset }, next))
        }
        ADD_ADDR_ULEB => {
            let (distance, next) = operand(stream, at)?;
            Ok((Effect::Advances { distance }, next))
        }
        ADD_ADDR_IMM_SCALED => {
            let distance = POINTER * u64::from(immediate);
            Ok((Effect::Advances { distance }, at))
        }
        DO_REBASE_IMM_TIMES => Ok((records(u64::from(immediate), 0), at)),
        DO_REBASE_ULEB_TIMES => {
            let (count, next) = operand(stream, at)?;
            Ok((records(count, 0), next))
        }
        DO_REBASE_ADD_ADDR_ULEB => {
            let (skip, next) = operand(stream, at)?;
            Ok((records(1, skip), next))
        }
        DO_REBASE_ULEB_TIMES_SKIPPING_ULEB => {
            let (count, skip_at) = operand(stream, at)?;
            let (skip, next) = operand(stream, skip_at)?;
            Ok((records(count, skip), next))
        }
        _ => Err(Rule::RebaseBadOpcode),
    }
}

/// What the opcode at a place does and the place behind it, or the rule that it breaks.
#[tactic(auto, unfolding(crate::specs::Opcodes::opcode_at))]
pub(crate) fn read_opcode(stream: &[u8], at: usize) -> Result<(Effect, usize), Rule>
    requires { at < length stream.now }
    ensures value { result ≡ effect_read (opcode_at stream.now at) }
    ensures within { IfOk result (λ p. (at < p.1) × (p.1 ≤ length stream.now)) }
{
    let byte = stream[at];
    opcode_with(byte / 16, byte % 16, stream, at + 1)
}
