// Bind opcodes, read one at a time.
ghost use Rattle.std.specs.Prelude.{◌≡◌, ◌<◌, ◌≤◌, ◌+◌, length, IfOk};
ghost use Rattle.bind_ops.specs.Opcodes as spec;
ghost use Rattle.bind_ops.specs.Steps.Effects.{because, effect_read};
ghost use Rattle.macho_image.specs.Places.{wrap};

use crate::fault::BindFault;
use crate::symbol::{Symbol, read_symbol};
use dsc_base::{read_sleb, read_uleb};

/// The size of a pointer, which is the word that a record names.
const POINTER: u64 = 8;

/// `BIND_TYPE_POINTER`, the only type that a 64-bit image has.
const POINTER_TYPE: u8 = 1;

/// `BIND_SYMBOL_FLAGS_WEAK_IMPORT` is the lowest bit of the flags.
const FLAGS_BELOW_WEAK_IMPORT: u8 = 2;

/// The numbers of the opcodes, the high four bits of the `BIND_OPCODE_` constants.
const DONE: u8 = 0;

const SET_DYLIB_ORDINAL_IMM: u8 = 1;

const SET_DYLIB_ORDINAL_ULEB: u8 = 2;

const SET_DYLIB_SPECIAL_IMM: u8 = 3;

const SET_SYMBOL_TRAILING_FLAGS_IMM: u8 = 4;

const SET_TYPE_IMM: u8 = 5;

const SET_ADDEND_SLEB: u8 = 6;

const SET_SEGMENT_AND_OFFSET_ULEB: u8 = 7;

const ADD_ADDR_ULEB: u8 = 8;

const DO_BIND: u8 = 9;

const DO_BIND_ADD_ADDR_ULEB: u8 = 10;

const DO_BIND_ADD_ADDR_IMM_SCALED: u8 = 11;

const DO_BIND_ULEB_TIMES_SKIPPING_ULEB: u8 = 12;

const THREADED: u8 = 13;

/// The low four bits of the `BIND_SPECIAL_DYLIB_` numbers, which are 0 to -3.
const SELF: u8 = 0;

const MAIN_EXECUTABLE: u8 = 0xF;

const FLAT_LOOKUP: u8 = 0xE;

const WEAK_LOOKUP: u8 = 0xD;

/// What an opcode does. Distances and steps count in bytes, modulo 2^64.
#[derive(Drop)]
pub(crate) enum Effect<'a> {
    /// Ends the bind stream, and does nothing in the lazy one.
    Ends,
    SetsOrdinal(u64),
    SetsSymbol(Symbol<'a>),
    SetsPointerType,
    SetsAddend(i64),
    /// Begins at an offset from the start of a segment, which is given by its number.
    SetsPlace { segment: u32, offset: u64 },
    /// Moves on without a record.
    Advances { distance: u64 },
    /// Records so many words, each a step behind the one before it, and moves a step behind the last.
    Records { count: u64, step: u64 },
}

/// An operand and the place behind it.
#[tactic(auto, unfolding(crate::specs::Opcodes::operand_at))]
fn operand(stream: &[u8], at: usize) -> Result<(u64, usize), BindFault>
    requires { at ≤ length stream.now }
    ensures value { because result ≡ spec.operand_at stream.now at }
    ensures within { IfOk result (λ p. (at ≤ p.1) × (p.1 ≤ length stream.now)) }
{
    match read_uleb(stream, at) {
        Ok(read) => Ok(read),
        Err(_) => Err(BindFault::BadUleb),
    }
}

/// The same of one with a sign.
#[tactic(auto, unfolding(crate::specs::Opcodes::signed_operand_at))]
fn signed_operand(stream: &[u8], at: usize) -> Result<(i64, usize), BindFault>
    requires { at ≤ length stream.now }
    ensures value { because result ≡ spec.signed_operand_at stream.now at }
    ensures within { IfOk result (λ p. (at ≤ p.1) × (p.1 ≤ length stream.now)) }
{
    match read_sleb(stream, at) {
        Ok(read) => Ok(read),
        Err(_) => Err(BindFault::BadUleb),
    }
}

/// The ordinal of a special number: only the image itself is accepted.
fn special_ordinal(immediate: u8) -> Result<u64, BindFault>
    ensures { because result ≡ spec.special_ordinal immediate }
{
    match immediate {
        SELF => Ok(0),
        MAIN_EXECUTABLE => Err(BindFault::MainLookup),
        FLAT_LOOKUP => Err(BindFault::FlatLookup),
        WEAK_LOOKUP => Err(BindFault::WeakLookup),
        _ => Err(BindFault::BadOpcode),
    }
}

/// So many words, each so many bytes behind the end of the one before it.
fn records<'a>(count: u64, skip: u64) -> Effect<'a>
    ensures { result ≡ Effect.Records count (wrap (8 + skip)) }
{
    Effect::Records {
        count,
        step: POINTER.wrapping_add(skip),
    }
}

/// What an opcode does that sets what words are bound to.
#[tactic(auto, unfolding(crate::specs::Opcodes::target_with))]
fn target_with<'a>(
    number: u8,
    immediate: u8,
    stream: &'a [u8],
    at: usize,
) -> Result<(Effect<'a>, usize), BindFault>
    requires { at ≤ length stream.now }
    ensures value { because result ≡ effect_read (spec.target_with number immediate stream.entry.now at) }
    ensures within { IfOk result (λ p. (at ≤ p.1) × (p.1 ≤ length stream.entry.now)) }
{
    match number {
        SET_DYLIB_ORDINAL_IMM => Ok((Effect::SetsOrdinal(u64::from(immediate)), at)),
        SET_DYLIB_ORDINAL_ULEB => {
            let (ordinal, next) = operand(stream, at)?;
            Ok((Effect::SetsOrdinal(ordinal), next))
        }
        SET_DYLIB_SPECIAL_IMM => {
            let ordinal = special_ordinal(immediate)?;
            Ok((Effect::SetsOrdinal(ordinal), at))
        }
        SET_SYMBOL_TRAILING_FLAGS_IMM => {
            let weak = immediate % FLAGS_BELOW_WEAK_IMPORT == 1;
            match read_symbol(stream, at, weak) {
                Ok((symbol, next)) => Ok((Effect::SetsSymbol(symbol), next)),
                Err(fault) => Err(fault),
            }
        }
        SET_TYPE_IMM if immediate == POINTER_TYPE => Ok((Effect::SetsPointerType, at)),
        SET_TYPE_IMM => Err(BindFault::BadType),
        _ => {
            let (addend, next) = signed_operand(stream, at)?;
            Ok((Effect::SetsAddend(addend), next))
        }
    }
}

/// What an opcode does that moves to the next word, or records words.
#[tactic(auto, unfolding(crate::specs::Opcodes::place_with))]
fn place_with<'a>(
    number: u8,
    immediate: u8,
    stream: &'a [u8],
    at: usize,
) -> Result<(Effect<'a>, usize), BindFault>
    requires { at ≤ length stream.now }
    ensures value { because result ≡ effect_read (spec.place_with number immediate stream.entry.now at) }
    ensures within { IfOk result (λ p. (at ≤ p.1) × (p.1 ≤ length stream.entry.now)) }
{
    match number {
        SET_SEGMENT_AND_OFFSET_ULEB => {
            let (offset, next) = operand(stream, at)?;
            let segment = u32::from(immediate);
            Ok((Effect::SetsPlace { segment, offset }, next))
        }
        ADD_ADDR_ULEB => {
            let (distance, next) = operand(stream, at)?;
            Ok((Effect::Advances { distance }, next))
        }
        DO_BIND => Ok((records(1, 0), at)),
        DO_BIND_ADD_ADDR_ULEB => {
            let (skip, next) = operand(stream, at)?;
            Ok((records(1, skip), next))
        }
        DO_BIND_ADD_ADDR_IMM_SCALED => Ok((records(1, POINTER * u64::from(immediate)), at)),
        DO_BIND_ULEB_TIMES_SKIPPING_ULEB => {
            let (count, skip_at) = operand(stream, at)?;
            let (skip, next) = operand(stream, skip_at)?;
            Ok((records(count, skip), next))
        }
        THREADED => Err(BindFault::Threaded),
        _ => Err(BindFault::BadOpcode),
    }
}

/// What the opcode with a number and an immediate, whose operands begin at a place, does, and the place behind them.
#[tactic(auto, unfolding(crate::specs::Opcodes::opcode_with))]
fn opcode_with<'a>(
    number: u8,
    immediate: u8,
    stream: &'a [u8],
    at: usize,
) -> Result<(Effect<'a>, usize), BindFault>
    requires { at ≤ length stream.now }
    ensures value { because result ≡ effect_read (spec.opcode_with number immediate stream.entry.now at) }
    ensures within { IfOk result (λ p. (at ≤ p.1) × (p.1 ≤ length stream.entry.now)) }
{
    if number == DONE {
        Ok((Effect::Ends, at))
    } else if number <= SET_ADDEND_SLEB {
        target_with(number, immediate, stream, at)
    } else {
        place_with(number, immediate, stream, at)
    }
}

/// What the opcode at a place does and the place behind it, or why it is refused.
#[tactic(auto, unfolding(crate::specs::Opcodes::opcode_at))]
pub(crate) fn read_opcode<'a>(stream: &'a [u8], at: usize) -> Result<(Effect<'a>, usize), BindFault>
    requires { at < length stream.now }
    ensures value { because result ≡ effect_read (spec.opcode_at stream.entry.now at) }
    ensures within { IfOk result (λ p. (at < p.1) × (p.1 ≤ length stream.entry.now)) }
{
    let byte = stream[at];
    opcode_with(byte / 16, byte % 16, stream, at + 1)
}
