// The name of a symbol in a stream.
ghost use Rattle.std.specs.Prelude.{◌≡◌, ◌≤◌, ◌<◌, ◌+◌, nat_eq, length, position, IfOk};
ghost use Rattle.bind_ops.specs.Opcodes.{symbol_at};
ghost use Rattle.bind_ops.specs.Steps.Effects.{because};

use crate::fault::BindFault;
use dsc_base::NAME_LIMIT;
use std::marker::Model;

/// A symbol that words are bound to, which may be absent where it is weak.
#[derive(Drop)]
pub(crate) struct Symbol<'a> {
    pub name: &'a [u8],
    pub weak: bool,
}

impl<'a> Model for Symbol<'a> {
    ghost use Rattle.bind_ops.specs.Records.{SymbolName};

    ghost Value = { SymbolName };

    ghost view = { λ s. record { name = s.name.now; weak = s.weak } };
}

fn nul_at(bytes: &[u8]) -> Option<usize>
    ensures { result ≡ position (λ x. nat_eq x 0) bytes.now }
{
    bytes.iter().position(|x| *x == 0)
}

/// The symbol whose name begins at a place and ends before its NUL, and the place behind that.
#[tactic(auto, unfolding(crate::specs::Opcodes::symbol_at))]
pub(crate) fn read_symbol<'a>(
    stream: &'a [u8],
    at: usize,
    weak: bool,
) -> Result<(Symbol<'a>, usize), BindFault>
    requires { at ≤ length stream.now }
    ensures value { because result ≡ symbol_at weak stream.entry.now at }
    ensures within { IfOk result (λ p. (at < p.1) × (p.1 ≤ length stream.entry.now)) }
{
    let rest = &stream[at..];
    match nul_at(rest) {
        Some(len) if len <= NAME_LIMIT => {
            let name = &rest[..len];
            Ok((Symbol { name, weak }, at + len + 1))
        }
        _ => Err(BindFault::BadName),
    }
}
