// The hexadecimal digits of numbers of up to 128 bits; a contract of `format!` speaks of 64 bits alone.
ghost use Rattle.std.specs.Prelude.{◌≡◌, ◌<◌, ◌++◌, [], false, IfOk, OnOk, string_bytes};
ghost use Rattle.std.specs.Fmt.{digit_glyph, digits_onto};
ghost use Rattle.dsc_tool.specs.Texts.{hex};

use dsc_base::NoMemory;
use std::alloc::Global;

/// The number in lower-case hexadecimal digits, without zeros before them.
pub(crate) fn wide_hex(alloc: Global, number: u128) -> Result<String, NoMemory>
    ensures { IfOk result (λ text. string_bytes text ≡ hex number) }
{
    let mut text = String::new(alloc);
    push_digits(&mut text, number, 64)?;
    Ok(text)
}

/// Appends the last digits of the number, at most as many as there is room for.
fn push_digits(text: &mut String, number: u128, room: u32) -> Result<(), NoMemory>
    ensures { OnOk result (string_bytes text.new ≡ string_bytes text.old ++ digits_onto room 16 false number []) }
{
    if room == 0 {
        return Ok(());
    }
    let rest = number / 16;
    if rest > 0 {
        push_digits(text, rest, room - 1)?;
    }
    text.push(hex_digit((number % 16) as u8))?;
    Ok(())
}

fn hex_digit(digit: u8) -> char
    requires { digit < 16 }
    ensures { result ≡ digit_glyph false digit }
{
    let byte = if digit < 10 { b'0' + digit } else { 87 + digit };
    char::from(byte)
}
