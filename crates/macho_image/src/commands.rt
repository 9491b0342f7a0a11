// The load commands of a header that keeps the rules, one after the other.
ghost use Rattle.std.specs.Prelude.{◌≡◌, ◌≤◌, None, true, drop, length, take};
ghost use Rattle.macho_image.specs.Macho.{loads_of, size_of};
ghost use Rattle.macho_image.specs.Rules.{begins_whole, breaks_command_shape};

use crate::bytes::{behind, number32};
use crate::command::Command;
use crate::format::{COMMAND_CMD, COMMAND_CMDSIZE, HEADER_NCMDS, SIZE_OF_HEADER};
use crate::image::Image;
use std::marker::Model;

/// The load commands of a header that are left, in their order.
#[derive(Drop)]
pub struct Commands<'a> {
    rest: &'a [u8],
    left: u32,
    at: u64,
}

impl<'a> Model for Commands<'a> {
    ghost use Rattle.std.specs.Prelude.{List};
    ghost use Rattle.macho_image.specs.Records.{Load};
    ghost use Rattle.macho_image.specs.Macho.{commands_in, loads_from};
    ghost use Rattle.macho_image.specs.Walk.{AreWhole};

    ghost Value = { List Load };

    ghost view = { λ c. loads_from c.at (commands_in c.left c.rest.now) };

    ghost invariant = { λ c. AreWhole c.left c.at c.rest.now };
}

/// The command at the front of the bytes, at an offset of its header, and what is behind it.
#[tactic(auto, using(crate::proofs::Splitting::whole_piece))]
fn split_first<'a>(bytes: &'a [u8], at: u64) -> (Command<'a>, &'a [u8])
    requires { begins_whole bytes.now ≡ true }
    ensures first { result.0 ≡ record { at = at; bytes = take (size_of bytes.now) bytes.now } }
    ensures behind { result.1.now ≡ drop (size_of bytes.now) bytes.now }
{
    let size = number32(bytes, COMMAND_CMDSIZE) as usize;
    let (front, rest) = bytes.split_at(size);
    let command = Command {
        at,
        number: number32(front, COMMAND_CMD),
        bytes: front,
    };
    (command, rest)
}

impl<'a> Iterator for Commands<'a> {
    ghost use Rattle.std.specs.Iterator.{YieldsFirst, item_count};

    type Item = Command<'a>;

    ghost next_gives = { YieldsFirst (λ left. left) };

    ghost remaining = { item_count (λ left. left) };

    fn next(&mut self) -> Option<Command<'a>> {
        let left = self.left.checked_sub(1)?;
        let (command, rest) = split_first(self.rest, self.at);
        self.left = left;
        self.at += command.bytes.len() as u64;
        self.rest = rest;
        Some(command)
    }
}

impl<'a> Commands<'a> {
    /// The load commands behind a Mach-O header whose commands have their shapes, as those of an image
    /// have. It takes no memory.
    pub fn new(header: &'a [u8]) -> Commands<'a>
        requires front { 32 ≤ length header.now }
        requires shape { breaks_command_shape header.now ≡ None }
        ensures { result ≡ loads_of header.entry.now }
    {
        Commands {
            rest: behind(header, SIZE_OF_HEADER as u64),
            left: number32(header, HEADER_NCMDS),
            at: SIZE_OF_HEADER as u64,
        }
    }
}

impl<'a> Image<'a> {
    /// The load commands of the image, in their order.
    pub fn commands(&self) -> Commands<'a>
        ensures { result ≡ loads_of self.now.header }
    {
        self.facts();
        Commands::new(self.header)
    }
}
