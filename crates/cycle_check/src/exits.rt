//! The exits of a certificate: where its routine is left.

ghost use Rattle.std.specs.Prelude.{◌≡◌, ◌%◌, ◌++◌, OnOk, IfOk, Some, None, option_map};
ghost use Rattle.vip_byte.specs.Room.{HasRoom};
ghost use Rattle.cycle_check.specs.Closed.{ways_at};
ghost use Rattle.cycle_check.specs.Exits.{end_text, exit_line, exit_on, exits, exits_at, exits_with, in_order, return_text};
ghost use Rattle.cycle_check.specs.Reading.{AreRising};

use crate::closed::{bytes_at, instruction_at, lets_through, line_at, line_behind, ways_from};
use crate::grammar::{Bound, Line};
use crate::table::Way;
use std::alloc::{AllocError, Global};
use vip_byte::{Buffer, hex4, put};
use vip_isa::instruction_text;

/// An exit: an address from which the routine is left, the bytes there, and the next address, which is none where another register is the program
/// counter then.
#[derive(Clone, Copy)]
pub struct Exit {
    pub address: u16,
    pub bytes: [u8; 3],
    pub to: Option<u16>,
    /// Whether another register is the program counter then, and the address behind has a line: where the routine's register is it again, it goes on there.
    pub may_return: bool,
}

impl Exit {
    /// Appends its line: `leaves at 8007 by SEP R4`, `leaves at 8046 by SEP R5, and may come back`, or `leaves at 8002 to 8003`.
    #[tactic(auto, unfolding(crate::specs::Exits::exit_line))]
    pub fn put(&self, into: &mut Buffer)
        requires { HasRoom into.old.items 60 }
        ensures { into.new.items ≡ into.old.items ++ exit_line self.now }
    {
        put(into, b"leaves at ");
        put(into, &hex4(self.address));
        self.put_end(into);
        put(into, b"\n");
    }

    // Appends where it leads.
    fn put_end(&self, into: &mut Buffer)
        requires { HasRoom into.old.items 40 }
        ensures items { into.new.items ≡ into.old.items ++ end_text self.now self.now.to }
        ensures room { HasRoom into.new.items 1 }
    {
        match self.to {
            Some(to) => {
                put(into, b" to ");
                put(into, &hex4(to));
            }
            None => {
                put(into, b" by ");
                put(into, instruction_text(self.address, self.bytes).as_slice());
                put(into, return_text(self.may_return));
            }
        }
    }
}

// What is told of an exit behind its instruction.
fn return_text(may_return: bool) -> &'static [u8]
    ensures { result.now ≡ return_text may_return }
{
    if may_return {
        b", and may come back"
    } else {
        b""
    }
}

/// The exits of some lines, by address and next address.
pub fn exits_of(
    alloc: Global,
    rom: &[u8],
    bound: &Bound,
    lines: &[Line],
) -> Result<Vec<Exit>, AllocError>
    requires { AreRising lines.now }
    ensures { IfOk result (λ found. found.items ≡ exits rom.now bound.now lines.now) }
{
    let mut found = Vec::new(alloc);
    for line in lines {
        push_exits(&mut found, rom, bound, lines, line)?;
    }
    Ok(found)
}

// Appends the exits of a line, by next address.
#[tactic(auto, unfolding(crate::specs::Exits::exits_at))]
fn push_exits(
    found: &mut Vec<Exit>,
    rom: &[u8],
    bound: &Bound,
    lines: &[Line],
    line: &Line,
) -> Result<(), AllocError>
    requires { AreRising lines.now }
    ensures { OnOk result (found.new.items ≡ found.old.items ++ exits_at rom.now bound.now lines.now line.now) }
{
    let instruction = instruction_at(rom, line.address);
    let ways = ways_from(bound, line.address, &instruction);
    let first = exit_on(rom, lines, line, ways.first);
    let second = match ways.second {
        Some(second) => exit_on(rom, lines, line, second),
        None => None,
    };
    push_in_order(found, first, second)
}

// Appends one or two exits by their next address, each once.
fn push_in_order(
    found: &mut Vec<Exit>,
    one: Option<Exit>,
    other: Option<Exit>,
) -> Result<(), AllocError>
    ensures { OnOk result (found.new.items ≡ found.old.items ++ in_order one other) }
{
    let Some(first) = one else {
        return push_some(found, other);
    };
    match other {
        Some(second) => push_both(found, first, second),
        None => push_some(found, one),
    }
}

fn push_some(found: &mut Vec<Exit>, exit: Option<Exit>) -> Result<(), AllocError>
    ensures { OnOk result (found.new.items ≡ found.old.items ++ in_order None exit) }
{
    match exit {
        Some(exit) => found.extend_from_slice(&[exit]),
        None => Ok(()),
    }
}

fn push_both(found: &mut Vec<Exit>, one: Exit, other: Exit) -> Result<(), AllocError>
    ensures { OnOk result (found.new.items ≡ found.old.items ++ in_order (Some one) (Some other)) }
{
    let (next, behind) = (one.to.unwrap_or(0), other.to.unwrap_or(0));
    if next == behind {
        found.extend_from_slice(&[one])
    } else if next < behind {
        found.extend_from_slice(&[one, other])
    } else {
        found.extend_from_slice(&[other, one])
    }
}

// The exit on a way: the fact of its line lets it through, and no line is at its end.
#[tactic(auto, unfolding(crate::specs::Exits::exit_on))]
fn exit_on(rom: &[u8], lines: &[Line], line: &Line, way: Way) -> Option<Exit>
    requires { AreRising lines.now }
    ensures { result ≡ exit_on rom.now lines.now line.now way }
{
    if lets_through(line.fact, way.when) && line_behind(lines, way).is_none() {
        Some(Exit {
            address: line.address,
            bytes: bytes_at(rom, line.address),
            to: low_word(way.to),
            may_return: way.to.is_none() && line_at(lines, u32::from(line.address) + 1).is_some(),
        })
    } else {
        None
    }
}

// An address modulo 65,536, which no address passes that a line may lead to.
fn low_word(to: Option<u32>) -> Option<u16>
    ensures { result ≡ option_map (λ to. to % 65536) to }
{
    match to {
        Some(to) => Some((to % 65_536) as u16),
        None => None,
    }
}
