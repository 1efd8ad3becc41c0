//! The text of a certificate.

ghost use Rattle.std.specs.Prelude.{◌≡◌, ◌+◌, ◌<◌, ◌≤◌, ◌++◌, OnOk, IfOk, codes, drop, flat_map};
ghost use Rattle.vip_byte.specs.HexText.{hex2};
ghost use Rattle.vip_byte.specs.Room.{HasRoom};
ghost use Rattle.arrayvec.specs.ArrayVec.{array_vec_len};
ghost use Rattle.cycle_check.specs.Exits.{exit_line, instruction_part, obstacle_line, remarks_text};
ghost use Rattle.cycle_check.specs.Found.{bound_text, certificate_text, digit_text, fact_text, limit_text, line_text, registers_text, x_text};

use crate::exits::Exit;
use crate::fault::TimingObstacle;
use crate::grammar::{Bound, Fact, Line};
use std::alloc::{AllocError, Global};
use vip_byte::{Buffer, hex2, hex4, put, put_number};
use vip_isa::instruction_text;

// Appends the last hexadecimal digit of a byte.
fn put_digit(into: &mut Buffer, digit: u8)
    requires { HasRoom into.old.items 1 }
    ensures items { into.new.items ≡ into.old.items ++ digit_text digit }
    ensures len { array_vec_len into.new ≡ array_vec_len into.old + 1 }
{
    put(into, &[hex2(digit)[1]]);
}

// Appends `within ENTRY P K LIMIT`.
#[tactic(auto, unfolding(crate::specs::Found::bound_text))]
fn put_bound(into: &mut Buffer, bound: &Bound)
    requires { HasRoom into.old.items 80 }
    ensures { into.new.items ≡ into.old.items ++ bound_text bound.now }
{
    put(into, b"within ");
    put(into, &hex4(bound.entry));
    put_registers(into, bound);
    put_limit(into, bound.limit);
}

// Appends ` P K`.
fn put_registers(into: &mut Buffer, bound: &Bound)
    requires { HasRoom into.old.items 4 }
    ensures items { into.new.items ≡ into.old.items ++ registers_text bound.now }
    ensures len { array_vec_len into.new ≡ array_vec_len into.old + 4 }
{
    put(into, b" ");
    put_digit(into, bound.p);
    put(into, b" ");
    put_digit(into, bound.k);
}

// Appends ` LIMIT` and the end of the line.
fn put_limit(into: &mut Buffer, limit: u32)
    requires { HasRoom into.old.items 42 }
    ensures { into.new.items ≡ into.old.items ++ limit_text limit }
{
    put(into, b" ");
    put_number(into, u64::from(limit));
    put(into, b"\n");
}

// Appends `ADDRESS X BASE STEP FACT`.
#[tactic(auto, unfolding(crate::specs::Found::line_text))]
fn put_line(into: &mut Buffer, line: &Line)
    requires { HasRoom into.old.items 120 }
    ensures { into.new.items ≡ into.old.items ++ line_text line.now }
{
    put(into, &hex4(line.address));
    put(into, b" ");
    put_x(into, line.x);
    put(into, b" ");
    put_number(into, u64::from(line.base));
    put(into, b" ");
    put_number(into, u64::from(line.step));
    put(into, b" ");
    put_fact(into, line.fact);
    put(into, b"\n");
}

fn put_x(into: &mut Buffer, x: Option<u8>)
    requires { HasRoom into.old.items 1 }
    ensures items { into.new.items ≡ into.old.items ++ x_text x }
    ensures len { array_vec_len into.new ≤ array_vec_len into.old + 1 }
{
    match x {
        Some(x) => put_digit(into, x),
        None => put(into, b"-"),
    }
}

fn put_fact(into: &mut Buffer, fact: Fact)
    requires { HasRoom into.old.items 5 }
    ensures items { into.new.items ≡ into.old.items ++ fact_text fact }
    ensures len { array_vec_len into.new ≤ array_vec_len into.old + 5 }
{
    match fact {
        Fact::Any => put(into, b"any"),
        Fact::Copy => put(into, b"copy"),
        Fact::NonZero => put(into, b"some"),
        Fact::Is(byte) => {
            put(into, b"is ");
            put(into, &hex2(byte));
        }
    }
}

// Appends the line of an address to a text.
fn append_line(text: &mut Vec<u8>, line: &Line) -> Result<(), AllocError>
    ensures { OnOk result (text.new.items ≡ text.old.items ++ line_text line.now) }
{
    let mut buffer = Buffer::new();
    put_line(&mut buffer, line);
    text.extend_from_slice(buffer.as_slice())
}

// Appends the remark of an exit to a text.
fn append_remark(text: &mut Vec<u8>, exit: &Exit) -> Result<(), AllocError>
    ensures { OnOk result (text.new.items ≡ text.old.items ++ (codes "# " ++ exit_line exit.now)) }
{
    let mut buffer = Buffer::new();
    put(&mut buffer, b"# ");
    exit.put(&mut buffer);
    text.extend_from_slice(buffer.as_slice())
}

impl TimingObstacle {
    /// Appends its line: `Loop DEC R2 at 8005`, or `Opcode at 9000` outside the ROM.
    #[tactic(auto, unfolding(crate::specs::Exits::obstacle_line))]
    pub fn put(&self, into: &mut Buffer)
        requires { HasRoom into.old.items 50 }
        ensures { into.new.items ≡ into.old.items ++ obstacle_line self.now }
    {
        put(into, self.cause.name().as_bytes());
        self.put_instruction(into);
        put(into, b" at ");
        put(into, &hex4(self.address));
        put(into, b"\n");
    }

    // Appends its instruction behind a blank, where it lies in the ROM.
    fn put_instruction(&self, into: &mut Buffer)
        requires { HasRoom into.old.items 40 }
        ensures items { into.new.items ≡ into.old.items ++ instruction_part self.now.address self.now.bytes }
        ensures room { HasRoom into.new.items 10 }
    {
        if (0x8000..0x8800).contains(&self.address) {
            put(into, b" ");
            put(into, instruction_text(self.address, self.bytes).as_slice());
        }
    }
}

// The text of a certificate.
fn certificate_text(alloc: Global, bound: &Bound, lines: &[Line]) -> Result<Vec<u8>, AllocError>
    ensures { IfOk result (λ text. text.items ≡ certificate_text bound.now lines.now) }
{
    let mut first = Buffer::new();
    put_bound(&mut first, bound);
    let mut text = Vec::from_slice(alloc, first.as_slice())?;
    for line in lines {
        append_line(&mut text, line)?;
    }
    Ok(text)
}

/// The text of a certificate, and behind it a remark for each exit.
pub fn text_of(
    alloc: Global,
    bound: &Bound,
    lines: &[Line],
    exits: &[Exit],
) -> Result<Vec<u8>, AllocError>
    ensures { IfOk result (λ text. text.items ≡ certificate_text bound.now lines.now ++ remarks_text exits.now) }
{
    let mut text = certificate_text(alloc, bound, lines)?;
    for exit in exits {
        append_remark(&mut text, exit)?;
    }
    Ok(text)
}
