//! The 256 opcodes of the CDP1802: what each byte means as an instruction, how it is written, how
//! long it is and how long it takes. The crate stands on `machine`, whose tables say of each opcode its
//! kind, its number and its machine cycles, and on the digits of `vip_byte`. The layers above may rely on
//! this: `encode(&decode(byte)) == byte` for each byte, `operands_in`, `size` and `mnemonic` are those of the
//! rows in `specs/Rows.antt`, `cycles` those of the definition, and `instruction_text` has the exact text
//! of `specs/Texts.antt`. The standard is the "Instruction Summary"
//! of RCA's data sheet of the CDP1802. Opcode 68, which the data sheet leaves out, is `Undefined`:
//! one byte, two cycles, written `DB` (this project's profile).
#![tactic(auto)]

ghost use Rattle.std.specs.Prelude.{◌≡◌, ◌↔◌, IsTrue};
ghost use Rattle.machine.specs.Opcodes.{kind_of, cycles_of};
ghost use Rattle.vip_isa.specs.Rows.{size_of, mnemonic_of, decoded, opcode_of, IsValid};

mod rows;
mod table;
mod text;

use crate::rows::{first_opcode, greatest, least, mnemonic_in, size_in};
pub use crate::rows::{Operands, operands_in};
use crate::table::{kind_at, number_at};
pub use crate::text::{InstructionText, instruction_text};
pub use machine::Kind;

/// An opcode by its parts.
#[derive(Clone, Copy)]
pub struct Op {
    /// What the opcode does.
    pub kind: Kind,
    /// The number in the opcode's low half: N for the kinds that name the register R(N), the port
    /// 1 to 7 for OUT and INP, else 0.
    pub n: u8,
}

impl Op {
    /// Whether the number is one that the kind can have: 1 to 15 for LDN, 0 to 15 for the other kinds
    /// that name a register, 1 to 7 for OUT and INP, and 0 for all others.
    pub fn valid(&self) -> bool
        ensures { IsTrue result ↔ IsValid self.now }
    {
        least(self.kind) <= self.n && self.n <= greatest(self.kind)
    }
}

/// The parts of an opcode.
pub fn decode(byte: u8) -> Op
    ensures parts { result ≡ decoded byte }
    ensures valid { IsValid result }
    ensures opcode { opcode_of result ≡ byte }
{
    Op {
        kind: kind_at(byte),
        n: number_at(byte),
    }
}

/// The opcode that has these parts: `encode(&decode(byte)) == byte`.
pub fn encode(op: &Op) -> u8
    requires { IsValid op.now }
    ensures { result ≡ opcode_of op.now }
{
    first_opcode(op.kind) + op.n
}

/// The machine cycles of an instruction with this opcode: 3 for C0 to CF, 2 for all others.
pub fn cycles(byte: u8) -> u8
    ensures { result ≡ cycles_of byte }
{
    if byte / 16 == 0xC { 3 } else { 2 }
}

/// The size in bytes of an instruction with this opcode: 1, 2 or 3.
pub fn size(byte: u8) -> u8
    ensures { result ≡ size_of (kind_of byte) }
{
    size_in(kind_at(byte))
}

/// The mnemonic of an opcode, in capitals: `DB` for 68.
pub fn mnemonic(byte: u8) -> &'static str
    ensures { result.now ≡ mnemonic_of (kind_of byte) }
{
    mnemonic_in(kind_at(byte))
}
