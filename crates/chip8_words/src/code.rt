//! Opcodes by their parts.

ghost use Rattle.std.specs.Prelude.{◌≡◌, IfSome, Some};
ghost use Rattle.chip8_words.specs.Codes.{canonical, decoded, encoded, IsValid};

use crate::table::{Form, parts};
use chip8_lang::read_instr;

/// An opcode by its parts.
#[derive(Clone, Copy)]
pub struct Op {
    /// Its mnemonic and its operands.
    pub form: Form,
    /// The number of the register Vx, 0 to 15, or 0 where the form has none.
    pub x: u8,
    /// The number of the register Vy, 0 to 15, or 0 where the form has none.
    pub y: u8,
    /// kk, nnn or n, or 0 where the form has none.
    pub number: u16,
}

/// The opcode that has these parts. From it `decode` reads them again, but CLS for SYS 0E0 and RET for SYS 0EE.
#[tactic(auto, using(crate::proofs::Encoding::read_again))]
pub fn encode(op: &Op) -> u16
    requires { IsValid op.now }
    ensures opcode { result ≡ encoded op.now }
    ensures parts { decoded result ≡ Some (canonical op.now) }
{
    op.form.opcode() + 256 * u16::from(op.x) + 16 * u16::from(op.y) + op.number
}

/// The parts of an opcode, and none where the language doesn't know it: `encode(&op) == opcode`.
pub fn decode(opcode: u16) -> Option<Op>
    ensures parts { result ≡ decoded opcode }
    ensures valid { IfSome result IsValid }
    ensures opcode { IfSome result (λ op. encoded op ≡ opcode) }
{
    parts(read_instr(opcode))
}
