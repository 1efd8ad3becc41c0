//! The text of an instruction.

ghost use Rattle.std.specs.Prelude.{◌≡◌, ◌+◌, ◌-◌, ◌≤◌, ◌++◌, length, drop};
ghost use Rattle.arrayvec.specs.ArrayVec.{array_vec_len};
ghost use Rattle.machine.specs.Opcodes.{kind_of};
ghost use Rattle.vip_byte.specs.HexText.{hex4};
ghost use Rattle.vip_isa.specs.Rows.{mnemonic_of};
ghost use Rattle.vip_isa.specs.Texts.{HasOneDigit, instruction_text, operand_at, operand_text};

use crate::rows::{Operands, operands_in};
use crate::{Op, decode, mnemonic};
use arrayvec::ArrayVec;
use vip_byte::{add16, hex4};

/// The most characters of an instruction: four of a mnemonic, and seven of an operand.
const MOST_TEXT: usize = 11;

/// The text of an instruction, without taking memory.
pub type InstructionText = ArrayVec<u8, MOST_TEXT>;

/// What stands behind the mnemonic of an instruction.
#[derive(Clone, Copy)]
pub enum Operand {
    Nothing,
    /// The number of a register.
    Register(u8),
    /// The number of a port.
    Port(u8),
    /// A byte.
    Byte(u8),
    /// The address that a branch goes to.
    Target(u16),
}

// Appends bytes to a text that has room.
fn put(into: &mut InstructionText, bytes: &[u8])
    requires { array_vec_len into.old + length bytes.now ≤ 11 }
    ensures items { into.new.items ≡ into.old.items ++ bytes.now }
    ensures len { array_vec_len into.new ≡ array_vec_len into.old + length bytes.now }
{
    let _ = into.try_extend_from_slice(bytes);
}

// The operand of an instruction whose bytes stand from an address on.
#[tactic(auto, unfolding(crate::specs::Texts::operand_at))]
fn operand_in(address: u16, bytes: [u8; 3]) -> Operand
    ensures operand { result ≡ operand_at address bytes }
    ensures digit { HasOneDigit result }
{
    let [opcode, next, after] = bytes;
    let Op { kind, n } = decode(opcode);
    match operands_in(kind) {
        Operands::Nothing => Operand::Nothing,
        Operands::Register => Operand::Register(n),
        Operands::Port => Operand::Port(n),
        Operands::Byte => Operand::Byte(next),
        Operands::Short => Operand::Target(add16(address, 1) / 256 * 256 + u16::from(next)),
        Operands::Long => Operand::Target(u16::from(next) * 256 + u16::from(after)),
        Operands::Data => Operand::Byte(opcode),
    }
}

// What is written of an operand: what stands before its digits, and so many of the four digits of a number.
fn operand_parts(operand: Operand) -> (&'static str, u16, usize)
    requires { HasOneDigit operand }
    ensures text { operand_text operand ≡ result.0.now ++ drop (4 - result.2) (hex4 result.1) }
    ensures word { length result.0.now ≤ 3 }
    ensures digits { result.2 ≤ 4 }
{
    match operand {
        Operand::Nothing => ("", 0, 0),
        Operand::Register(number) => (" R", u16::from(number), 1),
        Operand::Port(number) => (" ", u16::from(number), 1),
        Operand::Byte(value) => (" 0x", u16::from(value), 2),
        Operand::Target(target) => (" 0x", target, 4),
    }
}

// Appends an operand behind a blank.
fn put_operand(into: &mut InstructionText, operand: Operand)
    requires digit { HasOneDigit operand }
    requires room { array_vec_len into.old ≤ 4 }
    ensures { into.new.items ≡ into.old.items ++ operand_text operand }
{
    let (word, number, digits) = operand_parts(operand);
    put(into, word.as_bytes());
    put(into, &hex4(number)[4 - digits..]);
}

// A mnemonic, which is short.
fn short_mnemonic(opcode: u8) -> &'static str
    ensures text { result.now ≡ mnemonic_of (kind_of opcode) }
    ensures len { length result.now ≤ 4 }
{
    mnemonic(opcode)
}

/// The mnemonic with its operand of the instruction whose bytes stand from an address on, of which those behind its last one don't count. Behind FFFF
/// comes 0000. Opcode 68 stands as data.
#[tactic(auto, unfolding(crate::specs::Texts::instruction_text))]
pub fn instruction_text(address: u16, bytes: [u8; 3]) -> InstructionText
    ensures text { result.items ≡ instruction_text address bytes }
    ensures len { length result.items ≤ 11 }
{
    let mut text = InstructionText::new();
    put(&mut text, short_mnemonic(bytes[0]).as_bytes());
    put_operand(&mut text, operand_in(address, bytes));
    text
}
