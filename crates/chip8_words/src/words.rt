//! The text of an opcode in words.

ghost use Rattle.std.specs.Prelude.{◌≡◌, ◌+◌, ◌-◌, ◌≤◌, ◌++◌, length, drop};
ghost use Rattle.vip_byte.specs.HexText.{hex4};
ghost use Rattle.arrayvec.specs.ArrayVec.{array_vec_len};
ghost use Rattle.chip8_words.specs.Codes.{IsValid};
ghost use Rattle.chip8_words.specs.Words.{HasItsDigits, op_text, opcode_words, operand_text, text_size};

use crate::code::{Op, decode};
use crate::table::Operand;
use arrayvec::ArrayVec;
use vip_byte::hex4;

/// The most characters of an opcode in words, as in `DRW V0, V1, 0x5`.
const MOST_TEXT: usize = 15;

/// An opcode in words, without taking memory.
pub type OpcodeWords = ArrayVec<u8, MOST_TEXT>;

/// Appends bytes to a text that has room.
fn put(into: &mut OpcodeWords, bytes: &[u8])
    requires { array_vec_len into.old + length bytes.now ≤ 15 }
    ensures items { into.new.items ≡ into.old.items ++ bytes.now }
    ensures len { array_vec_len into.new ≡ array_vec_len into.old + length bytes.now }
{
    let _ = into.try_extend_from_slice(bytes);
}

/// What is written of an operand: a word, and behind it so many of the four digits of a number.
fn operand_parts(op: &Op, operand: Operand) -> (&'static str, u16, usize)
    requires { HasItsDigits op.now operand }
    ensures text { operand_text op.now operand ≡ result.0.now ++ drop (4 - result.2) (hex4 result.1) }
    ensures size { text_size operand ≡ length result.0.now + result.2 }
    ensures digits { result.2 ≤ 4 }
{
    match operand {
        Operand::X => ("V", u16::from(op.x), 1),
        Operand::Y => ("V", u16::from(op.y), 1),
        Operand::V0 => ("V0", 0, 0),
        Operand::Byte => ("0x", op.number, 2),
        Operand::Address => ("0x", op.number, 4),
        Operand::Nibble => ("0x", op.number, 1),
        Operand::Index => ("I", 0, 0),
        Operand::AtIndex => ("[I]", 0, 0),
        Operand::DelayTimer => ("DT", 0, 0),
        Operand::SoundTimer => ("ST", 0, 0),
        Operand::Key => ("K", 0, 0),
        Operand::Font => ("F", 0, 0),
        Operand::Decimal => ("B", 0, 0),
    }
}

/// Appends an operand.
fn put_operand(into: &mut OpcodeWords, op: &Op, operand: Operand)
    requires digits { HasItsDigits op.now operand }
    requires room { array_vec_len into.old + text_size operand ≤ 15 }
    ensures items { into.new.items ≡ into.old.items ++ operand_text op.now operand }
    ensures len { array_vec_len into.new ≡ array_vec_len into.old + text_size operand }
{
    let (word, number, digits) = operand_parts(op, operand);
    put(into, word.as_bytes());
    put(into, &hex4(number)[4 - digits..]);
}

/// Appends the mnemonic and the operands of an opcode.
#[tactic(auto, using(crate::proofs::OpTexts::with_next, crate::proofs::OpTexts::has_room))]
fn put_op(into: &mut OpcodeWords, op: &Op)
    requires valid { IsValid op.now }
    requires empty { array_vec_len into.old ≡ 0 }
    ensures { into.new.items ≡ op_text op.now }
{
    put(into, op.form.mnemonic().as_bytes());
    let mut lead: &[u8] = b" ";
    for operand in op.form.operands() {
        put(into, lead);
        put_operand(into, op, *operand);
        lead = b", ";
    }
}

/// The mnemonic of an opcode with its operands. One that the language doesn't know stands as data.
#[tactic(auto, unfolding(crate::specs::Words::opcode_words))]
pub fn opcode_words(opcode: u16) -> OpcodeWords
    ensures text { result.items ≡ opcode_words opcode }
    ensures len { length result.items ≤ 15 }
{
    let mut text = OpcodeWords::new();
    match decode(opcode) {
        Some(op) => put_op(&mut text, &op),
        None => {
            put(&mut text, b"DW 0x");
            put(&mut text, &hex4(opcode));
        }
    }
    text
}
