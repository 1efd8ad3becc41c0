//! The disassembly of bytes.

ghost use Rattle.std.specs.Prelude.{◌≡◌, ◌≤◌, ◌<◌, ◌+◌, ◌++◌, [], codes, length, slice_index, take, IfOk, OnOk};
ghost use Rattle.arrayvec.specs.ArrayVec.{array_vec_len};
ghost use Rattle.vip_isa.specs.Texts.{instruction_text};
ghost use Rattle.asm_listing.specs.Disassembly.{data_text, disassembly, ended_line, first_line, is_undefined, is_data, size_in, taken, text_in, word_in, HasPlace};
ghost use Rattle.asm_core.specs.Sources.{source_lines};
ghost use Rattle.asm_listing.specs.WayBack.{AssemblesTo};

use crate::write::append;
use arrayvec::ArrayVec;
use asm_core::size_at;
use asm_lex::Isa;
use chip8_words::opcode_words;
use std::alloc::{AllocError, Global};
use vip_byte::{hex2, hex4};
use vip_isa::{InstructionText, instruction_text};

/// The opcode that is no instruction of the CDP1802.
const UNDEFINED: u8 = 0x68;

// Appends bytes to a line that has room.
fn put(into: &mut ArrayVec<u8, 48>, bytes: &[u8])
    requires { array_vec_len into.old + length bytes.now ≤ 48 }
    ensures items { into.new.items ≡ into.old.items ++ bytes.now }
    ensures len { array_vec_len into.new ≡ array_vec_len into.old + length bytes.now }
{
    let _ = into.try_extend_from_slice(bytes);
}

// The size of the instruction with which the bytes begin.
#[tactic(auto, unfolding(crate::specs::Disassembly::size_in))]
fn size_in(isa: Isa, bytes: &[u8]) -> u8
    requires { 0 < length bytes.now }
    ensures size { result ≡ size_in isa bytes.now }
    ensures least { 1 ≤ result }
    ensures most { result ≤ 3 }
{
    match isa {
        Isa::Cdp1802 => size_at(bytes[0]),
        Isa::Chip8 => 2,
    }
}

// A byte, or 00 where it is missing.
fn byte_in(bytes: &[u8], index: usize) -> u8
    ensures { result ≡ slice_index bytes.now index }
{
    bytes.get(index).copied().unwrap_or(0)
}

// The text of the instruction with which the bytes begin.
#[tactic(auto, unfolding(vip_isa::specs::Texts::instruction_text, vip_isa::specs::Texts::operand_at))]
fn text_of(bytes: &[u8], address: u16) -> InstructionText
    ensures text { result.items ≡ instruction_text address bytes.now }
    ensures len { length result.items ≤ 11 }
{
    let three = [byte_in(bytes, 0), byte_in(bytes, 1), byte_in(bytes, 2)];
    instruction_text(address, three)
}

fn put_text(into: &mut ArrayVec<u8, 48>, isa: Isa, bytes: &[u8], address: u16)
    requires room { array_vec_len into.old ≤ 1 }
    ensures items { into.new.items ≡ into.old.items ++ text_in isa address bytes.now }
    ensures len { array_vec_len into.new ≤ 16 }
{
    match isa {
        Isa::Cdp1802 => put(into, text_of(bytes, address).as_slice()),
        Isa::Chip8 => put(into, opcode_words(word_in(bytes)).as_slice()),
    }
}

// The opcode of CHIP-8 that the first two bytes are.
fn word_in(bytes: &[u8]) -> u16
    ensures { result ≡ word_in bytes.now }
{
    u16::from_be_bytes([byte_in(bytes, 0), byte_in(bytes, 1)])
}

fn put_instruction(into: &mut ArrayVec<u8, 48>, isa: Isa, bytes: &[u8], address: u16)
    requires empty { into.old.items ≡ [] }
    ensures items { into.new.items ≡ codes " " ++ text_in isa address bytes.now }
    ensures len { array_vec_len into.new ≤ 16 }
{
    put(into, b" ");
    put_text(into, isa, bytes, address);
}

#[tactic(auto, unfolding(crate::specs::Disassembly::data_text))]
fn put_data(into: &mut ArrayVec<u8, 48>, byte: u8)
    requires empty { into.old.items ≡ [] }
    ensures items { into.new.items ≡ data_text byte }
    ensures len { array_vec_len into.new ≤ 16 }
{
    put(into, b" DB 0x");
    put(into, &hex2(byte));
}

fn is_undefined(isa: Isa, bytes: &[u8]) -> bool
    requires { 0 < length bytes.now }
    ensures { result ≡ is_undefined isa bytes.now }
{
    match isa {
        Isa::Cdp1802 => bytes[0] == UNDEFINED,
        Isa::Chip8 => false,
    }
}

// Whether the bytes don't begin with a whole instruction.
#[tactic(auto, unfolding(crate::specs::Disassembly::is_data))]
fn is_data(isa: Isa, bytes: &[u8]) -> bool
    requires { 0 < length bytes.now }
    ensures { result ≡ is_data isa bytes.now }
{
    is_undefined(isa, bytes) || bytes.len() < usize::from(size_in(isa, bytes))
}

// Writes the first line of the disassembly of bytes that stand from an address on, without its newline, and answers how many of them it shows.
#[tactic(auto, unfolding(crate::specs::Disassembly::taken, crate::specs::Disassembly::first_line, crate::specs::Disassembly::is_data))]
fn put_line(into: &mut ArrayVec<u8, 48>, isa: Isa, bytes: &[u8], address: u16) -> u8
    requires some { 0 < length bytes.now }
    requires fits { address + length bytes.now ≤ 65536 }
    requires empty { into.old.items ≡ [] }
    ensures line { into.new.items ≡ first_line isa address bytes.now }
    ensures len { array_vec_len into.new ≤ 16 }
    ensures taken { result ≡ taken isa bytes.now }
    ensures least { 1 ≤ result }
    ensures most { result ≤ length bytes.now }
{
    if is_data(isa, bytes) {
        put_data(into, bytes[0]);
        1
    } else {
        put_instruction(into, isa, bytes, address);
        size_in(isa, bytes)
    }
}

/// Writes one line of the CDP1802's disassembly of the first `have` bytes, 1 to 3, which stand from an address on, into an empty buffer, and
/// answers how many of the bytes it shows. The line has no newline.
pub fn one_line(three: [u8; 3], have: u8, address: u16, into: &mut ArrayVec<u8, 48>) -> u8
    requires some { 1 ≤ have }
    requires most { have ≤ 3 }
    requires fits { address + have ≤ 65536 }
    requires empty { into.old.items ≡ [] }
    ensures line { into.new.items ≡ first_line Isa.Cdp1802 address (take have three) }
    ensures len { array_vec_len into.new ≤ 16 }
    ensures taken { result ≡ taken Isa.Cdp1802 (take have three) }
{
    put_line(into, Isa::Cdp1802, &three[..usize::from(have)], address)
}

fn append_line(text: &mut Vec<u8>, isa: Isa, bytes: &[u8], address: u16) -> Result<u8, AllocError>
    requires some { 0 < length bytes.now }
    requires fits { address + length bytes.now ≤ 65536 }
    ensures line { OnOk result (text.new.items ≡ text.old.items ++ ended_line isa address bytes.now) }
    ensures taken { IfOk result (λ shown. shown ≡ taken isa bytes.now) }
    ensures least { IfOk result (λ shown. 1 ≤ shown) }
    ensures most { IfOk result (λ shown. shown ≤ length bytes.now) }
{
    let mut line = ArrayVec::new();
    let taken = put_line(&mut line, isa, bytes, address);
    put(&mut line, b"\n");
    append(text, line.as_slice())?;
    Ok(taken)
}

/// The disassembly of bytes that stand from an address on: a line that sets the address, then one line for each instruction. Opcode 68 of the
/// CDP1802, and an opcode whose further bytes are missing at the end, stands as a byte of data. Assembling the text gives the bytes at their
/// addresses, and no others. Answers an error where memory is refused.
pub fn disassemble(
    alloc: Global,
    isa: Isa,
    bytes: &[u8],
    address: u16,
) -> Result<Vec<u8>, AllocError>
    requires { HasPlace isa address bytes.now }
    ensures text { IfOk result (λ text. text.items ≡ disassembly isa address bytes.now) }
    ensures way_back { IfOk result (λ text. AssemblesTo isa (source_lines text.items) address bytes.now) }
{
    let mut text = Vec::new(alloc);
    append(&mut text, b" ORG 0x")?;
    append(&mut text, &hex4(address))?;
    append(&mut text, b"\n")?;
    let mut at = u32::from(address);
    let mut rest = bytes;
    while !rest.is_empty() {
        let shown = append_line(&mut text, isa, rest, at as u16)?;
        at += u32::from(shown);
        rest = &rest[usize::from(shown)..];
    }
    Ok(text)
}
