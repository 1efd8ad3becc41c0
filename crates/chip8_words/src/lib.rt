//! CHIP-8 in words: the mnemonic and the operands of each instruction of the language. It stands on `chip8_lang`, which says which instruction an
//! opcode is, and on the digits of `vip_byte`. The layers above may rely on this: `decode` answers the form and the fields of the instruction that an
//! opcode is by the definitions of the language, and none for an opcode that they don't know; `encode` is its inverse, each way, but that the opcodes
//! of `SYS 0x00E0` and `SYS 0x00EE` are those of CLS and RET (`specs/Codes.antt`); the mnemonics and the operands are those of `specs/Table.antt`, and
//! `opcode_words` has the exact text of `specs/Words.antt`. No call takes memory. The words are those of Cowgod's CHIP-8 Technical Reference, and how
//! numbers are written is this project's profile.
#![tactic(auto)]

mod code;
mod table;
mod words;

pub use code::{Op, decode, encode};
pub use table::{FORMS, Form, Operand};
pub use words::{OpcodeWords, opcode_words};
