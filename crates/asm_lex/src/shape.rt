//! What a line is taken apart into, and its faults.

use arrayvec::ArrayVec;
use chip8_words::Op;
use thiserror::Error;

/// An instruction set, whose words and numbers a source is written in.
#[derive(Clone, Copy)]
pub enum Isa {
    /// The CDP1802, with registers R0 to RF.
    Cdp1802,
    /// The language CHIP-8, with registers V0 to VF and binary numbers.
    Chip8,
}

/// What a name stands for.
#[derive(Clone, Copy)]
pub enum SymbolValue {
    /// A number.
    Number(u16),
    /// The register V0 to VF of this number; CHIP-8 alone has such names.
    Register(u8),
}

/// A part of a line: the bytes from the place `from` up to, and without, the place `to`.
#[derive(Clone, Copy, Default)]
pub struct Span {
    /// The place of the first byte.
    pub from: u16,
    /// The place behind the last byte.
    pub to: u16,
}

/// A part of a line of any length: the bytes from the place `from` up to, and without, the place `to`.
#[derive(Clone, Copy)]
pub struct Place {
    /// The place of the first byte.
    pub from: usize,
    /// The place behind the last byte.
    pub to: usize,
}

/// What the word of a line means.
#[derive(Clone, Copy)]
pub enum Word {
    /// A mnemonic of the CDP1802: the whole opcode byte, with the register or the port that the operand names.
    Code(u8),
    /// An instruction of CHIP-8 with the registers that its operands name. Its number is 0 yet: it is the value of the last operand.
    Instruction(Op),
    /// The address becomes the operand's value.
    Org,
    /// The line's label has the operand's value.
    Equ,
    /// The line's label names the register of this number.
    EquRegister(u8),
    /// The operands' values as bytes.
    Db,
    /// The operands' values as two bytes each, the high one first.
    Dw,
    /// As many bytes 00 as the operand's value.
    Ds,
    /// The address becomes the next multiple of 256, or stays where it is one.
    Page,
}

/// The parts of a line, which lie in it in this order.
#[derive(Drop)]
pub struct Line {
    /// The name that the line defines.
    pub label: Option<Span>,
    /// What the word means.
    pub word: Option<Word>,
    /// The operands, without the blanks around them. An operand of `Code` that is a register or a port stands in the opcode too.
    pub operands: ArrayVec<Span, 128>,
}

/// The first fault of a line by itself, in the order of the variants.
#[derive(Clone, Copy, Debug, Error)]
pub enum LexFault {
    /// A byte that isn't allowed, more than 255 bytes, a label that isn't a name, or a name of more than 32 characters.
    #[error("BadText")]
    BadText,
    /// A word that is neither a mnemonic nor a directive.
    #[error("UnknownMnemonic")]
    UnknownMnemonic,
    /// A wrong number or kind of operands, a text that is no expression, a register or an operand's word in an expression, LDN R0, or EQU
    /// without a label.
    #[error("BadOperand")]
    BadOperand,
}

/// The first fault of an expression's value, in the order of the variants.
#[derive(Clone, Copy, Debug, Error)]
pub enum ValueFault {
    /// A name that has no value.
    #[error("Undefined")]
    Undefined,
    /// A number above 65535, or a prefix on a sum outside 0 to 65535.
    #[error("Range")]
    Range,
}
