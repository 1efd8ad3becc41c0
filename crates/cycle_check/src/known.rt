//! What the search knows at an address, whichever way leads to it.

use crate::closed::{Instruction, is_shown};
use crate::grammar::Fact;
use crate::table::{When, x_after};
use vip_isa::Kind;

/// What is known at an address: X, and the facts that hold, of which a line says one.
#[derive(Clone, Copy, PartialEq, Eq)]
pub struct Knowledge {
    /// X, if every way gives the same.
    pub x: Option<u8>,
    /// D is the counter.
    pub copy: bool,
    /// The counter isn't 0.
    pub some: bool,
    /// D is this byte.
    pub byte: Option<u8>,
}

impl Knowledge {
    /// Returns what is known at the entry: nothing.
    pub fn nothing() -> Knowledge {
        Knowledge {
            x: None,
            copy: false,
            some: false,
            byte: None,
        }
    }

    // Whether one of the facts shows another one after an instruction.
    // What is shown if the counter is 0 is shown at each of its values.
    fn shows(&self, k: u8, instruction: &Instruction, when: When, asked: Fact) -> bool {
        let shown = |fact: Fact| is_shown(k, instruction, fact, when, 0, asked);
        shown(Fact::Any)
            || (self.copy && shown(Fact::Copy))
            || (self.some && shown(Fact::NonZero))
            || self.byte.is_some_and(|byte| shown(Fact::Is(byte)))
    }

    /// Returns what is known after an instruction, on a way under a condition.
    pub fn behind(&self, k: u8, instruction: &Instruction, when: When) -> Knowledge {
        let byte = byte_after(instruction, self.byte);
        Knowledge {
            x: x_after(instruction.op, self.x),
            copy: self.shows(k, instruction, when, Fact::Copy),
            some: self.shows(k, instruction, when, Fact::NonZero),
            byte: byte.filter(|byte| self.shows(k, instruction, when, Fact::Is(*byte))),
        }
    }

    /// Returns what is known at an address to which two ways lead.
    pub fn join(&self, other: &Knowledge) -> Knowledge {
        Knowledge {
            x: common(self.x, other.x),
            copy: self.copy && other.copy,
            some: self.some && other.some,
            byte: common(self.byte, other.byte),
        }
    }
}

/// Returns the byte that D may be after an instruction: that of LDI, or the one that it was.
pub fn byte_after(instruction: &Instruction, byte: Option<u8>) -> Option<u8> {
    match instruction.op.kind {
        Kind::Ldi => Some(instruction.next),
        _ => byte,
    }
}

/// Returns what two ways give alike.
pub fn common(one: Option<u8>, other: Option<u8>) -> Option<u8> {
    match (one, other) {
        (Some(one), Some(other)) if one == other => Some(one),
        _ => None,
    }
}
