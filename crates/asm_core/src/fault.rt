//! The faults of a source.

ghost use Rattle.std.specs.Prelude.{◌≡◌};
ghost use Rattle.asm_core.specs.FaultNames.{asm_cause_name};
ghost use Rattle.asm_core.specs.Layout.{cause_of};
ghost use Rattle.asm_core.specs.Encoding.{value_cause};

use asm_lex::{LexFault, ValueFault};
use std::alloc::{AllocError, AllocFailed};
use thiserror::Error;

/// What is wrong with a line. Which cause of a line counts first is decided by the passes, and not by this order.
#[derive(Clone, Copy, Debug, PartialEq, Eq, Error)]
#[error("{}", self.name())]
pub enum AsmCause {
    /// A byte that isn't allowed, more than 255 bytes, a label that isn't a name, or a name of more than 32 characters.
    BadText = 1,
    /// A word that is neither a mnemonic nor a directive.
    UnknownMnemonic = 2,
    /// A wrong number or kind of operands, a text that is no expression, a register in an expression, LDN R0, or EQU without a label.
    BadOperand = 3,
    /// A number above 65535, a value out of its range, or a prefix on a sum outside 0 to 65535.
    Range = 4,
    /// A label that an earlier line has.
    Duplicate = 5,
    /// A name that no line defines, or none that an earlier line does where a directive takes the value at once.
    Undefined = 6,
    /// A short branch whose target isn't in the page of its second byte.
    OffPage = 7,
    /// A byte at an address that an earlier line gave a byte.
    Overlap = 8,
    /// Bytes that would pass address 65535, or a label at address 65536.
    TooLarge = 9,
}

impl AsmCause {
    /// Its name, which its text and the reports show.
    pub fn name(self) -> &'static str
        ensures { result.now ≡ asm_cause_name self }
    {
        match self {
            AsmCause::BadText => "BadText",
            AsmCause::UnknownMnemonic => "UnknownMnemonic",
            AsmCause::BadOperand => "BadOperand",
            AsmCause::Range => "Range",
            AsmCause::Duplicate => "Duplicate",
            AsmCause::Undefined => "Undefined",
            AsmCause::OffPage => "OffPage",
            AsmCause::Overlap => "Overlap",
            AsmCause::TooLarge => "TooLarge",
        }
    }
}

/// The cause of a line's fault by itself.
pub(crate) fn cause_of(fault: LexFault) -> AsmCause
    ensures { result ≡ cause_of fault }
{
    match fault {
        LexFault::BadText => AsmCause::BadText,
        LexFault::UnknownMnemonic => AsmCause::UnknownMnemonic,
        LexFault::BadOperand => AsmCause::BadOperand,
    }
}

/// The cause of an expression's fault.
pub(crate) fn value_cause(fault: ValueFault) -> AsmCause
    ensures { result ≡ value_cause fault }
{
    match fault {
        ValueFault::Undefined => AsmCause::Undefined,
        ValueFault::Range => AsmCause::Range,
    }
}

/// Why a source is not assembled.
#[derive(Clone, Copy, Debug, Error)]
pub enum AsmFault {
    /// The first fault of the source, with the number of its line, counted from 1.
    #[error("line {line}: {cause}")]
    Fault {
        /// The line's number.
        line: u32,
        /// What is wrong with it.
        cause: AsmCause,
    },
    /// There was not enough memory.
    #[error("NoMemory")]
    NoMemory,
}
