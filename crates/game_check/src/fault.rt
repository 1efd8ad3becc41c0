//! Why a certificate is refused, and why none was found.

ghost use Rattle.std.specs.Prelude.{◌≡◌, ◌≤◌, length};
ghost use Rattle.game_check.specs.FaultNames.{proof_cause_name};

use crate::claim::Point;
use std::alloc::AllocError;
use thiserror::Error;

/// Why a line of a certificate is refused. The first two are looked for in all lines before the third is, and the third before the others.
#[derive(Clone, Copy, Debug, Error)]
#[error("{}", self.name())]
pub enum ProofCause {
    /// The line has fewer than three or more than fifteen words, some word is not four hexadecimal digits, or the least I is above the
    /// greatest.
    BadLine,
    /// Its point does not come behind that of the line before.
    Order,
    /// No line is of pc 0200 with an empty stack and a least I of 0. It is said of line 1.
    NoStart,
    /// pc or pc + 1 lies outside game memory.
    Outside,
    /// The opcode is no instruction or calls machine code, is a BMMM, returns with an empty stack, or calls with 12 addresses on it.
    Opcode,
    /// For some I of the line the instruction reads outside game memory and the font, or writes outside game memory or into the code.
    Access,
    /// Some next point has no line, or none that allows all of the next I.
    Next,
}

impl ProofCause {
    /// Its name, of at most seven characters, which its text and the reports show.
    pub fn name(self) -> &'static str
        ensures text { result.now ≡ proof_cause_name self }
        ensures len { length result.now ≤ 7 }
    {
        match self {
            ProofCause::BadLine => "BadLine",
            ProofCause::Order => "Order",
            ProofCause::NoStart => "NoStart",
            ProofCause::Outside => "Outside",
            ProofCause::Opcode => "Opcode",
            ProofCause::Access => "Access",
            ProofCause::Next => "Next",
        }
    }
}

/// Why a certificate was not accepted.
#[derive(Clone, Copy, Debug, Error)]
pub enum ProofFault {
    /// The first faulty line, counted from 1, and the first cause in it.
    #[error("line {line}: {cause}")]
    Fault { line: u32, cause: ProofCause },
    /// No memory was left for the lines.
    #[error("NoMemory")]
    NoMemory,
}

impl From<AllocError> for ProofFault {
    ghost use Rattle.std.specs.Prelude.{◌≡◌};
    ghost use Rattle.game_check.specs.declared.fault.ProofFault.TheVariants.{NoMemory};

    ghost from_gives = { λ _ fault. fault ≡ NoMemory };

    fn from(_error: AllocError) -> ProofFault {
        ProofFault::NoMemory
    }
}

/// The first claim of a game's least closed family that has a cause against it, with FFFF for all that is above; the first such cause; and the opcode there,
/// which is none where it does not lie in game memory.
#[derive(Drop)]
pub struct OpenClaim {
    pub cause: ProofCause,
    pub opcode: Option<u16>,
    pub point: Point,
    pub low: u16,
    pub high: u16,
}

/// Why a game has no certificate.
#[derive(Drop)]
pub enum Obstacle {
    /// Each would have more than 1,048,576 bytes.
    TooLong,
    /// This claim can't be closed.
    Open(OpenClaim),
}

/// Why no certificate was found.
#[derive(Drop)]
pub enum FindFault {
    /// There is none.
    NotFound(Obstacle),
    /// No memory was left.
    NoMemory,
}

impl From<AllocError> for FindFault {
    ghost use Rattle.std.specs.Prelude.{◌≡◌};
    ghost use Rattle.game_check.specs.declared.fault.FindFault.TheVariants.{NoMemory};

    ghost from_gives = { λ _ fault. fault ≡ NoMemory };

    fn from(_error: AllocError) -> FindFault {
        FindFault::NoMemory
    }
}
