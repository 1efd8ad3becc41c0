//! Why a run doesn't begin, and with what one does.

ghost use Rattle.std.specs.Prelude.{◌≡◌};
ghost use Rattle.chip8_lang.specs.State.{memory_size};

use chip8_image::{GAME, Places};
use chip8_lang::Edition;
use std::alloc::AllocError;
use thiserror::Error;
use vip_text::StateFault;

/// Why a game was not started.
#[derive(Clone, Copy, Debug, Error)]
pub enum StartFault {
    /// The game has so many bytes, which are more than the edition's game memory.
    #[error("GameTooLarge {0}")]
    GameTooLarge(usize),
    /// No memory was left for the board.
    #[error("NoMemory")]
    NoMemory,
}

impl From<AllocError> for StartFault {
    ghost use Rattle.std.specs.Prelude.{◌≡◌};
    ghost use Rattle.vip_relation.specs.declared.start.StartFault.TheVariants.{NoMemory};

    ghost from_gives = { λ _ fault. fault ≡ NoMemory };

    fn from(_error: AllocError) -> StartFault {
        StartFault::NoMemory
    }
}

/// Why a run was not gone on with from a file.
#[derive(Clone, Copy, Debug, Error)]
pub enum ResumeFault {
    /// The file isn't accepted.
    #[error("{0}")]
    State(StateFault),
    /// No memory was left for the board.
    #[error("NoMemory")]
    NoMemory,
}

impl From<StateFault> for ResumeFault {
    ghost use Rattle.std.specs.Prelude.{◌≡◌};
    ghost use Rattle.vip_relation.specs.declared.start.ResumeFault.TheVariants.{State};

    ghost from_gives = { λ fault answer. answer ≡ State fault };

    fn from(fault: StateFault) -> ResumeFault {
        ResumeFault::State(fault)
    }
}

impl From<AllocError> for ResumeFault {
    ghost use Rattle.std.specs.Prelude.{◌≡◌};
    ghost use Rattle.vip_relation.specs.declared.start.ResumeFault.TheVariants.{NoMemory};

    ghost from_gives = { λ _ answer. answer ≡ NoMemory };

    fn from(_error: AllocError) -> ResumeFault {
        ResumeFault::NoMemory
    }
}

/// The most bytes of a game, those of game memory.
pub fn most_bytes(edition: Edition) -> usize
    ensures { result ≡ memory_size edition }
{
    usize::from(Places::of(edition).memory_end - GAME)
}
