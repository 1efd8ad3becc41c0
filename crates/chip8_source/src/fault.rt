//! The answers of a comparison that find something.

ghost use Rattle.std.specs.Prelude.{◌≡◌};

use asm_core::{AsmCause, AsmFault};
use std::alloc::AllocError;
use thiserror::Error;

/// Why the source of a ROM doesn't give the ROM's bytes.
#[derive(Clone, Copy, Debug, PartialEq, Eq, Error)]
pub enum ImageFault {
    /// The source has a fault: the assembler's first one, in this line, counted from 1.
    #[error("line {line}: {cause}")]
    BadRomSource {
        line: u32,
        cause: AsmCause,
    },
    /// The source assembles, and this is the least address at which a byte differs.
    #[error("{address:04X}: source {assembled:02X} image {image:02X}")]
    RomDiffers {
        address: u16,
        assembled: u8,
        image: u8,
    },
    /// There was not enough memory.
    #[error("NoMemory")]
    NoMemory,
}

impl From<AllocError> for ImageFault {
    ghost use Rattle.std.specs.Prelude.{◌≡◌};
    ghost use Rattle.chip8_source.specs.declared.fault.ImageFault.TheVariants.{NoMemory};

    ghost from_gives = { λ _ fault. fault ≡ NoMemory };

    fn from(_error: AllocError) -> ImageFault {
        ImageFault::NoMemory
    }
}

impl From<AsmFault> for ImageFault {
    ghost use Rattle.chip8_source.specs.Faults.{IsSameFault};

    ghost from_gives = { IsSameFault };

    fn from(fault: AsmFault) -> ImageFault {
        match fault {
            AsmFault::Fault { line, cause } => ImageFault::BadRomSource { line, cause },
            AsmFault::NoMemory => ImageFault::NoMemory,
        }
    }
}
