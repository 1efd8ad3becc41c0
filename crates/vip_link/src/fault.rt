//! Why there is no link.

ghost use Rattle.std.specs.Prelude.{◌≡◌};

use std::alloc::AllocError;
use thiserror::Error;

/// Why two boards were not joined.
#[derive(Clone, Copy, Debug, Error)]
pub enum LinkFault {
    /// The message has this many bytes, more than 3,000.
    #[error("MessageTooLarge {0}")]
    MessageTooLarge(usize),
    /// There was not enough memory.
    #[error("NoMemory")]
    NoMemory,
}

impl From<AllocError> for LinkFault {
    ghost use Rattle.std.specs.Prelude.{◌≡◌};
    ghost use Rattle.vip_link.specs.declared.fault.LinkFault.TheVariants.{NoMemory};

    ghost from_gives = { λ _ fault. fault ≡ NoMemory };

    fn from(_error: AllocError) -> LinkFault {
        LinkFault::NoMemory
    }
}
