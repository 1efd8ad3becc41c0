//! A sink that keeps all that is put to it.

ghost use Rattle.std.specs.Prelude.{◌≡◌};
ghost use Rattle.vip_outside.specs.Sink.{PutAnswers};
ghost use Rattle.vip_c.specs.Kept.{empty, meaning_of};

use std::alloc::Global;
use vip_outside::{Failed, Sink};

/// A sink in memory that grows, and tells all that it holds. A put is a fault where no memory is found for its piece.
#[derive(Drop)]
pub(crate) struct Kept {
    pub(crate) bytes: Vec<u8>,
    faults: u64,
}

impl Kept {
    /// An empty one.
    pub(crate) fn new(alloc: Global) -> Kept
        ensures { meaning_of result ≡ empty }
    {
        Kept {
            bytes: Vec::new(alloc),
            faults: 0,
        }
    }
}

impl Sink for Kept {
    ghost meaning = { meaning_of };

    fn put(&mut self, piece: &[u8]) -> Result<(), Failed> {
        if piece.is_empty() || self.bytes.extend_from_slice(piece).is_ok() {
            return Ok(());
        }
        self.faults = self.faults.saturating_add(1);
        Err(Failed)
    }
}
