ghost use Rattle.std.specs.Prelude.{◌≡◌};
ghost use Rattle.vip_outside.specs.Files.{FilesMeaning, ReadAnswers};
ghost use Rattle.vip_outside.specs.declared.files.ReadFail.TheVariants.{NoMemory};

use std::alloc::{AllocError, Global};
use thiserror::Error;

/// What a read gave: the start of a file.
#[derive(Debug, Drop)]
pub struct Loaded {
    /// The first bytes of the file, at most as many as were asked for.
    pub bytes: Vec<u8>,

    /// Whether the file has more bytes than these.
    pub more: bool,
}

/// Why a read gave nothing. Each text is the name of the variant.
#[derive(Clone, Copy, Debug, Error)]
pub enum ReadFail {
    /// The files tell their map, and it has no such name.
    #[error("Absent")]
    Absent,

    /// A fault, which the files count.
    #[error("Failed")]
    Failed,

    /// No memory was found.
    #[error("NoMemory")]
    NoMemory,
}

impl From<AllocError> for ReadFail {
    ghost from_gives = { λ _ fail. fail ≡ NoMemory };

    fn from(_: AllocError) -> ReadFail {
        ReadFail::NoMemory
    }
}

/// Files that are read by name.
pub trait Files {
    /// The map from names to bytes, where it is told, the count of faults, which never falls, and
    /// the reads that were made so far, in order, where they are told: each has its name, and what it
    /// came to.
    ghost meaning: { Self → FilesMeaning };

    /// Reads the first `most` bytes of the file of this name, or all where it has no more.
    ///
    /// [`ReadFail::Absent`] comes only where the map is told and the name isn't in it.
    /// [`ReadFail::Failed`] comes only where the count of faults rose in this call or stood at the
    /// greatest `u64`. [`ReadFail::NoMemory`] may come at any call. One more read was made, whatever the
    /// answer is; only at `NoMemory` it may be missing. What it came to is what is answered: a file that
    /// was read up to its end, or one byte more than `most`. No other answer than `Failed` changes the
    /// count, and none changes the map.
    fn read(&mut self, alloc: Global, name: &str, most: usize) -> Result<Loaded, ReadFail>
        ensures answer { ReadAnswers name.now most (meaning self.old) (meaning self.new) result };
}
