ghost use Rattle.vip_outside.specs.Sink.{PutAnswers, SinkMeaning};

use thiserror::Error;

/// The fault of a put: at most a prefix of its piece went out. Its text is its name.
#[derive(Clone, Copy, Debug, PartialEq, Eq, Error)]
#[error("Failed")]
pub struct Failed;

/// Something that takes bytes at its end.
pub trait Sink {
    /// The bytes that it holds and the number of its calls, each where it tells that, and its count
    /// of faults, which never falls.
    ghost meaning: { Self → SinkMeaning };

    /// Adds a piece, any number of bytes, at the end.
    ///
    /// `Ok` means that the whole piece is at the end; the count of faults stays. [`Failed`] comes
    /// only where the count of faults rose in this call or stood at the greatest `u64`; a prefix of
    /// the piece is then at the end, and nothing after it.
    ///
    /// Where the number of calls is told, it rises by one whatever the answer is. Once it stands at
    /// the greatest `u32`, each put is a fault that adds no byte and leaves the number. Otherwise an
    /// empty piece is `Ok` and adds nothing.
    fn put(&mut self, piece: &[u8]) -> Result<(), Failed>
        ensures answer { PutAnswers piece.now (meaning self.old) (meaning self.new) result };
}
