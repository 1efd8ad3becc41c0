ghost use Rattle.std.specs.Prelude.{◌≡◌};
ghost use Rattle.std.specs.Io.KnownBytes.{WriteAppends};
ghost use Rattle.vip_outside.specs.Sink.{PutAnswers};
ghost use Rattle.vip_outside.specs.StdSink.{meaning_of, PutSends, SendsSome, Sent};

use crate::sink::{Failed, Sink};
use crate::stream::Stream;
use std::marker::Model;

/// A sink over a stream, as standard output. Of the bytes it tells those that the stream took, where
/// the stream tells its calls or its contents; a stream of the system tells neither. Of its own calls
/// it tells nothing.
///
/// Clauses see it as a `StreamSink`: the count of faults, and the calls and the contents of the
/// stream, each where the stream tells it.
#[derive(Drop)]
pub struct StdSink<S: Stream> {
    stream: S,
    faults: u64,
}

impl<S: Stream> Model for StdSink<S> {
    ghost use Rattle.vip_outside.specs.StdSink.{StreamSink};

    ghost Value = { StreamSink };

    ghost view = { λ s. record { calls = S.log s.stream; contents = S.contents s.stream; faults = s.faults } };
}

impl<S: Stream> StdSink<S> {
    /// A sink over this stream, with no fault.
    pub fn new(stream: S) -> StdSink<S>
        ensures unused { result ≡ record { calls = S.log stream; contents = S.contents stream; faults = 0 } }
    {
        StdSink { stream, faults: 0 }
    }
}

/// Offers bytes to one write, which takes at least one, and answers how many. A write that takes none
/// is a fault, as any error of the stream.
fn write_some<S: Stream>(stream: &mut S, bytes: &[u8]) -> Result<usize, Failed>
    ensures call { SendsSome bytes.now (S.log stream.old) (S.log stream.new) result }
    ensures bytes { WriteAppends (S.contents stream.old) (S.contents stream.new) result bytes.now }
{
    match stream.write(bytes) {
        Ok(0) | Err(_) => Err(Failed),
        Ok(count) => Ok(count),
    }
}

/// Writes a whole piece, in as many writes as the stream needs, and then flushes the stream.
fn write_whole<S: Stream>(stream: &mut S, piece: &[u8]) -> Result<(), Failed>
    ensures { Sent piece.now (S.log stream.old) (S.log stream.new) (S.contents stream.old) (S.contents stream.new) result }
{
    let mut rest = piece;
    while !rest.is_empty() {
        let count = write_some(stream, rest)?;
        rest = &rest[count..];
    }
    match stream.flush() {
        Ok(()) => Ok(()),
        Err(_) => Err(Failed),
    }
}

impl<S: Stream> Sink for StdSink<S> {
    ghost meaning = { meaning_of };

    /// A piece that isn't empty is offered whole to one write, what that left to the next one, and
    /// then the stream is flushed. A write that takes nothing, and any error of a write or of the
    /// flush, is a fault.
    fn put(&mut self, piece: &[u8]) -> Result<(), Failed>
        ensures answer { PutAnswers piece.now (meaning_of self.old) (meaning_of self.new) result }
        ensures sent { PutSends piece.now self.old self.new result }
    {
        if piece.is_empty() {
            return Ok(());
        }
        let answer = write_whole(&mut self.stream, piece);
        if answer.is_err() {
            self.faults = self.faults.saturating_add(1);
        }
        answer
    }
}
