ghost use Rattle.std.specs.Prelude.{ℕ, List, Option, None};
ghost use Rattle.std.specs.Io.{WritesAtMost};
ghost use Rattle.std.specs.Io.KnownBytes.{Keeps, WriteAppends};
ghost use Rattle.vip_outside.specs.Stream.{StreamCall, LogsFlush, LogsWrite};

use std::io::{self, Write};

/// A stream that takes bytes, as standard output.
pub trait Stream {
    /// The calls of the stream so far, in order, where it tells them.
    ghost log: { Self → Option (List StreamCall) } = { λ _. None };

    /// The bytes that it holds, where it tells them.
    ghost contents: { Self → Option (List ℕ) } = { λ _. None };

    /// Writes some of the bytes, those at the front, and answers how many. Those go to the end of
    /// what it holds, and none at an error.
    fn write(&mut self, bytes: &[u8]) -> io::Result<usize>
        ensures bound { WritesAtMost result bytes.now }
        ensures log { LogsWrite bytes.now (log self.old) (log self.new) result }
        ensures bytes { WriteAppends (contents self.old) (contents self.new) result bytes.now };

    /// Passes on what was written. It holds the same then, also at an error.
    fn flush(&mut self) -> io::Result<()>
        ensures log { LogsFlush (log self.old) (log self.new) result }
        ensures bytes { Keeps (contents self.old) (contents self.new) };
}

/// The stream that a writer of the standard library is. It tells of its contents what the writer
/// tells, and no calls, since a writer counts none.
#[derive(Drop)]
pub struct Writer<W: Write> {
    writer: W,
}

impl<W: Write> Writer<W> {
    /// The stream of a writer.
    pub fn new(writer: W) -> Writer<W> {
        Writer { writer }
    }
}

impl<W: Write> Stream for Writer<W> {
    ghost contents = { λ s. W.contents s.writer };

    fn write(&mut self, bytes: &[u8]) -> io::Result<usize> {
        self.writer.write(bytes)
    }

    fn flush(&mut self) -> io::Result<()> {
        self.writer.flush()
    }
}

impl<S: Stream> Stream for &mut S {
    ghost log = { λ s. S.log s.now };

    ghost contents = { λ s. S.contents s.now };

    fn write(&mut self, bytes: &[u8]) -> io::Result<usize> {
        Stream::write(&mut **self, bytes)
    }

    fn flush(&mut self) -> io::Result<()> {
        Stream::flush(&mut **self)
    }
}
