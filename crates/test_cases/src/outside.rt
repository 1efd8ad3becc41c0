//! What the real sink does with a stream, and the real files with the files of the system: no case reaches them.

use crate::counts::Counts;
use std::io::{ErrorKind, Write};
use std::{fs, io};
use vip_outside::{Files, Host, ReadFail, RealFiles, Sink, StdSink, Writer};

/// A file that these tests write, read and remove.
const SCRATCH: &str = "scratch.bin";

/// The bytes of a file that the system doesn't give in one read.
const LONG: usize = 10_000;

/// A stream that takes at most so many bytes at each of so many writes, fails at the write behind them, and may fail to flush.
#[derive(Drop)]
struct Slow {
    step: usize,
    writes: u32,
    flushes: bool,
}

impl Write for Slow {
    fn write(&mut self, piece: &[u8]) -> io::Result<usize> {
        match self.writes.checked_sub(1) {
            Some(left) => {
                self.writes = left;
                Ok(self.step.min(piece.len()))
            }
            None => Err(io::Error::from(ErrorKind::Other)),
        }
    }

    fn flush(&mut self) -> io::Result<()> {
        if self.flushes {
            Ok(())
        } else {
            Err(io::Error::from(ErrorKind::Other))
        }
    }
}

/// Streams: how many bytes they take at each of how many writes, whether they can flush, and whether a put of three bytes to them is well.
const STREAMS: &[(usize, u32, bool, bool)] = &[
    (1, 3, true, true),
    (1, 2, true, false),
    (9, 1, true, true),
    (0, 9, true, false),
    (9, 9, false, false),
];

/// How many bytes of the longer file are read at most, and whether there are more.
const READS: &[(usize, bool)] = &[
    (0, true),
    (2, true),
    (4_096, true),
    (9_999, true),
    (10_000, false),
    (20_000, false),
];

/// Whether a put of three bytes to a stream comes to what is due, and an empty one behind it is well.
fn is_put(slow: Slow, due: bool) -> bool {
    let mut sink = StdSink::new(Writer::new(slow));
    sink.put(b"abc").is_ok() == due && sink.put(b"").is_ok()
}

/// Puts to streams that take few bytes, take few writes or fail to flush.
pub fn try_streams() -> Counts<'static> {
    let mut counts = Counts::NONE;
    for &(step, writes, flushes, due) in STREAMS {
        let slow = Slow {
            step,
            writes,
            flushes,
        };
        counts.add(is_put(slow, due), "a put");
    }
    counts
}

/// Puts pieces to a new file. Answers whether all is well.
fn put_pieces(rt: &HostRuntime, pieces: &[&[u8]]) -> bool {
    let Ok(file) = fs::create(rt, SCRATCH) else {
        return false;
    };
    let mut sink = StdSink::new(Writer::new(file));
    let mut all = true;
    for piece in pieces {
        all = sink.put(piece).is_ok() && all;
    }
    all
}

/// Whether a read of the start of the file answers the first bytes of these, as many as it may, and whether there are more.
fn is_read(rt: &HostRuntime, most: usize, put: &[u8], more: bool) -> bool {
    let mut files = RealFiles::new(Host::new(rt));
    match files.read(rt.alloc(), SCRATCH, most) {
        Ok(loaded) => loaded.bytes.as_slice() == &put[..most.min(put.len())] && loaded.more == more,
        Err(_) => false,
    }
}

/// The bytes of the longer file.
fn long_piece() -> [u8; LONG] {
    let mut piece = [0; LONG];
    for (byte, place) in piece.iter_mut().zip(0u32..) {
        *byte = (place % 251) as u8;
    }
    piece
}

/// Puts to a file and reads of its start: of a short one, of a longer one, and of none.
pub fn try_files(rt: &HostRuntime) -> Counts<'static> {
    let mut counts = Counts::NONE;
    counts.add(put_pieces(rt, &[b"ab", b"", b"c"]), "puts to a file");
    counts.add(is_read(rt, 2, b"abc", true), "a read of two bytes");
    counts.add(is_read(rt, 3, b"abc", false), "a read of all bytes");
    counts.add(is_read(rt, 9, b"abc", false), "a read of more bytes");
    let piece = long_piece();
    counts.add(put_pieces(rt, &[&piece]), "a put to a longer file");
    for &(most, more) in READS {
        counts.add(is_read(rt, most, &piece, more), "a read of a longer file");
    }
    counts.add(fs::remove_file(rt, SCRATCH).is_ok(), "a removal");
    counts.add(is_absent(rt), "a read of no file");
    counts
}

/// Whether there is no file to read.
fn is_absent(rt: &HostRuntime) -> bool {
    let mut files = RealFiles::new(Host::new(rt));
    matches!(files.read(rt.alloc(), SCRATCH, 9), Err(ReadFail::Failed))
}
