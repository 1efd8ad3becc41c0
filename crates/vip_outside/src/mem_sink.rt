ghost use Rattle.std.specs.Prelude.{◌≡◌, ◌≤◌, length, IfOk, is_err};
ghost use Rattle.vip_outside.specs.Sink.{PutAnswers};
ghost use Rattle.vip_outside.specs.MemSink.{SinkInMemory, meaning_of, empty_sink, room_left, named_kept, is_fault, most_kept, after_put};

use crate::MOST_NAMED;
use crate::sink::{Failed, Sink};
use arrayvec::ArrayVec;
use std::alloc::{AllocError, Global};
use std::marker::Model;

/// A sink in memory. It has a fixed room and tells all that it holds and how often it was called,
/// and calls of `put` can be named that fail.
///
/// Clauses see it as a `SinkInMemory`: the bytes, the room, the named calls, and what was counted so
/// far.
#[derive(Drop)]
pub struct MemSink {
    bytes: Vec<u8>,
    room: usize,
    named: ArrayVec<(u32, usize), MOST_NAMED>,
    calls: u32,
    faults: u64,
}

impl Model for MemSink {
    ghost use Rattle.std.specs.Prelude.{◌≤◌, vec_len, vec_capacity};
    ghost use Rattle.vip_outside.specs.MemSink.{SinkInMemory};

    ghost Value = { SinkInMemory };

    ghost view = { λ s. record { held = s.bytes.items; room = s.room; named = s.named.items; calls = s.calls; faults = s.faults } };

    ghost invariant = { λ s. (vec_len s.bytes ≤ s.room) × (s.room ≤ vec_capacity s.bytes) };
}

impl MemSink {
    /// An empty sink with room for so many bytes, which it reserves here and never extends.
    pub fn new(alloc: Global, room: usize) -> Result<MemSink, AllocError>
        ensures empty { IfOk result (λ sink. sink ≡ empty_sink room) }
    {
        let bytes = Vec::with_capacity(alloc, room)?;
        Ok(MemSink {
            bytes,
            room,
            named: ArrayVec::new(),
            calls: 0,
            faults: 0,
        })
    }

    /// Names the calls of `put` that fail where their piece isn't empty, at most 8, counted from 0
    /// over all calls so far, and how many bytes of its piece each keeps; a shorter piece is kept
    /// whole. They take the place of those named before. It takes no memory.
    pub fn fail_at(&mut self, calls: &[(u32, usize)])
        requires few { length calls.now ≤ MOST_NAMED }
        ensures named { self.new ≡ record self.old { named = calls.now } }
    {
        self.named.clear();
        self.named.try_extend_from_slice(calls).unwrap();
    }

    /// The bytes that it holds, in the order in which they were put.
    pub fn bytes(&self) -> &[u8]
        ensures value { result.now ≡ self.now.held }
    {
        self.bytes.as_slice()
    }

    /// How many calls of `put` there were, those that failed and those of empty pieces too.
    pub fn calls(&self) -> u32
        ensures value { result ≡ self.now.calls }
    {
        self.calls
    }
}

impl MemSink {
    /// How many bytes of its piece the next call keeps, where it is named.
    fn named_kept(&self) -> Option<usize>
        ensures { result ≡ named_kept self.now }
    {
        let named = self.named.as_slice();
        for entry in named {
            if entry.0 == self.calls {
                return Some(entry.1);
            }
        }
        None
    }

    /// Whether the next put of a piece is a fault.
    fn is_fault(&self, piece: &[u8]) -> bool
        ensures { result ≡ is_fault self.now piece.now }
    {
        let left = self.room - self.bytes.len();
        self.calls == u32::MAX
            || (!piece.is_empty() && (self.named_kept().is_some() || left < piece.len()))
    }

    /// The most bytes of a piece that the next put keeps.
    fn most_kept(&self) -> usize
        ensures value { result ≡ most_kept self.now }
        ensures fits { result ≤ room_left self.now }
    {
        let left = self.room - self.bytes.len();
        if self.calls == u32::MAX {
            0
        } else {
            self.named_kept().unwrap_or(left).min(left)
        }
    }
}

impl Sink for MemSink {
    ghost meaning = { meaning_of };

    /// A put is a fault exactly where the number of calls stands at the greatest `u32`, or the piece
    /// isn't empty and the call is named or the piece doesn't fit into the room. It keeps as many
    /// bytes as were named, and never more than fit. It takes no memory.
    fn put(&mut self, piece: &[u8]) -> Result<(), Failed>
        ensures answer { PutAnswers piece.now (meaning_of self.old) (meaning_of self.new) result }
        ensures fault { is_err result ≡ is_fault self.old piece.now }
        ensures after { self.new ≡ after_put self.old piece.now }
    {
        let fault = self.is_fault(piece);
        let kept = self.most_kept().min(piece.len());
        self.bytes.extend_from_slice(&piece[..kept]).unwrap();
        self.calls = self.calls.saturating_add(1);
        if fault {
            self.faults = self.faults.saturating_add(1);
            return Err(Failed);
        }
        Ok(())
    }
}
