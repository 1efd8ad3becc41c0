//! A plain memory with ports that remember what was done to them.

ghost use Rattle.std.specs.Prelude.{◌≡◌, vec_len};

use crate::processor::vector::{Call, Calls, Vector, word};
use std::alloc::{AllocError, Global};
use std::cell::Cell;
use vip_cpu::Bus;

/// The bytes of an address space.
const SIZE: usize = 65536;

/// The most bytes that are read in a machine cycle, those of a long branch's address.
const MOST_READS: usize = 2;

/// Addresses in order.
#[derive(Clone, Copy)]
pub struct Reads {
    addresses: [u16; MOST_READS],
    count: usize,
}

impl Reads {
    const NONE: Reads = Reads {
        addresses: [0; MOST_READS],
        count: 0,
    };

    pub fn as_slice(&self) -> &[u16] {
        &self.addresses[..self.count.min(MOST_READS)]
    }

    /// Those and one more, as far as there is room.
    fn and(&self, address: u16) -> Reads {
        let mut reads = *self;
        let count = reads.count;
        if let Some(place) = reads.addresses.get_mut(count) {
            *place = address;
            reads.count = count.saturating_add(1);
        }
        reads
    }
}

#[derive(Drop)]
pub struct TestBus {
    bytes: Vec<u8>,
    /// Writes change RAM alone, 0000 to 0FFF.
    is_board: bool,
    /// EF1 to EF4.
    flags: [bool; 4],
    /// The byte that an INP takes.
    taken: u8,
    calls: Calls,
    /// What was read since it was asked for last.
    reads: Cell<Reads>,
    ghost full: { vec_len bytes ≡ 65536 },
}

impl TestBus {
    ghost use Rattle.test_machine.specs.Laws.{Stores, Keeps};

    pub fn new(alloc: Global) -> Result<TestBus, AllocError> {
        let bytes = vec![in alloc; 0; SIZE]?;
        Ok(TestBus {
            bytes,
            is_board: false,
            flags: [false; 4],
            taken: 0,
            calls: Calls::NONE,
            reads: Cell::new(Reads::NONE),
        })
    }

    /// Puts bytes from an address on.
    pub fn lay(&mut self, address: u16, bytes: &[u8]) {
        let mut place = address;
        for byte in bytes.iter() {
            self.bytes[place as usize] = *byte;
            place = place.wrapping_add(1);
        }
    }

    /// Memory, flags and ports as a vector has them, and no calls yet.
    pub fn prepare(&mut self, vector: &Vector) {
        self.bytes.fill(0);
        self.is_board = vector.kind.is_board;
        if self.is_board {
            self.bytes[0x1000..0x8000].fill(0xFF);
            self.bytes[0x8800..SIZE].fill(0xFF);
        }
        for &[high, low, byte] in vector.memory.as_slice().iter() {
            self.bytes[word(high, low) as usize] = byte;
        }
        self.flags = vector.flags;
        self.taken = vector.taken;
        self.calls = Calls::NONE;
    }

    /// Each flag becomes the other value.
    pub fn turn_flags(&mut self) {
        let [ef1, ef2, ef3, ef4] = self.flags;
        self.flags = [!ef1, !ef2, !ef3, !ef4];
    }

    /// The calls that changed the bus, in order.
    pub fn calls(&self) -> &[Call] {
        self.calls.as_slice()
    }

    /// The addresses that were read since this was asked last.
    pub fn take_reads(&mut self) -> Reads {
        let reads = self.reads.get();
        self.reads.set(Reads::NONE);
        reads
    }

    fn store(&mut self, address: u16, value: u8)
        ensures { Stores self.old address value self.new }
    {
        if !self.is_board || address < 0x1000 {
            self.bytes[address as usize] = value;
        }
    }

    fn note(&mut self, call: Call)
        ensures { Keeps self.old self.new }
    {
        self.calls.push(call);
    }
}

impl Bus for TestBus {
    ghost use Rattle.std.specs.Prelude.{◌-◌, slice_index, slice_index_or, false};
    ghost use Rattle.test_machine.specs.Laws.{Stores, Keeps, stores-keeps, stores-puts, keeps-keeps};

    ghost byte = { λ b a. slice_index b.bytes.items a };

    ghost flags = { λ b f. slice_index_or b.flags (f - 1) false };

    ghost writes = { Stores };

    ghost sends = { λ b p v c. Keeps b c };

    ghost receives = { λ b p v c. Keeps b c };

    ghost write_keeps = { stores-keeps };

    ghost write_puts = { stores-puts };

    ghost inp_keeps = { keeps-keeps };

    fn read(&self, address: u16) -> u8 {
        self.reads.set(self.reads.get().and(address));
        self.bytes[address as usize]
    }

    fn write(&mut self, address: u16, value: u8) {
        self.store(address, value);
        self.note(Call::write(address, value));
    }

    fn out(&mut self, port: u8, value: u8) {
        self.note(Call::at_port(port, value));
    }

    fn inp(&mut self, port: u8) -> u8 {
        self.note(Call::at_port(port + 8, 0));
        self.taken
    }

    fn ef(&mut self, flag: u8) -> bool {
        self.flags[(flag - 1) as usize]
    }
}
