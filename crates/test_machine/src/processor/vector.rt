//! One vector: an instruction or a move that a signal wants, with the state before and after it.

ghost use Rattle.std.specs.Prelude.{◌<◌};

use crate::processor::fields::Fields;
use vip_cpu::{Cpu, Parts};

/// The most groups of three bytes in a field of a vector.
const MOST: usize = 16;

/// Room for the calls of the longest vector, and for one more.
const MOST_CALLS: usize = MOST + 2;

/// The registers of a processor at a boundary.
#[derive(Clone, Copy, PartialEq, Eq)]
pub struct State {
    pub r: [u16; 16],
    pub d: u8,
    pub t: u8,
    /// X and P as the halves of a byte, as T holds them.
    pub xp: u8,
    /// 4 * IE + 2 * Q + DF.
    pub bits: u8,
}

/// A call of a processor that changes its bus.
#[derive(Clone, Copy, PartialEq, Eq)]
pub struct Call {
    /// 1 to 7 for OUT, 9 to F for INP, and 0 for a write to memory.
    n: u8,
    /// That of a write, and else 0.
    address: u16,
    /// The byte that is written or sent, and 00 for INP.
    byte: u8,
}

/// Calls in order.
#[derive(Clone, Copy)]
pub struct Calls {
    calls: [Call; MOST_CALLS],
    count: usize,
}

/// Groups of three bytes: an address and the byte there, or a register's name and what it holds.
#[derive(Clone, Copy)]
pub struct Triples {
    triples: [[u8; 3]; MOST],
    count: usize,
}

/// What a vector is of.
#[derive(Clone, Copy)]
pub struct Kind {
    /// Memory is that of the board.
    pub is_board: bool,
    /// It was measured with the display on.
    pub has_display: bool,
    /// It begins with an instruction, and not with a move that a signal wants.
    pub has_instruction: bool,
}

/// What comes after an instruction.
#[derive(Clone, Copy)]
pub struct Signals {
    /// INT is active, with IE = 0.
    pub ignores_int: bool,
    /// An interrupt cycle comes.
    pub takes_int: bool,
    /// How many DMA cycles come.
    pub dma_cycles: u16,
}

#[derive(Clone, Copy)]
pub struct Vector {
    pub kind: Kind,
    pub before: State,
    pub after: State,
    /// EF1 to EF4.
    pub flags: [bool; 4],
    /// The byte that an INP takes.
    pub taken: u8,
    /// The two bytes of an address and the byte there.
    pub memory: Triples,
    /// What the instruction does on the bus, the port first.
    pub calls: Calls,
    pub signals: Signals,
    /// All machine cycles, those of idling too.
    pub cycles: u16,
}

impl Kind {
    /// The kind of a letter.
    fn of(letter: &str) -> Kind {
        Kind {
            is_board: !letter.starts_with('f'),
            has_display: letter.starts_with('s') || letter.starts_with('m'),
            has_instruction: !letter.starts_with('m'),
        }
    }
}

impl Signals {
    /// Those of the letters of the moves after an instruction: `I`, or each DMA cycle's D behind an `i` that may come first.
    fn of(moves: &str) -> Signals {
        let cycles = moves.strip_prefix('i').unwrap_or(moves);
        let has_dma = cycles.starts_with('D');
        Signals {
            ignores_int: moves.starts_with('i'),
            takes_int: moves.starts_with('I'),
            dma_cycles: if has_dma {
                cycles.len().min(MOST) as u16
            } else {
                0
            },
        }
    }

    /// The machine cycles that come.
    pub fn cycles(&self) -> u16 {
        self.dma_cycles.saturating_add(self.takes_int as u16)
    }
}

impl State {
    /// The state of a processor at a boundary.
    pub fn of(cpu: &Cpu) -> State {
        let mut r = [0; 16];
        for n in 0..16u8 {
            r[n as usize] = cpu.r(n);
        }
        State {
            r,
            d: cpu.d(),
            t: cpu.t(),
            xp: cpu.x() * 16 + cpu.p(),
            bits: 4 * cpu.ie() as u8 + 2 * cpu.q() as u8 + cpu.df() as u8,
        }
    }

    /// IE.
    pub fn enables_interrupts(&self) -> bool {
        self.bits / 4 % 2 == 1
    }

    /// R(P).
    pub fn counter(&self) -> u16 {
        self.r[(self.xp % 16) as usize]
    }

    /// The parts of a processor in this state, but that it has interrupts enabled.
    pub fn parts(&self) -> Parts
        ensures x { result.x < 16 }
        ensures p { result.p < 16 }
    {
        Parts {
            r: self.r,
            d: self.d,
            t: self.t,
            x: self.xp / 16,
            p: self.xp % 16,
            df: self.bits % 2 == 1,
            q: self.bits / 2 % 2 == 1,
        }
    }

    /// That of the next two fields of a vector.
    fn take(line: &mut Fields<'_>) -> State {
        let mut registers = [0; 32];
        line.put(&mut registers);
        let mut others = [0; 4];
        line.put(&mut others);
        let [d, t, xp, bits] = others;
        let mut r = [0; 16];
        for n in 0..16 {
            r[n] = word(registers[2 * n], registers[2 * n + 1]);
        }
        State { r, d, t, xp, bits }
    }

    /// The state behind the changes of the next field of a vector.
    fn changed(mut self, line: &mut Fields<'_>) -> State {
        for &[name, high, low] in Triples::take(line).as_slice().iter() {
            line.require(self.change(name, high, low));
        }
        self
    }

    /// Puts a number into the register of this name, as in the seventh field of a vector. False where there is no such name.
    fn change(&mut self, name: u8, high: u8, low: u8) -> bool {
        match name {
            0x00..=0x0F => self.r[name as usize] = word(high, low),
            0x10 => self.d = low,
            0x11 => self.t = low,
            0x12 => self.xp = low,
            0x13 => self.bits = low,
            _ => return false,
        }
        true
    }
}

impl Call {
    /// Its port's N, or 0, its address and its byte.
    pub fn parts(&self) -> (u8, u16, u8) {
        (self.n, self.address, self.byte)
    }

    pub fn write(address: u16, byte: u8) -> Call {
        Call {
            n: 0,
            address,
            byte,
        }
    }

    pub fn at_port(n: u8, byte: u8) -> Call {
        Call {
            n,
            address: 0,
            byte,
        }
    }
}

impl Calls {
    pub const NONE: Calls = Calls {
        calls: [Call {
            n: 0,
            address: 0,
            byte: 0,
        }; MOST_CALLS],
        count: 0,
    };

    /// Adds a call behind the others, as far as there is room.
    pub fn push(&mut self, call: Call) {
        if let Some(place) = self.calls.get_mut(self.count) {
            *place = call;
            self.count = self.count.saturating_add(1);
        }
    }

    pub fn as_slice(&self) -> &[Call] {
        &self.calls[..self.count.min(MOST_CALLS)]
    }

    /// Those of the next two fields of a vector: the writes to memory, after the call at a port if there is one.
    fn take(line: &mut Fields<'_>) -> Calls {
        let mut calls = Calls::NONE;
        let writes = Triples::take(line);
        let port = line.take();
        if port != "-" {
            let mut call = [0; 2];
            line.decode(port, &mut call);
            let [n, byte] = call;
            line.require(n % 8 != 0 && n < 16);
            calls.push(Call::at_port(n, byte));
        }
        for &[high, low, byte] in writes.as_slice().iter() {
            calls.push(Call::write(word(high, low), byte));
        }
        calls
    }
}

impl Triples {
    /// Those of the next field, which has no separators; `-` is the empty list.
    fn take(line: &mut Fields<'_>) -> Triples {
        let field = line.take();
        let digits = if field == "-" { "" } else { field };
        let count = (digits.len() / 6).min(MOST);
        let mut triples = [[0; 3]; MOST];
        line.decode(digits, &mut triples.as_flattened_mut()[..3 * count]);
        Triples { triples, count }
    }

    pub fn as_slice(&self) -> &[[u8; 3]] {
        &self.triples[..self.count.min(MOST)]
    }
}

pub fn word(high: u8, low: u8) -> u16 {
    high as u16 * 256 + low as u16
}

/// The flags EF1 to EF4 of the bits 0 to 3.
fn flags_of(bits: u8) -> [bool; 4] {
    [
        bits % 2 == 1,
        bits / 2 % 2 == 1,
        bits / 4 % 2 == 1,
        bits / 8 % 2 == 1,
    ]
}

impl Vector {
    /// The vector of a line. None where it is none.
    pub fn read(line: &str) -> Option<Vector> {
        let mut line = Fields::of(line);
        line.take();
        let kind = Kind::of(line.take());
        let before = State::take(&mut line);
        let mut inputs = [0; 2];
        line.put(&mut inputs);
        let [flags, taken] = inputs;
        let vector = Vector {
            kind,
            before,
            flags: flags_of(flags),
            taken,
            memory: Triples::take(&mut line),
            after: before.changed(&mut line),
            calls: Calls::take(&mut line),
            cycles: line.decimal().min(65_535) as u16,
            signals: Signals::of(line.take()),
        };
        if line.is_right() { Some(vector) } else { None }
    }
}
