//! The instructions that bring a processor into the state before a vector.
//!
//! A processor that is made of its parts has interrupts enabled. Where a vector begins with IE = 0, a DIS comes before it, with X = P: its
//! second byte gives X and P, and R(P) goes on by 2. Behind it come as many SEX X as are wanted, which change R(P) alone. They end where R(P)
//! points to, and each takes two machine cycles.

ghost use Rattle.std.specs.Prelude.{◌<◌, ◌≤◌};

use crate::processor::vector::State;

/// The opcodes of DIS, and of SEX 0.
const DIS: u8 = 0x71;

const SEX: u8 = 0xE0;

/// The most bytes of these instructions.
const MOST: usize = 16;

/// The instructions before a vector: none where it has IE = 1.
#[derive(Clone, Copy)]
pub struct Preamble {
    state: State,
    bytes: [u8; MOST],
    length: usize,
    ghost fits: { length ≤ 16 },
}

impl Preamble {
    /// Those of a state, with so many SEX behind the DIS.
    pub fn of(state: &State, fillers: usize) -> Preamble {
        let mut bytes = [SEX + state.xp / 16; MOST];
        bytes[0] = DIS;
        bytes[1] = state.xp;
        let length = if state.enables_interrupts() {
            0
        } else {
            2 + fillers.min(MOST - 2)
        };
        Preamble {
            state: *state,
            bytes,
            length,
        }
    }

    pub fn bytes(&self) -> &[u8] {
        &self.bytes[..self.length]
    }

    /// They lie in memory: none of them comes before address 0000.
    pub fn is_in_memory(&self) -> bool {
        self.length <= usize::from(self.state.counter())
    }

    /// How many instructions they are.
    pub fn count(&self) -> u16
        ensures { result ≤ 15 }
    {
        self.length.saturating_sub(1) as u16
    }

    /// Their machine cycles.
    pub fn cycles(&self) -> u16 {
        2 * self.count()
    }

    /// The address of the first one.
    pub fn address(&self) -> u16 {
        self.state.counter().wrapping_sub(self.length as u16)
    }

    /// The state of a processor before the first one, but that interrupts are enabled.
    pub fn state(&self) -> State {
        let p = self.state.xp % 16;
        let mut state = self.state;
        if self.length > 0 {
            state.xp = p * 16 + p;
            state.r[p as usize] = self.address();
        }
        state
    }
}
