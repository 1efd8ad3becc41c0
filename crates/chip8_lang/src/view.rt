//! What is shown of a language state.

use arrayvec::ArrayVec;

/// An edition of the language: its screen has 32 rows, or 64 of them, each half as high. This project's profile.
#[derive(Clone, Copy, PartialEq, Eq)]
pub enum Edition {
    Usual,
    Tall,
}

/// Why a game stopped.
#[derive(Clone, Copy, PartialEq, Eq)]
pub enum Stop {
    /// A call of machine code, 0MMM other than 00E0 and 00EE.
    MachineCall,
    /// An opcode that is none of the language.
    Unknown,
    /// The opcode does not lie in game memory.
    FetchOutside,
    /// FX65 or DXYN whose bytes lie neither in game memory nor in the font.
    ReadOutside,
    /// FX33 or FX55 whose bytes do not lie in game memory.
    WriteOutside,
    /// A call with 12 addresses on the stack.
    StackFull,
    /// A return with none.
    StackEmpty,
}

/// A stop: its pc and opcode, which is none for `FetchOutside`, and the machine cycle of the stop point.
#[derive(Clone, Copy, PartialEq, Eq)]
pub struct StopRecord {
    pub stop: Stop,
    pub pc: u16,
    pub opcode: Option<u16>,
    pub cycle: u64,
}

/// A language state at a dispatch point, but for game memory and screen. The opcode is none where pc or pc + 1 lies outside game
/// memory; the stack has the oldest address first; `n` counts the timer ticks, modulo 65536; `b` is the random byte; `cycle` is the
/// machine cycle of the dispatch point.
#[derive(Drop)]
pub struct StateView {
    pub v: [u8; 16],
    pub i: u16,
    pub pc: u16,
    pub opcode: Option<u16>,
    pub stack: ArrayVec<u16, 12>,
    pub dt: u8,
    pub st: u8,
    pub tone: bool,
    pub n: u16,
    pub b: u8,
    pub cycle: u64,
}
