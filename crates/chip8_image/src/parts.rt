//! The parts of the ROM.

/// The parts of the ROM by what their code does.
#[derive(Clone, Copy, Debug, PartialEq, Eq)]
pub enum Part {
    /// boot, fetch and dispatch, which of FXKK an opcode is, and the stops
    Fetch,
    /// 0MMM, 00EE, jumps and calls, loads, skips, and 8XYN
    Arith,
    /// AMMM, FX1E, FX29, FX33, FX55 and FX65, and the range check
    Memory,
    /// 00E0 and DXYN
    Sprite,
    /// the interrupt routine, CXKK, FX07, FX15 and FX18
    Timer,
    /// EX9E, EXA1 and FX0A
    Keys,
    /// what is no code: the dispatch table, the font, and every other address
    Other,
}
