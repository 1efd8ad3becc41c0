//! How a run ends.

use chip8_lang::StopRecord;

/// How a run ended.
#[derive(Clone, Copy, PartialEq, Eq)]
pub enum RunEnd {
    /// Every event up to the limit was met.
    AtLimit,
    /// It came to its stop point.
    AtStop(StopRecord),
}
