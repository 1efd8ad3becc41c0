//! Why a file isn't a machine state, as a report names it.

ghost use Rattle.std.specs.Prelude.{◌≡◌};
ghost use Rattle.vip_text.specs.FaultNames.{state_fault_name};

use thiserror::Error;

/// The first fault of a file that isn't accepted.
#[derive(Clone, Copy, Debug, Error)]
#[error("{}", self.name())]
pub enum StateFault {
    /// It hasn't 4,147 bytes.
    BadLength,
    /// Its first five bytes differ.
    BadHead,
    /// It names no edition.
    BadEdition,
    /// No run stands at a dispatch point in its cycle: it is odd, or lies in the frame where the interrupt routine runs; or it is too large.
    BadCycle,
    /// Its registers aren't those of a processor at the interpreter's fetch loop, or there is no such key or flag.
    BadMachine,
}

impl StateFault {
    /// Its name, which its text and the reports show.
    pub fn name(self) -> &'static str
        ensures { result.now ≡ state_fault_name self }
    {
        match self {
            StateFault::BadLength => "BadLength",
            StateFault::BadHead => "BadHead",
            StateFault::BadEdition => "BadEdition",
            StateFault::BadCycle => "BadCycle",
            StateFault::BadMachine => "BadMachine",
        }
    }
}
