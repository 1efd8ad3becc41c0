//! The faults of a certificate.

ghost use Rattle.std.specs.Prelude.{◌≡◌};
ghost use Rattle.cycle_check.specs.Closed.{bytes_at};
ghost use Rattle.cycle_check.specs.declared.fault.TimingFault.TheVariants.{NotFound};
ghost use Rattle.cycle_check.specs.FaultNames.{cert_cause_name, timing_cause_name};

use crate::closed::bytes_at;
use std::alloc::AllocError;
use thiserror::Error;

/// What is wrong with a line of a certificate. The first three are looked for line by line over all lines, in this order in a line; then
/// `NoEntry`; and then the last two, again line by line.
#[derive(Clone, Copy, Debug, Error)]
#[error("{}", self.name())]
pub enum CertCause {
    /// The first line that says something is no `within` line, or a later one is no line of an address; or no line says anything, which is
    /// said of line 1.
    BadLine,
    /// A number is not of its digits or out of its range, or the counter register is the program counter.
    BadNumber,
    /// The address is not above that of the line before.
    Order,
    /// No line has the entry; or its line asks for an X or for a fact, or leaves more cycles than the limit at a counter of 255.
    NoEntry,
    /// The opcode at the address is not allowed: a byte of the instruction lies outside the ROM, or the instruction idles, or could change
    /// the program counter or the counter register by another way than its row names.
    Opcode,
    /// What the line says does not follow from what the lines behind its instruction say.
    Step,
}

impl CertCause {
    /// Its name, which its text and the reports show.
    pub fn name(self) -> &'static str
        ensures { result.now ≡ cert_cause_name self }
    {
        match self {
            CertCause::BadLine => "BadLine",
            CertCause::BadNumber => "BadNumber",
            CertCause::Order => "Order",
            CertCause::NoEntry => "NoEntry",
            CertCause::Opcode => "Opcode",
            CertCause::Step => "Step",
        }
    }
}

/// Why a certificate is not accepted.
#[derive(Clone, Copy, Debug, Error)]
pub enum CertFault {
    /// The first fault, with the number of its line, counted from 1.
    #[error("line {line}: {cause}")]
    Fault { line: u32, cause: CertCause },
    /// No memory was left for the lines.
    #[error("NoMemory")]
    NoMemory,
}

impl From<AllocError> for CertFault {
    ghost use Rattle.std.specs.Prelude.{◌≡◌};
    ghost use Rattle.cycle_check.specs.declared.fault.CertFault.TheVariants.{NoMemory};

    ghost from_gives = { λ _ fault. fault ≡ NoMemory };

    fn from(_error: AllocError) -> CertFault {
        CertFault::NoMemory
    }
}

/// Why no certificate of a routine was found.
///
/// `Opcode` is true of the instruction. The other causes name a line at which the search gave up,
/// and promise nothing: another certificate may exist.
#[derive(Clone, Copy, Debug, Error)]
#[error("{}", self.name())]
pub enum TimingCause {
    /// The instruction isn't allowed if X isn't known: no certificate has it, or it changes R(X).
    /// The search found no X there that is neither P nor K.
    Opcode,
    /// An iteration from the address back to it isn't counted, as far as the search knows: none of
    /// its instructions assigns the counter, or one of them may raise it.
    Loop,
    /// The search found a BASE or STEP above 1,000,000 for the line of the address.
    Most,
    /// The line of the address says a fact with which the certificate isn't accepted. For the
    /// entry, it can also mean that there aren't two registers P and K.
    Fact,
}

impl TimingCause {
    /// Its name, which its text and the reports show.
    pub fn name(self) -> &'static str
        ensures { result.now ≡ timing_cause_name self }
    {
        match self {
            TimingCause::Opcode => "Opcode",
            TimingCause::Loop => "Loop",
            TimingCause::Most => "Most",
            TimingCause::Fact => "Fact",
        }
    }
}

/// Where no certificate of a routine was found: why, at which address, and the bytes of the ROM from there on.
#[derive(Clone, Copy)]
pub struct TimingObstacle {
    pub cause: TimingCause,
    pub address: u16,
    pub bytes: [u8; 3],
}

/// Why no certificate of a routine was found, or no memory was left.
#[derive(Clone, Copy)]
pub enum TimingFault {
    NotFound(TimingObstacle),
    NoMemory,
}

/// Returns why no certificate was found, and at which address of a ROM.
pub fn obstacle(rom: &[u8], cause: TimingCause, address: u16) -> TimingFault
    ensures { result ≡ NotFound (record { cause = cause; address = address; bytes = bytes_at rom.now address }) }
{
    TimingFault::NotFound(TimingObstacle {
        cause,
        address,
        bytes: bytes_at(rom, address),
    })
}

impl From<AllocError> for TimingFault {
    ghost use Rattle.std.specs.Prelude.{◌≡◌};
    ghost use Rattle.cycle_check.specs.declared.fault.TimingFault.TheVariants.{NoMemory};

    ghost from_gives = { λ _ fault. fault ≡ NoMemory };

    fn from(_error: AllocError) -> TimingFault {
        TimingFault::NoMemory
    }
}
