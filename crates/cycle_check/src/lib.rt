//! Cycle certificates: whether a certificate bounds the machine cycles of a routine in a ROM.
//!
//! A certificate is a text that says for each address of a routine how many cycles are left there at most, by the value of a counter
//! register, and what is known of X and D. `check_cycles` checks each of its lines against the instruction at its address and the lines
//! behind that; it runs nothing. The format and the rules are this project's profile (`docs/CERTIFICATES.md`), the instructions those of RCA's
//! data sheet of the CDP1802.
//!
//! The crate stands on the definitions of `machine`, on `vip_isa`, on `vip_byte` and on the kit's `arrayvec` and `thiserror`. The layers above may
//! rely on this: an answer is the one of `specs/Closed.antt`, want of memory aside, and a certificate that is accepted holds of the machine's
//! instruction semantics (`specs/Leaving.antt`): from every state at its entry, with the boot latch clear, instruction moves that each start at a
//! listed address with its program counter take no more cycles than its limit, whatever the flags and the bytes from ports are. DMA and interrupts
//! aren't counted.
#![tactic(auto)]

ghost use Rattle.std.specs.Prelude.{◌≡◌, ◌≤◌, ◌⊎◌, length, Some, Ok, Err, IfOk, IfErr};
ghost use Rattle.cycle_check.specs.Closed.{checked};
ghost use Rattle.cycle_check.specs.Exits.{exits_in};
ghost use Rattle.cycle_check.specs.Leaving.{IsWithin};
ghost use Rattle.cycle_check.specs.Reading.{IsRead};

mod certificate;
mod closed;
mod components;
mod cost;
mod drawn;
mod exits;
mod fault;
mod find;
mod forward;
mod grammar;
mod graph;
mod known;
pub mod laws;
mod table;
mod write;

use crate::certificate::{Draft, read_certificate, statement_number};
use crate::closed::fault_in;
pub use crate::exits::Exit;
use crate::exits::exits_of;
pub use crate::fault::{CertCause, CertFault, TimingCause, TimingFault, TimingObstacle};
pub use crate::find::find_timing;
use crate::grammar::Bound;
use std::alloc::Global;
use vip_byte::MOST_TEXT;

/// What an accepted certificate promises: from the entry the routine leaves before more than `limit` machine cycles have passed.
#[derive(Clone, Copy)]
pub struct Within {
    /// The address at which the routine is entered.
    pub entry: u16,
    /// The most machine cycles, not counting those of DMA and interrupts.
    pub limit: u32,
}

/// Checks a certificate of at most 1,048,576 bytes against the 2,048 bytes of a ROM that lies at 8000 (this project's format).
///
/// | A line | Says |
/// |---|---|
/// | no word, or a first word that begins with `#` | nothing |
/// | the first other line: `within ENTRY P K LIMIT` | from ENTRY, with R(P) as program counter, at most LIMIT cycles pass; R(K) is the counter |
/// | each further line: `ADDRESS X BASE STEP FACT` | at ADDRESS, where X and the fact hold, at most BASE + STEP times R(K).0 cycles are left |
///
/// ENTRY and ADDRESS have four hexadecimal digits, P, K and X one, and X may be `-` for unknown. LIMIT is decimal, up to 1,000,000,000, BASE
/// and STEP up to 1,000,000. FACT is `any`; `copy`, D is R(K).0; `some`, R(K).0 isn't 0; or `is` and two digits, D is that byte. The
/// addresses rise.
///
/// The answer is the entry and the limit; or the first fault: the first line that the grammar refuses; else the entry that no line covers;
/// else the first line whose opcode isn't allowed or whose promise doesn't follow from those behind it; or memory was wanting.
pub fn check_cycles(alloc: Global, rom: &[u8; 2048], text: &[u8]) -> Result<Within, CertFault>
    requires { length text.now ≤ MOST_TEXT }
    ensures accepted { IfOk result (λ within. checked rom.now text.now ≡ Ok within) }
    ensures fault { IfErr result
        (λ fault. (fault ≡ CertFault.NoMemory) ⊎ (checked rom.now text.now ≡ Err fault)) }
    ensures within { IfOk result (λ within. IsWithin rom.now text.now within) }
{
    let (within, _, _) = accept(alloc, rom, text)?;
    Ok(within)
}

/// Checks a certificate as `check_cycles` does, and gives its exits with what it promises: for each line and next address without a line that
/// its fact lets through where the routine is left, by address and next address.
pub fn check_exits(
    alloc: Global,
    rom: &[u8; 2048],
    text: &[u8],
) -> Result<(Within, Vec<Exit>), CertFault>
    requires { length text.now ≤ MOST_TEXT }
    ensures accepted { IfOk result (λ answer. checked rom.now text.now ≡ Ok answer.0) }
    ensures exits { IfOk result (λ answer. answer.1.items ≡ exits_in rom.now text.now) }
    ensures fault { IfErr result
        (λ fault. (fault ≡ CertFault.NoMemory) ⊎ (checked rom.now text.now ≡ Err fault)) }
    ensures within { IfOk result (λ answer. IsWithin rom.now text.now answer.0) }
{
    let (within, bound, certificate) = accept(alloc, rom, text)?;
    let exits = exits_of(alloc, rom, &bound, certificate.lines())?;
    Ok((within, exits))
}

// What an accepted certificate promises, with its bound and what was read of it.
fn accept(alloc: Global, rom: &[u8; 2048], text: &[u8]) -> Result<(Within, Bound, Draft), CertFault>
    requires { length text.now ≤ MOST_TEXT }
    ensures accepted { IfOk result (λ got. checked rom.now text.now ≡ Ok got.0) }
    ensures read { IfOk result (λ got. IsRead text.now got.2) }
    ensures bound { IfOk result (λ got. got.2.bound ≡ Some got.1) }
    ensures fault { IfErr result
        (λ fault. (fault ≡ CertFault.NoMemory) ⊎ (checked rom.now text.now ≡ Err fault)) }
    ensures within { IfOk result (λ got. IsWithin rom.now text.now got.0) }
    ensures same { IfOk result (λ got. got.0 ≡ record { entry = got.1.entry; limit = got.1.limit }) }
{
    let certificate = read_certificate(alloc, text)?;
    let Some(bound) = certificate.bound() else {
        return Err(CertFault::Fault {
            line: 1,
            cause: CertCause::BadLine,
        });
    };
    match fault_in(rom, &bound, certificate.lines()) {
        Some((place, cause)) => Err(CertFault::Fault {
            line: statement_number(text, place),
            cause,
        }),
        None => {
            let within = Within {
                entry: bound.entry,
                limit: bound.limit,
            };
            Ok((within, bound, certificate))
        }
    }
}
