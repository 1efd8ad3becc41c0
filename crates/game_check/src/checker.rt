//! Whether a certificate shows that a game never stops.

ghost use Rattle.std.specs.Prelude.{◌≡◌, ◌+◌, ◌≤◌, ◌⊎◌, length, Ok, Err, OnOk, IfOk, IfErr};
ghost use Rattle.std.specs.Result.{result_err};
ghost use Rattle.vip_byte.specs.Reading.{read};
ghost use Rattle.chip8_lang.specs.State.{Lang, memory_size};
ghost use Rattle.game_check.specs.Closed.{has_start};
ghost use Rattle.game_check.specs.Grammar.{claims_of, read_claims, said};
ghost use Rattle.game_check.specs.Laws.{StepsOn};
ghost use Rattle.game_check.specs.Order.{IsAscending};
ghost use Rattle.game_check.specs.Proof.{closed_format, proof_of, refusal};
ghost use Rattle.game_check.specs.States.{IsCertified, NeverStops};

pub(crate) mod closed;
mod line;
mod read;

use crate::checker::closed::{check_claim, is_claimed};
use crate::checker::line::read_line;
use crate::checker::read::read_claims;
use crate::claim::{Claim, Point, stack_of};
use crate::fault::{ProofCause, ProofFault};
use chip8_lang::Edition;
use std::alloc::Global;
use vip_byte::{Lines, MOST_TEXT};

/// Checks a certificate of at most 1,048,576 bytes that a game never stops (this project's format).
///
/// | A line | Says |
/// |---|---|
/// | no word, or a first word that begins with `#` | nothing |
/// | `PC LOW HIGH` and up to 12 addresses | at PC with this stack, the oldest address first, I lies from LOW to HIGH |
///
/// Lines and words are those of a key script, and a word of a line that says something is four hexadecimal digits. The lines come in the order of their
/// pc, then of the length of their stack, and then by its first difference.
///
/// The answer is the number of lines that say something, or the first fault: of form or order, of the start, or of a line that isn't closed; or
/// memory was wanting. Where a number comes, no state of a run of the game stops, and each is one that a line stands for: a state with the pc and the
/// stack of the line, an I in its range, and the game's bytes in the code, which are those at PC and PC + 1 of all lines.
pub fn check_game(
    alloc: Global,
    edition: Edition,
    game: &[u8],
    text: &[u8],
) -> Result<u32, ProofFault>
    requires game_fits { length game.now ≤ memory_size edition }
    requires text_fits { length text.now ≤ MOST_TEXT }
    ensures count { IfOk result (λ count. proof_of edition game.now text.now ≡ Ok count) }
    ensures fault { IfErr result
        (λ fault. (fault ≡ ProofFault.NoMemory) ⊎ (proof_of edition game.now text.now ≡ Err fault)) }
    ensures steps { IfOk result
        (λ _. (s : Lang) → IsCertified game.now (claims_of text.now) s → StepsOn edition game.now text.now s) }
    ensures never_stops { IfOk result (λ _. NeverStops edition game.now) }
{
    match read_claims(alloc, text) {
        Ok(claims) => check_claims(edition, game, claims.as_slice(), text),
        Err(fault) => Err(fault),
    }
}

// What a certificate with these claims proves, or its first fault.
fn check_claims(
    edition: Edition,
    game: &[u8],
    claims: &[Claim],
    text: &[u8],
) -> Result<u32, ProofFault>
    requires text_fits { length text.now ≤ MOST_TEXT }
    requires read { read_claims text.now ≡ Ok claims.now }
    requires ascending { IsAscending claims.now }
    requires few { length claims.now ≤ length text.now + 1 }
    ensures { result ≡ proof_of edition game.now text.now }
{
    if !has_start(claims) {
        return Err(ProofFault::Fault {
            line: 1,
            cause: ProofCause::NoStart,
        });
    }
    match check_closed(edition, game, claims, text) {
        Ok(()) => Ok(claims.len() as u32),
        Err(fault) => Err(fault),
    }
}

// Whether some claim is of a game's first state.
fn has_start(claims: &[Claim]) -> bool
    requires { IsAscending claims.now }
    ensures { result ≡ has_start claims.now }
{
    let start = Point {
        pc: 0x0200,
        stack: stack_of(&[]),
    };
    is_claimed(claims, 0, 0, &start)
}

// Whether the claims of a certificate are closed, or its first line whose claim isn't.
fn check_closed(
    edition: Edition,
    game: &[u8],
    claims: &[Claim],
    text: &[u8],
) -> Result<(), ProofFault>
    requires text_fits { length text.now ≤ MOST_TEXT }
    requires ascending { IsAscending claims.now }
    ensures closed { OnOk result (read (closed_format edition game.now claims.now) text.now ≡ Ok (claims_of text.now)) }
    ensures fault { IfErr result
        (λ fault. read (closed_format edition game.now claims.now) text.now ≡ Err fault) }
{
    let mut number = 0;
    for line in Lines::new(text) {
        number += 1;
        if let Err(cause) = check_line(edition, game, claims, line) {
            return Err(ProofFault::Fault {
                line: number,
                cause,
            });
        }
    }
    Ok(())
}

// Whether what a line says is closed.
#[tactic(auto, unfolding(crate::specs::Proof::refusal))]
fn check_line(
    edition: Edition,
    game: &[u8],
    claims: &[Claim],
    line: &[u8],
) -> Result<(), ProofCause>
    requires { IsAscending claims.now }
    ensures { result_err result ≡ refusal edition game.now claims.now (said line.now) }
{
    match read_line(line)? {
        Some(claim) => check_claim(edition, game, claims, &claim),
        None => Ok(()),
    }
}
