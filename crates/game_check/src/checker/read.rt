//! How a certificate is read: its claims, in order.

ghost use Rattle.std.specs.Prelude.{◌≡◌, ◌+◌, ◌≤◌, ◌⊎◌, ◌++◌, length, Ok, Err, OnOk, IfOk, IfErr};
ghost use Rattle.std.specs.Option.{option_to_list};
ghost use Rattle.std.specs.Result.{result_err};
ghost use Rattle.game_check.specs.Grammar.{cause_after, is_behind, read_claims, said};
ghost use Rattle.game_check.specs.Order.{IsAscending};

use crate::checker::line::read_line;
use crate::claim::Claim;
use crate::fault::{ProofCause, ProofFault};
use std::alloc::{AllocError, Global};
use vip_byte::{Lines, MOST_TEXT};

/// The claims of a certificate in order, or its first fault by form or order.
pub fn read_claims(alloc: Global, text: &[u8]) -> Result<Vec<Claim>, ProofFault>
    requires { length text.now ≤ MOST_TEXT }
    ensures claims { IfOk result (λ claims. read_claims text.now ≡ Ok claims.items) }
    ensures ascending { IfOk result (λ claims. IsAscending claims.items) }
    ensures few { IfOk result (λ claims. length claims.items ≤ length text.now + 1) }
    ensures fault { IfErr result
        (λ fault. (fault ≡ ProofFault.NoMemory) ⊎ (read_claims text.now ≡ Err fault)) }
{
    let mut claims = Vec::new(alloc);
    let mut number = 0;
    for line in Lines::new(text) {
        number += 1;
        match next_claim(claims.as_slice(), line) {
            Ok(claim) => extend(&mut claims, claim)?,
            Err(cause) => return Err(ProofFault::Fault {
                line: number,
                cause,
            }),
        }
    }
    Ok(claims)
}

// What a line says behind the claims before it, or the first cause for which it is refused.
#[tactic(auto, unfolding(crate::specs::Grammar::cause_after))]
fn next_claim(before: &[Claim], line: &[u8]) -> Result<Option<Claim>, ProofCause>
    ensures refused { result_err result ≡ cause_after before.now (said line.now) }
    ensures claim { IfOk result (λ claim. said line.now ≡ Ok claim) }
{
    let Some(claim) = read_line(line)? else {
        return Ok(None);
    };
    if !is_behind(before, &claim) {
        return Err(ProofCause::Order);
    }
    Ok(Some(claim))
}

/// Whether a claim comes behind others.
fn is_behind(before: &[Claim], claim: &Claim) -> bool
    ensures { result ≡ is_behind before.now claim.now }
{
    match before.last() {
        Some(last) => last.point.order(&claim.point).is_lt(),
        None => true,
    }
}

// Adds the claim that a line says, if it says one, behind the others.
fn extend(claims: &mut Vec<Claim>, claim: Option<Claim>) -> Result<(), AllocError>
    ensures { OnOk result (claims.new.items ≡ claims.old.items ++ option_to_list claim) }
{
    if let Some(claim) = claim {
        claims.push(claim)?;
    }
    Ok(())
}
