//! What a claim leaves at its next points.

ghost use Rattle.std.specs.Prelude.{◌≡◌, ◌+◌, ◌≤◌, ◌∷◌, true, false, if◌then◌else◌, IfSome, MatchOption};
ghost use Rattle.std.specs.Option.{option_to_list};
ghost use Rattle.game_check.specs.declared.claim.Claim.{Claim};
ghost use Rattle.game_check.specs.Closed.{high_after, instr_in};
ghost use Rattle.game_check.specs.Least.{goes, left_by, start_claim};
ghost use Rattle.game_check.specs.Searching.{ways_of, IsAhead};

use crate::checker::closed::{
    LAST_ADDRESS, high_after, instr_in, is_allowed, is_in_memory, low_after, next_points,
};
use crate::claim::{Claim, Point, stack_of};
use chip8_lang::{Edition, Instr};

/// The claim of a game's first state.
pub fn start_claim() -> Claim
    ensures { result ≡ start_claim }
{
    Claim {
        point: Point {
            pc: 0x0200,
            stack: stack_of(&[]),
        },
        low: 0,
        high: 0,
    }
}

/// What a claim leaves at its next points, if it goes on.
pub fn ways_of(edition: Edition, game: &[u8], claim: &Claim) -> Option<(Claim, Option<Claim>)>
    ensures { MatchOption result (goes edition game.now claim.now ≡ false)
        (λ ways. (ways_of game.now claim.now ≡ ways.0 ∷ option_to_list ways.1) × (goes edition game.now claim.now ≡ true)) }
{
    let Some(instr) = instr_of(edition, game, claim) else {
        return None;
    };
    let (first, second) = next_points(&instr, &claim.point);
    let first = left_by(&instr, claim, first);
    match second {
        Some(second) => Some((first, Some(left_by(&instr, claim, second)))),
        None => Some((first, None)),
    }
}

// What a claim leaves at a next point.
fn left_by(instr: &Instr, claim: &Claim, point: Point) -> Claim
    ensures { result ≡ left_by instr.now claim.now point }
{
    Claim {
        point,
        low: low_after(instr, claim).min(LAST_ADDRESS) as u16,
        high: high_after(instr, claim).min(LAST_ADDRESS + 1) as u32,
    }
}

// The instruction of a claim that goes on.
fn instr_of(edition: Edition, game: &[u8], claim: &Claim) -> Option<Instr>
    ensures { MatchOption result (goes edition game.now claim.now ≡ false)
        (λ instr. (instr ≡ instr_in game.now claim.now.point.pc) × (goes edition game.now claim.now ≡ true)) }
{
    if !is_in_memory(edition, u64::from(claim.point.pc), 2) {
        return None;
    }
    let instr = instr_in(game, claim.point.pc);
    if is_allowed(&instr, claim.point.stack.as_slice()) {
        Some(instr)
    } else {
        None
    }
}

/// Whether I is raised on the way from a claim to a next point. None where there is no way, or one on which I begins anew.
pub fn shift_between(edition: Edition, game: &[u8], from: &Claim, to: &Point) -> Option<bool>
    ensures { IfSome result (λ shifts. IsAhead edition game.now from.now.point to.now shifts) }
{
    let Some(instr) = instr_of(edition, game, from) else {
        return None;
    };
    let (first, second) = next_points(&instr, &from.point);
    if first.order(to).is_eq() {
        return shift_of(&instr);
    }
    let Some(second) = second else {
        return None;
    };
    if second.order(to).is_eq() {
        return shift_of(&instr);
    }
    None
}

// Whether an instruction raises I. None where I begins anew.
fn shift_of(instr: &Instr) -> Option<bool>
    ensures { IfSome result (λ shifts. (c : Claim) → c.high + (if shifts then 1 else 0) ≤ high_after instr.now c) }
{
    match instr {
        Instr::Index(_) | Instr::Font(_) => None,
        Instr::AddIndex(_) | Instr::Store(_) | Instr::Fetch(_) => Some(true),
        _ => Some(false),
    }
}
