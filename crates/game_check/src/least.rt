//! The least family of claims that is closed under the steps of a game.
//!
//! Each closed family has a claim around each one that is met. A search meets claims as fast as it can, and nothing rests on how it does. Its claims
//! are then put in order, and rounds over all of them follow: a round in which nothing grows shows that the family is closed, so it is the least one.

ghost use Rattle.std.specs.Prelude.{◌≡◌, ◌<◌, ◌≤◌, true, false, length, nat_le, slice_get, IfOk, IfErr, MatchOption, Some};
ghost use Rattle.std.specs.List.{sum_by};
ghost use Rattle.game_check.specs.Least.{goes, line_bytes, most_bytes, IsClosed, IsCovered, IsFollowed, IsMet, IsTooLong};
ghost use Rattle.game_check.specs.Searching.{HasGrown, HasMet, IsPlace, IsNoPlace, IsProper, IsSettled, IsStarted};

mod search;
mod ways;

use crate::claim::{Claim, Point, claim_at};
use crate::least::search::find_claims;
use crate::least::ways::{start_claim, ways_of};
use chip8_lang::Edition;
use std::alloc::{AllocError, Global};
use vip_byte::MOST_TEXT;

/// The most lines of a certificate: each has at least three words of five bytes.
const MOST_LINES: usize = MOST_TEXT / 15;

/// Claims in order, around each of which each closed family has one.
#[derive(Drop)]
struct Family<'a> {
    edition: Edition,
    game: &'a [u8],
    claims: Vec<Claim>,
}

/// The least closed family of a game, or none if its lines have more bytes than a certificate may.
pub fn least_family(
    alloc: Global,
    edition: Edition,
    game: &[u8],
) -> Result<Option<Vec<Claim>>, AllocError>
    ensures { IfOk result
        (λ found. MatchOption found (IsTooLong edition game.now) (λ family. IsSettled edition game.now family.items)) }
{
    let mut family = Family::start(alloc, edition, game)?;
    while fits(family.claims.as_slice()) {
        if !family.round()? {
            return Ok(Some(family.claims));
        }
    }
    Ok(None)
}

impl<'a> Family<'a> {
    // The claims that a search finds.
    fn start(alloc: Global, edition: Edition, game: &'a [u8]) -> Result<Family<'a>, AllocError>
        ensures { IfOk result (IsStarted edition game.entry.now) }
    {
        let mut family = Family {
            edition,
            game,
            claims: Vec::new(alloc),
        };
        let claims = find_claims(alloc, edition, game)?;
        for claim in claims.as_slice() {
            family.meet(claim.copy())?;
        }
        Ok(family)
    }
}

impl Family<'_> {
    // Meets the start, and what each claim leaves at its next points. Whether something grew.
    fn round(&mut self) -> Result<bool, AllocError>
        requires { HasMet self.old }
        ensures grown { IfOk result (HasGrown self.old self.new) }
        ensures closed { IfOk result (λ grew. grew ≡ false → IsClosed self.old.edition self.old.game.now self.old.claims.items) }
    {
        let mut grew = self.meet(start_claim())?;
        for place in 0..self.claims.len() {
            if self.follow(place)? {
                grew = true;
            }
        }
        Ok(grew)
    }

    // Meets what a claim leaves at its next points. Whether something grew.
    fn follow(&mut self, place: usize) -> Result<bool, AllocError>
        requires { HasMet self.old }
        ensures grown { IfOk result (HasGrown self.old self.new) }
        ensures followed { IfOk result (λ grew. grew ≡ false → (c : Claim) → Some c ≡ slice_get self.old.claims.items place
            → goes self.old.edition self.old.game.now c ≡ true → IsFollowed self.old.game.now self.old.claims.items c) }
    {
        let Some(claim) = claim_at(self.claims.as_slice(), place) else {
            return Ok(false);
        };
        let Some((first, second)) = ways_of(self.edition, self.game, &claim) else {
            return Ok(false);
        };
        let mut grew = self.meet(first)?;
        if let Some(second) = second {
            if self.meet(second)? {
                grew = true;
            }
        }
        Ok(grew)
    }

    // The claim of this point grows to hold this one's range, or this one is the first of its point. Whether something grew.
    fn meet(&mut self, claim: Claim) -> Result<bool, AllocError>
        requires kept { HasMet self.old }
        requires met { IsMet self.old.edition self.old.game.now claim }
        requires proper { IsProper claim }
        ensures grown { IfOk result (HasGrown self.old self.new) }
        ensures covered { IfOk result (λ grew. grew ≡ false → IsCovered self.old.claims.items claim) }
    {
        match self.place_of(&claim.point) {
            Ok(place) => {
                let grew = self.claims[place].widen(claim.low, claim.high);
                Ok(grew)
            }
            Err(place) => {
                self.claims.insert(place, claim)?;
                Ok(true)
            }
        }
    }

    // The place of the claim of a point, or where one would stand in order.
    fn place_of(&self, point: &Point) -> Result<usize, usize>
        requires { HasMet self.now }
        ensures found { IfOk result (IsPlace self.now.claims.items point.now) }
        ensures none { IfErr result (IsNoPlace self.now.claims.items point.now) }
    {
        match self
            .claims
            .as_slice()
            .binary_search_by(|known| known.point.order(point))
        {
            Ok(place) => Ok(place),
            Err(place) => Err(place),
        }
    }
}

// Whether the lines of claims have no more bytes than a certificate may.
fn fits(claims: &[Claim]) -> bool
    ensures { result ≡ nat_le (sum_by line_bytes claims.now) most_bytes }
{
    let mut total = 0;
    for claim in claims {
        total += 5 * (3 + claim.point.stack.len());
        if total > MOST_TEXT {
            return false;
        }
    }
    true
}
