//! A search for the claims of the least family. Each claim that it meets is one that each closed family has a claim around.
//!
//! A claim that was met, or that grew, waits until it is followed to its next points. A cycle on which I is raised and nowhere begins anew raises I
//! without end. So if HI was raised by way of itself, it is raised above all addresses at once.

ghost use Rattle.std.specs.Prelude.{ℕ, List, IfOk, IfSome, OnOk};
ghost use Rattle.chip8_lang.specs.declared.view.Edition.{Edition};
ghost use Rattle.game_check.specs.Least.{IsMet};
ghost use Rattle.game_check.specs.Searching.{AreFound, HasFound, IsFoundOn, IsMarked, IsProper};

use crate::checker::closed::LAST_ADDRESS;
use crate::claim::{Claim, claim_at};
use crate::least::ways::{shift_between, start_claim, ways_of};
use crate::least::{MOST_LINES, fits};
use chip8_lang::Edition;
use std::alloc::{AllocError, Global};
use std::collections::HashMap;

/// What is noted of a claim. Only the time depends on it.
#[derive(Clone, Copy)]
struct Mark {
    // it was met, or grew, after the last time that it was followed
    waits: bool,
    // the place of the claim that raised its HI last
    raised_by: Option<usize>,
}

/// The claims met so far, in the order in which they were.
#[derive(Drop)]
struct Search<'a> {
    edition: Edition,
    game: &'a [u8],
    claims: Vec<Claim>,
    // by the fingerprints of their points
    places: HashMap<u64, usize>,
    marks: Vec<Mark>,
    // a HI was raised after the last look for cycles
    rose: bool,
}

/// The claims that a search meets, in order: all of the least family, as a rule.
pub fn find_claims(alloc: Global, edition: Edition, game: &[u8]) -> Result<Vec<Claim>, AllocError>
    ensures { IfOk result (λ claims. AreFound edition game.now claims.items) }
{
    let mut search = Search {
        edition,
        game,
        claims: Vec::new(alloc),
        places: HashMap::new(alloc),
        marks: Vec::new(alloc),
        rose: false,
    };
    search.meet(start_claim(), None)?;
    search.settle(alloc)?;
    Ok(sorted(search.claims))
}

impl Search<'_> {
    // Sweeps until no claim waits, or no certificate has room for the claims. If no cycle raises I without end, as many sweeps do as there are claims;
    // else as many again after those in which such a cycle was found.
    fn settle(&mut self, alloc: Global) -> Result<(), AllocError>
        requires { HasFound self.old }
        ensures { OnOk result (IsFoundOn self.old self.new) }
    {
        for _ in 0..2 * MOST_LINES + 4 {
            if !self.sweep()? || !fits(self.claims.as_slice()) {
                break;
            }
            if self.rose {
                self.rose = false;
                self.lift_cycles(alloc)?;
            }
        }
        Ok(())
    }

    // Follows each claim that waits, those too that are met on the way. Whether one did.
    fn sweep(&mut self) -> Result<bool, AllocError>
        requires { HasFound self.old }
        ensures { OnOk result (IsFoundOn self.old self.new) }
    {
        let mut some = false;
        for place in 0..MOST_LINES + 1 {
            let Some(waits) = self.take_mark(place) else {
                break;
            };
            if waits {
                self.follow(place)?;
                some = true;
            }
        }
        Ok(some)
    }

    // Whether the claim at a place waits. It waits no longer.
    fn take_mark(&mut self, place: usize) -> Option<bool>
        ensures { IsMarked self.old self.new }
    {
        let Some(mark) = self.marks.get_mut(place) else {
            return None;
        };
        let waits = mark.waits;
        mark.waits = false;
        Some(waits)
    }

    // Meets what a claim leaves at its next points.
    fn follow(&mut self, place: usize) -> Result<(), AllocError>
        requires { HasFound self.old }
        ensures { OnOk result (IsFoundOn self.old self.new) }
    {
        let Some(claim) = claim_at(self.claims.as_slice(), place) else {
            return Ok(());
        };
        let Some((first, second)) = ways_of(self.edition, self.game, &claim) else {
            return Ok(());
        };
        self.meet(first, Some(place))?;
        if let Some(second) = second {
            self.meet(second, Some(place))?;
        }
        Ok(())
    }

    // The claim of this point grows to hold this one's range, or this one is the first of its point.
    fn meet(&mut self, claim: Claim, from: Option<usize>) -> Result<(), AllocError>
        requires found { HasFound self.old }
        requires met { IsMet self.old.edition self.old.game.now claim }
        requires proper { IsProper claim }
        ensures { OnOk result (IsFoundOn self.old self.new) }
    {
        match self.place_of(&claim) {
            Some(place) => {
                self.widen(place, &claim, from);
                Ok(())
            }
            None => self.add(claim),
        }
    }

    // The place of the claim with the fingerprint of this one's point.
    fn place_of(&self, claim: &Claim) -> Option<usize> {
        match self.places.get(&claim.point.fingerprint()) {
            Some(place) => Some(*place),
            None => None,
        }
    }

    // A claim grows to hold another one, if they are of the same point.
    fn widen(&mut self, place: usize, claim: &Claim, from: Option<usize>)
        requires found { HasFound self.old }
        requires met { IsMet self.old.edition self.old.game.now claim.now }
        requires proper { IsProper claim.now }
        ensures { IsFoundOn self.old self.new }
    {
        if place < self.claims.len() && self.claims[place].point.order(&claim.point).is_eq() {
            let raises = self.claims[place].high < claim.high;
            let grew = self.claims[place].widen(claim.low, claim.high);
            self.mark(place, grew, raises, from);
        }
    }

    // A claim that grew waits; if its HI did, it is noted from which.
    fn mark(&mut self, place: usize, grew: bool, raises: bool, from: Option<usize>)
        ensures { IsMarked self.old self.new }
    {
        let Some(mark) = self.marks.get_mut(place) else {
            return;
        };
        mark.waits = mark.waits || grew;
        if raises {
            mark.raised_by = from;
            self.rose = true;
        }
    }

    // Adds the first claim of a point.
    fn add(&mut self, claim: Claim) -> Result<(), AllocError>
        requires found { HasFound self.old }
        requires met { IsMet self.old.edition self.old.game.now claim }
        requires proper { IsProper claim }
        ensures { OnOk result (IsFoundOn self.old self.new) }
    {
        let mark = Mark {
            waits: true,
            raised_by: None,
        };
        self.places
            .insert(claim.point.fingerprint(), self.claims.len())?;
        self.marks.push(mark)?;
        self.claims.push(claim)?;
        Ok(())
    }

    // Raises one claim of each cycle of claims each of which raised the next one, to what is above all addresses.
    fn lift_cycles(&mut self, alloc: Global) -> Result<(), AllocError>
        requires { HasFound self.old }
        ensures { OnOk result (IsFoundOn self.old self.new) }
    {
        let mut seen = vec![in alloc; None; self.claims.len()]?;
        for start in 0..self.claims.len() {
            if let Some(place) = self.cycle_from(&mut seen, start) {
                if let Some(claim) = self.lifted(place) {
                    self.meet(claim, None)?;
                }
            }
        }
        Ok(())
    }

    // The first claim that is come to twice when from a claim on those that raised are followed back, past none that was seen from another start.
    fn cycle_from(&self, seen: &mut Vec<Option<usize>>, start: usize) -> Option<usize> {
        let mut place = start;
        for _ in 0..self.claims.len().saturating_add(1) {
            let Some(entry) = seen.get_mut(place) else {
                return None;
            };
            if let Some(by) = *entry {
                return if by == start { Some(place) } else { None };
            }
            *entry = Some(start);
            let Some(source) = self.source_of(place) else {
                return None;
            };
            place = source;
        }
        None
    }

    // The place of the claim that raised the one at a place last.
    fn source_of(&self, place: usize) -> Option<usize> {
        match self.marks.get(place) {
            Some(mark) => mark.raised_by,
            None => None,
        }
    }

    // The claim at a place with I raised above all addresses, if I is raised on the cycle of those that raised it.
    fn lifted(&self, start: usize) -> Option<Claim>
        requires { HasFound self.now }
        ensures { IfSome result (λ claim. IsMet self.now.edition self.now.game.now claim × IsProper claim) }
    {
        let Some(first) = claim_at(self.claims.as_slice(), start) else {
            return None;
        };
        let mut claim = first.copy();
        let mut place = start;
        let mut rises = false;
        for _ in 0..self.claims.len() {
            let Some(source) = self.source_of(place) else {
                return None;
            };
            let Some(before) = claim_at(self.claims.as_slice(), source) else {
                return None;
            };
            let Some(shifts) = shift_between(self.edition, self.game, &before, &claim.point) else {
                return None;
            };
            rises |= shifts;
            claim = before;
            place = source;
            if place == start {
                break;
            }
        }
        if rises && claim.point.order(&first.point).is_eq() {
            let Claim { point, low, .. } = first;
            Some(Claim {
                point,
                low,
                high: LAST_ADDRESS as u32 + 1,
            })
        } else {
            None
        }
    }
}

// Claims in order.
fn sorted(claims: Vec<Claim>) -> Vec<Claim>
    ensures { (e : Edition) (game : List ℕ) → AreFound e game claims.items → AreFound e game result.items }
{
    let mut claims = claims;
    claims.sort_unstable_by(|a, b| a.point.order(&b.point));
    claims
}
