//! Points of control, and what a line of a certificate claims of one.

ghost use Rattle.std.specs.Prelude.{◌≡◌, ◌<◌, ◌≤◌, [], ◌∷◌, ◌++◌, length, max, min, not, slice_get};
ghost use Rattle.game_check.specs.Closed.{has_range};
ghost use Rattle.game_check.specs.Grammar.{order};

use arrayvec::ArrayVec;
use std::cmp::Ordering;

/// A point of control: pc, and the addresses on the stack, the oldest first.
#[derive(Drop)]
pub struct Point {
    pub pc: u16,
    pub stack: ArrayVec<u16, 12>,
}

impl Point {
    // The lower pc comes first, then the shorter stack, and then the stack that is lower at the first difference.
    pub(crate) fn order(&self, other: &Point) -> Ordering
        ensures { result ≡ order self.now other.now }
    {
        let by_stack = self.stack.as_slice().cmp(other.stack.as_slice());
        let by_depth = self.stack.len().cmp(&other.stack.len());
        self.pc.cmp(&other.pc).then(by_depth.then(by_stack))
    }

    // A number by which points are looked up. Two points seldom have the same.
    pub(crate) fn fingerprint(&self) -> u64 {
        let mut print = u64::from(self.pc);
        for address in self.stack.as_slice() {
            print = print.wrapping_mul(0x9E37_79B9_7F4A_7C15) ^ u64::from(*address);
        }
        print
    }
}

/// That at a point of control the index I lies from one address to another, both of which it may be. A line of a certificate has a greatest I of at most
/// FFFF; 10000 stands for all that is above.
#[derive(Drop)]
pub struct Claim {
    pub point: Point,
    pub low: u16,
    pub high: u32,
}

impl Claim {
    // Copies the claim, which takes no memory.
    pub(crate) fn copy(&self) -> Claim
        ensures { result ≡ self.now }
    {
        Claim {
            point: Point {
                pc: self.point.pc,
                stack: stack_of(self.point.stack.as_slice()),
            },
            low: self.low,
            high: self.high,
        }
    }

    // The range grows to hold another. Whether it did.
    pub(crate) fn widen(&mut self, low: u16, high: u32) -> bool
        ensures point { self.new.point ≡ self.old.point }
        ensures low { self.new.low ≡ min self.old.low low }
        ensures high { self.new.high ≡ max self.old.high high }
        ensures grew { result ≡ not (has_range low high self.old) }
    {
        if self.low <= low && high <= self.high {
            return false;
        }
        self.low = self.low.min(low);
        self.high = self.high.max(high);
        true
    }
}

/// The claim at a place.
pub(crate) fn claim_at(claims: &[Claim], place: usize) -> Option<Claim>
    ensures { result ≡ slice_get claims.now place }
{
    match claims.get(place) {
        Some(claim) => Some(claim.copy()),
        None => None,
    }
}

/// A stack of at most 12 addresses, the oldest first.
pub(crate) fn stack_of(addresses: &[u16]) -> ArrayVec<u16, 12>
    requires { length addresses.now ≤ 12 }
    ensures { result.items ≡ addresses.now }
{
    let mut stack = ArrayVec::new();
    let _ = stack.try_extend_from_slice(addresses);
    stack
}

/// The stack with an address more.
pub(crate) fn stack_with(addresses: &[u16], address: u16) -> ArrayVec<u16, 12>
    requires { length addresses.now < 12 }
    ensures { result.items ≡ addresses.now ++ address ∷ [] }
{
    let mut stack = stack_of(addresses);
    stack.push(address);
    stack
}
