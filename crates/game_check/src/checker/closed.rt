//! Whether a claim is closed among others: no state that it stands for stops, and each step of one leads to a state that some claim stands for.

ghost use Rattle.std.specs.Prelude.{◌≡◌, ◌+◌, ◌-◌, ◌*◌, ◌/◌, ◌%◌, ◌<◌, ◌≤◌, [], ◌∷◌, ◌++◌, true, length, take, slice_index};
ghost use Rattle.std.specs.List.{list_all};
ghost use Rattle.std.specs.Option.{option_to_list};
ghost use Rattle.std.specs.Result.{result_err};
ghost use Rattle.chip8_lang.specs.State.{is_in_memory};
ghost use Rattle.chip8_lang.specs.Step.{is_readable};
ghost use Rattle.game_check.specs.Closed as closed;
ghost use Rattle.game_check.specs.Order.{IsAscending};

use crate::claim::{Claim, Point, stack_of, stack_with};
use crate::fault::ProofCause;
use chip8_lang::{Edition, Instr, MEMORY_START, read_instr};

/// The font, from its first address up to that behind its last.
const FONT_START: u64 = 0x8700;

const FONT_END: u64 = 0x8750;

/// Where the font has its last digit.
const LAST_DIGIT: u64 = FONT_START + 5 * 15;

/// The most addresses on the stack.
const MOST_STACK: usize = 12;

/// The greatest address.
pub const LAST_ADDRESS: u64 = 0xFFFF;

/// Ok where a claim is closed among others, of which it may be one, and else the first cause why it is not.
#[tactic(auto, unfolding(crate::specs::Closed::cause_in))]
pub fn check_claim(
    edition: Edition,
    game: &[u8],
    claims: &[Claim],
    claim: &Claim,
) -> Result<(), ProofCause>
    requires { IsAscending claims.now }
    ensures { result_err result ≡ closed.cause_in edition game.now claims.now claim.now }
{
    if !is_in_memory(edition, u64::from(claim.point.pc), 2) {
        return Err(ProofCause::Outside);
    }
    let instr = instr_in(game, claim.point.pc);
    if !is_allowed(&instr, claim.point.stack.as_slice()) {
        return Err(ProofCause::Opcode);
    }
    if !has_access(edition, claims, &instr, claim) {
        return Err(ProofCause::Access);
    }
    if !goes_on(claims, &instr, claim) {
        return Err(ProofCause::Next);
    }
    Ok(())
}

/// The instruction that a game has at an address of game memory at its start.
#[tactic(auto, unfolding(crate::specs::Closed::instr_in))]
pub fn instr_in(game: &[u8], pc: u16) -> Instr
    requires { 0x200 ≤ pc }
    ensures { result ≡ closed.instr_in game.now pc }
{
    read_instr(opcode_in(game, pc))
}

/// Its opcode.
pub fn opcode_in(game: &[u8], pc: u16) -> u16
    requires { 0x200 ≤ pc }
    ensures high { result / 256 ≡ closed.game_byte game.now pc }
    ensures low { result % 256 ≡ closed.game_byte game.now (pc + 1) }
{
    let place = usize::from(pc - 0x0200);
    opcode_of(byte_at(game, place), byte_at(game, place + 1))
}

// The opcode with these bytes.
fn opcode_of(high: u8, low: u8) -> u16
    ensures high { result / 256 ≡ high }
    ensures low { result % 256 ≡ low }
{
    u16::from(high) * 256 + u16::from(low)
}

// The byte at a place, 0 past the end.
fn byte_at(bytes: &[u8], place: usize) -> u8
    ensures { result ≡ slice_index bytes.now place }
{
    match bytes.get(place) {
        Some(byte) => *byte,
        None => 0,
    }
}

/// Whether an instruction doesn't stop for its opcode nor for the stack, and its next pc is known.
pub fn is_allowed(instr: &Instr, stack: &[u16]) -> bool
    ensures { result ≡ closed.is_allowed instr.now stack.now }
{
    match instr {
        Instr::Machine(_) | Instr::Unknown(_) | Instr::JumpPlus(_) => false,
        Instr::Return => !stack.is_empty(),
        Instr::Call(_) => stack.len() != MOST_STACK,
        _ => true,
    }
}

/// Whether all bytes that an instruction reads or writes are ones that it may, for each I of the claim.
pub fn has_access(edition: Edition, claims: &[Claim], instr: &Instr, claim: &Claim) -> bool
    requires { IsAscending claims.now }
    ensures { result ≡ closed.has_access edition claims.now instr.now claim.now }
{
    let low = u64::from(claim.low);
    match instr {
        Instr::Draw(_, _, rows) => *rows == 0
            || is_readable(edition, low, span(claim, u64::from(*rows))),
        Instr::Fetch(x) => is_readable(edition, low, span(claim, u64::from(*x) + 1)),
        Instr::Decimal(_) => is_writable(edition, claims, low, span(claim, 3)),
        Instr::Store(x) => is_writable(edition, claims, low, span(claim, u64::from(*x) + 1)),
        _ => true,
    }
}

// How many bytes are met from the least I on where so many from I on are meant.
fn span(claim: &Claim, count: u64) -> u64
    requires { count ≤ 256 }
    ensures value { result ≡ closed.span claim.now count }
    ensures bound { result ≤ 4_294_967_551 }
{
    u64::from(claim.high).saturating_sub(u64::from(claim.low)) + count
}

// Whether so many bytes lie in game memory or in the font.
fn is_readable(edition: Edition, start: u64, count: u64) -> bool
    requires start { start ≤ 65_535 }
    requires count { count ≤ 4_294_967_551 }
    ensures { result ≡ is_readable edition start count }
{
    is_in_memory(edition, start, count) || (FONT_START <= start && start + count <= FONT_END)
}

// Whether they lie in game memory, and none of them is in the code.
fn is_writable(edition: Edition, claims: &[Claim], start: u64, count: u64) -> bool
    requires start { start ≤ 65_535 }
    requires count { count ≤ 4_294_967_551 }
    requires ascending { IsAscending claims.now }
    ensures { result ≡ closed.is_writable edition claims.now start count }
{
    is_in_memory(edition, start, count) && are_apart(claims, start, count)
}

/// Whether so many bytes lie in game memory.
pub fn is_in_memory(edition: Edition, start: u64, count: u64) -> bool
    requires start { start ≤ 65_535 }
    requires count { count ≤ 4_294_967_551 }
    ensures { result ≡ is_in_memory edition start count }
{
    u64::from(MEMORY_START) <= start && start + count <= u64::from(edition.memory_end())
}

// Whether none of so many bytes is in the code. The claims come in the order of their pc: so the first one whose opcode doesn't lie before the bytes
// tells it.
fn are_apart(claims: &[Claim], start: u64, count: u64) -> bool
    requires start { start ≤ 65_535 }
    requires count { count ≤ 4_294_967_551 }
    requires ascending { IsAscending claims.now }
    ensures { result ≡ list_all (closed.is_apart start count) claims.now }
{
    let place = claims.partition_point(|claim| u64::from(claim.point.pc) + 1 < start);
    match claims.get(place) {
        Some(claim) => start + count <= u64::from(claim.point.pc),
        None => true,
    }
}

// Whether each next point is claimed.
fn goes_on(claims: &[Claim], instr: &Instr, claim: &Claim) -> bool
    requires ascending { IsAscending claims.now }
    requires inside { claim.now.point.pc ≤ 0xfff }
    requires allowed { closed.is_allowed instr.now claim.now.point.stack.items ≡ true }
    ensures { result ≡ closed.goes_on claims.now instr.now claim.now }
{
    let low = low_after(instr, claim);
    let high = high_after(instr, claim);
    let (first, second) = next_points(instr, &claim.point);
    let first = is_claimed(claims, low, high, &first);
    match second {
        Some(second) => first && is_claimed(claims, low, high, &second),
        None => first,
    }
}

/// The least I afterwards.
pub fn low_after(instr: &Instr, claim: &Claim) -> u64
    ensures { result ≡ closed.low_after instr.now claim.now }
{
    let low = u64::from(claim.low);
    match instr {
        Instr::Index(address) => u64::from(*address),
        Instr::Font(_) => FONT_START,
        Instr::Store(x) | Instr::Fetch(x) => low + u64::from(*x) + 1,
        _ => low,
    }
}

/// The greatest.
pub fn high_after(instr: &Instr, claim: &Claim) -> u64
    ensures { result ≡ closed.high_after instr.now claim.now }
{
    let high = u64::from(claim.high);
    match instr {
        Instr::Index(address) => u64::from(*address),
        Instr::Font(_) => LAST_DIGIT,
        Instr::AddIndex(_) => high + 255,
        Instr::Store(x) | Instr::Fetch(x) => high + u64::from(*x) + 1,
        _ => high,
    }
}

/// The points at which a state may be after an instruction: one, or the two ways of a skip.
pub fn next_points(instr: &Instr, point: &Point) -> (Point, Option<Point>)
    requires inside { point.now.pc ≤ 0xfff }
    requires allowed { closed.is_allowed instr.now point.now.stack.items ≡ true }
    ensures { closed.next_points instr.now point.now ≡ result.0 ∷ option_to_list result.1 }
{
    let stack = point.stack.as_slice();
    match instr {
        Instr::Jump(address) => (at(*address, stack), None),
        Instr::Call(address) => (subroutine_point(*address, point), None),
        Instr::Return => (return_point(stack), None),
        Instr::SkipEq(..)
        | Instr::SkipNe(..)
        | Instr::SkipSame(..)
        | Instr::SkipDiffer(..)
        | Instr::SkipDown(_)
        | Instr::SkipUp(_) => (at(point.pc + 2, stack), Some(at(point.pc + 4, stack))),
        _ => (at(point.pc + 2, stack), None),
    }
}

// The point with this stack.
fn at(pc: u16, stack: &[u16]) -> Point
    requires { length stack.now ≤ 12 }
    ensures { result ≡ closed.point pc stack.now }
{
    Point {
        pc,
        stack: stack_of(stack),
    }
}

// The point of a subroutine that is called from here.
fn subroutine_point(address: u16, from: &Point) -> Point
    requires inside { from.now.pc ≤ 0xfff }
    requires room { length from.now.stack.items < 12 }
    ensures { result ≡ closed.point address (from.now.stack.items ++ (from.now.pc + 2) ∷ []) }
{
    Point {
        pc: address,
        stack: stack_with(from.stack.as_slice(), from.pc + 2),
    }
}

// The point to which a subroutine returns.
fn return_point(stack: &[u16]) -> Point
    requires some { 0 < length stack.now }
    requires fits { length stack.now ≤ 12 }
    ensures { result ≡ closed.point (slice_index stack.now (length stack.now - 1)) (take (length stack.now - 1) stack.now) }
{
    let (rest, last) = stack.split_at(stack.len() - 1);
    at(last[0], rest)
}

/// Whether some claim is of the point and allows all I from low to high. At most one is of it.
pub fn is_claimed(claims: &[Claim], low: u64, high: u64, point: &Point) -> bool
    requires { IsAscending claims.now }
    ensures { result ≡ closed.is_claimed claims.now low high point.now }
{
    if high > LAST_ADDRESS {
        return false;
    }
    match claims.binary_search_by(|claim| claim.point.order(point)) {
        Ok(place) => has_range(low, high, &claims[place]),
        Err(_) => false,
    }
}

// Whether a claim lets I lie from low to high.
fn has_range(low: u64, high: u64, claim: &Claim) -> bool
    ensures { result ≡ closed.has_range low high claim.now }
{
    u64::from(claim.low) <= low && high <= u64::from(claim.high)
}
