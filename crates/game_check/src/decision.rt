//! The least certificate of a game, or why it has none.

ghost use Rattle.std.specs.Prelude.{[], ◌∷◌, ◌≡◌, ◌+◌, ◌*◌, ◌≤◌, ◌++◌, length, IfOk, IfErr, OnOk, MatchOption, None};
ghost use Rattle.std.specs.List.{All};
ghost use Rattle.chip8_lang.specs.State.{memory_size};
ghost use Rattle.arrayvec.specs.ArrayVec.{array_vec_len};
ghost use Rattle.vip_byte.specs.HexText.{hex4, words_text};
ghost use Rattle.vip_byte.specs.Room.{HasRoom};
ghost use Rattle.game_check.specs.Closed.{cause_in};
ghost use Rattle.game_check.specs.Least.{family_text, line_text, opcode_at, HasNone, IsFound, IsOpen, IsTold, IsWhy};
ghost use Rattle.game_check.specs.Searching.{AreWords, IsSettled, IsWord, IsWritable};

use crate::checker::closed::{LAST_ADDRESS, check_claim, is_in_memory, opcode_in};
use crate::claim::Claim;
use crate::fault::{FindFault, Obstacle, OpenClaim, ProofCause};
use crate::least::least_family;
use chip8_lang::Edition;
use std::alloc::{AllocError, Global};
use vip_byte::{Buffer, hex4, put};

/// Finds the least certificate of a game, in the order and with the spelling of its format: upper-case digits, one blank between two words, no remarks.
///
/// It has the claims of the least closed family: that of the start, and what each claim leaves at its next points, with one range for a point. Each other
/// certificate has a line of the same point around each of its lines. So where a claim of it has a cause against it, or its lines have more than 1,048,576
/// bytes, there is none; or memory was wanting.
pub fn find_certificate(alloc: Global, edition: Edition, game: &[u8]) -> Result<Vec<u8>, FindFault>
    requires { length game.now ≤ memory_size edition }
    ensures found { IfOk result (λ text. IsFound edition game.now text.items) }
    ensures why { IfErr result (IsWhy edition game.now) }
{
    let Some(family) = least_family(alloc, edition, game)? else {
        return Err(FindFault::NotFound(Obstacle::TooLong));
    };
    if let Some(open) = first_open(edition, game, family.as_slice()) {
        return Err(FindFault::NotFound(Obstacle::Open(open)));
    }
    let text = text_of(alloc, family.as_slice())?;
    Ok(text)
}

// What stands against the first claim of a family that isn't closed among them, if there is one.
fn first_open(edition: Edition, game: &[u8], family: &[Claim]) -> Option<OpenClaim>
    requires { IsSettled edition game.now family.now }
    ensures { MatchOption result (All (λ c. cause_in edition game.now family.now c ≡ None) family.now) (λ o. IsOpen edition game.now o × HasNone edition game.now) }
{
    for claim in family {
        if let Err(cause) = check_claim(edition, game, family, claim) {
            return Some(open_claim(edition, game, claim, cause));
        }
    }
    None
}

// A claim that isn't closed, as it is told.
fn open_claim(edition: Edition, game: &[u8], claim: &Claim, cause: ProofCause) -> OpenClaim
    ensures cause { result.cause ≡ cause }
    ensures told { IsTold edition game.now claim.now result }
{
    let Claim { point, low, high } = claim.copy();
    OpenClaim {
        cause,
        opcode: opcode_at(edition, game, point.pc),
        point,
        low,
        high: high.min(LAST_ADDRESS as u32) as u16,
    }
}

// The opcode at an address of game memory.
fn opcode_at(edition: Edition, game: &[u8], pc: u16) -> Option<u16>
    ensures { result ≡ opcode_at edition game.now pc }
{
    if is_in_memory(edition, u64::from(pc), 2) {
        Some(opcode_in(game, pc))
    } else {
        None
    }
}

// The lines of these claims.
fn text_of(alloc: Global, claims: &[Claim]) -> Result<Vec<u8>, AllocError>
    requires { All IsWritable claims.now }
    ensures text { IfOk result (λ text. text.items ≡ family_text claims.now) }
    ensures words { OnOk result (All AreWords claims.now) }
{
    let mut text = Vec::new(alloc);
    for claim in claims {
        let mut line = Buffer::new();
        put_line(claim, &mut line);
        text.extend_from_slice(line.as_slice())?;
    }
    Ok(text)
}

// Writes the line that says a claim into an empty buffer.
fn put_line(claim: &Claim, into: &mut Buffer)
    requires empty { into.old.items ≡ [] }
    requires writable { IsWritable claim.now }
    ensures text { into.new.items ≡ line_text claim.now }
    ensures words { AreWords claim.now }
{
    put(into, &hex4(claim.point.pc));
    put_word(into, claim.low);
    put_word(into, claim.high as u16);
    put_stack(into, claim.point.stack.as_slice());
    put(into, b"\n");
}

// Appends the addresses of a stack.
fn put_stack(into: &mut Buffer, addresses: &[u16])
    requires { HasRoom into.old.items (5 * length addresses.now) }
    ensures items { into.new.items ≡ into.old.items ++ words_text addresses.now }
    ensures len { array_vec_len into.new ≡ array_vec_len into.old + 5 * length addresses.now }
    ensures words { All IsWord addresses.now }
{
    for address in addresses {
        put_word(into, *address);
    }
}

// Appends a blank and four digits.
fn put_word(into: &mut Buffer, word: u16)
    requires { HasRoom into.old.items 5 }
    ensures items { into.new.items ≡ into.old.items ++ 32 ∷ hex4 word }
    ensures len { array_vec_len into.new ≡ array_vec_len into.old + 5 }
{
    put(into, b" ");
    put(into, &hex4(word));
}
