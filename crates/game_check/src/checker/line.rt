//! One line of a certificate.

ghost use Rattle.std.specs.Prelude.{◌≡◌, ◌∷◌, length, map, MatchOption, Ok, Err, ok_or};
ghost use Rattle.game_check.specs.Grammar.{said, claim_of, claim_by, are_words, values, word_of};

use crate::claim::{Claim, Point, stack_of};
use crate::fault::ProofCause;
use arrayvec::ArrayVec;
use vip_byte::{Words, read_hex};

/// The most words of a line: pc, the least and the greatest I, and 12 addresses.
const MOST_WORDS: usize = 15;

/// What a line says by itself: nothing or a claim, or the cause for which it says neither.
#[tactic(auto, unfolding(crate::specs::Grammar::said))]
pub fn read_line(line: &[u8]) -> Result<Option<Claim>, ProofCause>
    ensures { result ≡ said line.now }
{
    let mut words = Words::new(line);
    match words.next() {
        None | Some([b'#', ..]) => Ok(None),
        Some(first) => {
            let claim = read_claim(first, words)?;
            Ok(Some(claim))
        }
    }
}

// The claim of a line that begins with this word and goes on with these.
fn read_claim(first: &[u8], words: Words) -> Result<Claim, ProofCause>
    ensures { result ≡ claim_of (first.now ∷ words.entry) }
{
    match read_numbers(first, words) {
        Some(numbers) => claim_by(numbers.as_slice()),
        None => Err(ProofCause::BadLine),
    }
}

// The numbers of these words, or none where some word is no number or there are more than any line has.
fn read_numbers(first: &[u8], words: Words) -> Option<ArrayVec<u16, MOST_WORDS>>
    ensures { MatchOption result (claim_of (first.now ∷ words.entry) ≡ Err ProofCause.BadLine)
        (λ numbers. claim_of (first.now ∷ words.entry) ≡ claim_by numbers.items) }
{
    let mut numbers = ArrayVec::new();
    numbers.push(read_word(first)?);
    for word in words {
        let number = read_word(word)?;
        if numbers.is_full() {
            return None;
        }
        numbers.push(number);
    }
    Some(numbers)
}

// Four hexadecimal digits.
fn read_word(word: &[u8]) -> Option<u16>
    ensures { result ≡ word_of word.now }
{
    if word.len() != 4 {
        return None;
    }
    match read_hex(word, 0xFFFF) {
        Ok(number) => Some(number as u16),
        Err(_) => None,
    }
}

// The claim that some numbers make.
#[tactic(auto, unfolding(crate::specs::Grammar::claim_by))]
fn claim_by(numbers: &[u16]) -> Result<Claim, ProofCause>
    ensures { result ≡ claim_by numbers.now }
{
    match numbers {
        [pc, low, high, addresses @ ..] if addresses.len() <= 12 && *low <= *high => Ok(Claim {
            point: Point {
                pc: *pc,
                stack: stack_of(addresses),
            },
            low: *low,
            high: u32::from(*high),
        }),
        _ => Err(ProofCause::BadLine),
    }
}
