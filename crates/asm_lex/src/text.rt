//! Tests of bytes and of names.

ghost use Rattle.std.specs.Prelude.{◌≡◌, ◌≤◌, ◌<◌, ℕ, IsTrue, IfSome, length, if◌then◌else◌};
ghost use Rattle.std.specs.Char.{is_ascii_hexdigit, digit_value};
ghost use Rattle.std.specs.List.{list_all, list_any, position_or_len, prefix_len, suffix_len};
ghost use Rattle.vip_byte.specs.Text.{is_blank};
ghost use Rattle.asm_lex.specs.Bytes.{is_allowed, begins_name, is_in_name, is_long_name, ends_name, is_name, is_reserved, operand_words, register_letter, register_of, has_long_name, spells};

use crate::Isa;
use crate::cuts::{Stop, cut, position};

/// The most characters that a name may have.
const LONGEST_NAME: usize = 32;

pub(crate) fn is_blank(byte: u8) -> bool
    ensures { result ≡ is_blank byte }
{
    byte == b' ' || byte == b'\t'
}

pub(crate) fn is_allowed(byte: u8) -> bool
    ensures { result ≡ is_allowed byte }
{
    (b' ' <= byte && byte <= b'~') || byte == b'\t'
}

fn begins_name(byte: u8) -> bool
    ensures { result ≡ begins_name byte }
{
    byte.is_ascii_alphabetic() || byte == b'_'
}

pub(crate) fn is_in_name(byte: u8) -> bool
    ensures { result ≡ is_in_name byte }
{
    byte.is_ascii_alphanumeric() || byte == b'_'
}

/// Whether a line may hold each byte.
pub(crate) fn are_allowed(line: &[u8]) -> bool
    ensures { result ≡ list_all is_allowed line.now }
{
    position(line, Stop::NotAllowed) == line.len()
}

fn are_in_name(text: &[u8]) -> bool
    ensures { result ≡ list_all is_in_name text.now }
{
    position(text, Stop::EndOfName) == text.len()
}

/// The number of the register that a text names, if it names one.
pub(crate) fn register(isa: Isa, text: &[u8]) -> Option<u8>
    ensures number { result ≡ register_of (register_letter isa) text.now }
    ensures within { IfSome result (λ number. number ≤ 15) }
{
    match text {
        [letter, digit] if letter.to_ascii_uppercase() == register_letter(isa) => hex_digit(*digit),
        _ => None,
    }
}

fn register_letter(isa: Isa) -> u8
    ensures { result ≡ register_letter isa }
{
    match isa {
        Isa::Cdp1802 => b'R',
        Isa::Chip8 => b'V',
    }
}

fn hex_digit(byte: u8) -> Option<u8>
    ensures digit { result ≡ (if is_ascii_hexdigit byte then Some (digit_value byte) else None) }
    ensures within { IfSome result (λ digit. digit ≤ 15) }
{
    match byte {
        b'0'..=b'9' => Some(byte - b'0'),
        b'A'..=b'F' => Some(byte - b'A' + 10),
        b'a'..=b'f' => Some(byte - b'a' + 10),
        _ => None,
    }
}

// Whether the text is a word that stands as an operand.
fn is_operand_word(isa: Isa, text: &[u8]) -> bool
    ensures { result ≡ list_any (spells text.now) (operand_words isa) }
{
    match isa {
        Isa::Cdp1802 => false,
        Isa::Chip8 => {
            spells(text, "I")
                || spells(text, "DT")
                || spells(text, "ST")
                || spells(text, "K")
                || spells(text, "F")
                || spells(text, "B")
        }
    }
}

// Whether the text is a register or a word that stands as an operand.
#[tactic(auto, unfolding(crate::specs::Bytes::is_reserved))]
fn is_reserved(isa: Isa, text: &[u8]) -> bool
    ensures { result ≡ is_reserved isa text.now }
{
    register(isa, text).is_some() || is_operand_word(isa, text)
}

/// Whether the text is a name.
#[tactic(auto, unfolding(crate::specs::Bytes::is_name))]
pub(crate) fn is_name(isa: Isa, text: &[u8]) -> bool
    ensures { result ≡ is_name isa text.now }
{
    match text.first() {
        Some(first) => begins_name(*first)
            && are_in_name(text)
            && text.len() <= LONGEST_NAME
            && !is_reserved(isa, text),
        None => false,
    }
}

/// Whether the run of a name's characters is too long for a name.
pub(crate) fn is_long_name(run: &[u8]) -> bool
    ensures { result ≡ is_long_name run.now }
{
    match run.first() {
        Some(first) => begins_name(*first) && run.len() > LONGEST_NAME,
        None => false,
    }
}

/// Whether a name that is too long stands in the text.
pub(crate) fn has_long_name(text: &[u8]) -> bool
    ensures { result ≡ has_long_name text.now }
{
    let mut rest = Some(text);
    while let Some(text) = rest {
        let (run, more) = cut(text, Stop::EndOfName);
        if is_long_name(run) {
            return true;
        }
        rest = more;
    }
    false
}

/// Whether the text, in letters of either case, is the name, which is in capitals.
#[tactic(auto, unfolding(crate::specs::Bytes::spells))]
pub(crate) fn spells(text: &[u8], name: &str) -> bool
    ensures { result ≡ spells text.now name.now }
{
    let capitals = name.as_bytes();
    if text.len() != capitals.len() {
        return false;
    }
    for (place, byte) in text.iter().enumerate() {
        if byte.to_ascii_uppercase() != capitals[place] {
            return false;
        }
    }
    true
}
