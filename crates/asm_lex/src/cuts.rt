//! Cutting a text at certain bytes.

ghost use Rattle.std.specs.Prelude.{◌≡◌, ◌≤◌, ◌<◌, ◌+◌, ◌-◌, ◌∷◌, ℕ, length, IfSome, take, drop, option_map};
ghost use Rattle.std.specs.List.{position_or_len, prefix_len, suffix_len, slice_split};
ghost use Rattle.vip_byte.specs.Text.{is_blank};
ghost use Rattle.asm_lex.specs.Cuts.{stops, parts_of, behind_first};
ghost use Rattle.asm_lex.specs.Parts.{trimmed};

use crate::text::{is_allowed, is_blank, is_in_name};

/// The bytes at which a text is cut.
#[derive(Clone, Copy)]
pub(crate) enum Stop {
    /// `;`, which begins a comment.
    Semicolon,
    /// `:`, which ends a label.
    Colon,
    /// `,`, which parts operands.
    Comma,
    /// A blank, which ends a word.
    Blank,
    /// `+` or `-`, which parts terms.
    Sign,
    /// A byte that no name has.
    EndOfName,
    /// A byte that no line may hold.
    NotAllowed,
}

impl Stop {
    fn stops(self, byte: u8) -> bool
        ensures { result ≡ stops self byte }
    {
        match self {
            Stop::Semicolon => byte == b';',
            Stop::Colon => byte == b':',
            Stop::Comma => byte == b',',
            Stop::Blank => is_blank(byte),
            Stop::Sign => byte == b'+' || byte == b'-',
            Stop::EndOfName => !is_in_name(byte),
            Stop::NotAllowed => !is_allowed(byte),
        }
    }
}

/// The place of the first byte at which the text is cut, or its length.
pub(crate) fn position(text: &[u8], stop: Stop) -> usize
    ensures place { result ≡ position_or_len (stops stop) text.now }
    ensures within { result ≤ length text.now }
{
    for (place, byte) in text.iter().enumerate() {
        if stop.stops(*byte) {
            return place;
        }
    }
    text.len()
}

/// How many blanks a text begins with.
pub(crate) fn leading_blanks(text: &[u8]) -> usize
    ensures count { result ≡ prefix_len is_blank text.now }
    ensures within { result ≤ length text.now }
{
    for (place, byte) in text.iter().enumerate() {
        if !is_blank(*byte) {
            return place;
        }
    }
    text.len()
}

/// The place behind the last byte of a text that is no blank.
pub(crate) fn end_without_blanks(text: &[u8]) -> usize
    ensures place { result ≡ length text.now - suffix_len is_blank text.now }
    ensures within { result ≤ length text.now }
{
    let mut end = text.len();
    while end > 0 && is_blank(text[end - 1]) {
        end -= 1;
    }
    end
}

/// A text without the blanks at its start and at its end.
#[tactic(auto, unfolding(crate::specs::Parts::without_leading_blanks, crate::specs::Parts::without_trailing_blanks))]
pub fn trimmed(text: &[u8]) -> &[u8]
    ensures text { result.now ≡ trimmed text.now }
    ensures shorter { length result.now ≤ length text.now }
{
    let behind = &text[leading_blanks(text)..];
    &behind[..end_without_blanks(behind)]
}

/// The first part of a text that is cut, and what stands behind the byte at which it is cut, if there is one.
pub(crate) fn cut(text: &[u8], stop: Stop) -> (&[u8], Option<&[u8]>)
    ensures parts { slice_split (stops stop) text.now ≡ result.0.now ∷ parts_of (stops stop) (option_map (λ rest. rest.now) result.1) }
    ensures first { result.0.now ≡ take (position_or_len (stops stop) text.now) text.now }
    ensures rest { IfSome result.1 (λ rest. rest.now ≡ drop (length result.0.now + 1) text.now) }
    ensures shorter { IfSome result.1 (λ rest. length result.0.now + 1 + length rest.now ≡ length text.now) }
    ensures behind { option_map (λ rest. rest.now) result.1 ≡ behind_first (stops stop) text.now }
{
    let end = position(text, stop);
    if end == text.len() {
        (text, None)
    } else {
        (&text[..end], Some(&text[end + 1..]))
    }
}
