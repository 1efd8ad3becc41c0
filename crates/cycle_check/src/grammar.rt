//! What one line of a certificate says.

ghost use Rattle.std.specs.Prelude.{◌≡◌, ◌≤◌, IfOk};
ghost use Rattle.std.specs.Str.{bytes_eq};
ghost use Rattle.cycle_check.specs.Certificate.{bound_in, bound_of, byte_of_fact, decimal_of, fact_of, hex_of, line_in, line_of, word_of_fact, x_of};

use crate::fault::CertCause;
use vip_byte::{Words, read_decimal, read_hex};

/// The greatest limit of a certificate, in machine cycles.
pub const MOST_LIMIT: u64 = 1_000_000_000;

/// The greatest BASE and STEP of a line, in machine cycles.
pub const MOST_LEFT: u64 = 1_000_000;

/// The first line: from an entry at most so many machine cycles pass.
#[derive(Clone, Copy)]
pub struct Bound {
    pub entry: u16,
    /// The number of the register that is the program counter.
    pub p: u8,
    /// The number of the counter register.
    pub k: u8,
    pub limit: u32,
}

/// What a line says of D and of the counter.
#[derive(Clone, Copy)]
pub enum Fact {
    /// Nothing.
    Any,
    /// D is the counter.
    Copy,
    /// The counter isn't 0.
    NonZero,
    /// D is this byte.
    Is(u8),
}

/// The line of an address: at most `base`, and `step` for each unit of the counter, machine cycles are left there.
#[derive(Clone, Copy)]
pub struct Line {
    pub address: u16,
    /// X, where it is known.
    pub x: Option<u8>,
    pub base: u32,
    pub step: u32,
    pub fact: Fact,
}

/// What a line says: the bound, or what holds at an address.
#[derive(Clone, Copy)]
pub enum Statement {
    Within(Bound),
    At(Line),
}

/// The bound that some words say, or the first cause for which they say none.
#[tactic(auto, unfolding(crate::specs::Certificate::bound_of))]
pub fn read_bound(mut words: Words) -> Result<Bound, CertCause>
    ensures { result ≡ bound_of words.entry }
{
    let Some(word) = words.next() else {
        return Err(CertCause::BadLine);
    };
    let Some(entry) = words.next() else {
        return Err(CertCause::BadLine);
    };
    let Some(p) = words.next() else {
        return Err(CertCause::BadLine);
    };
    let Some(k) = words.next() else {
        return Err(CertCause::BadLine);
    };
    let Some(limit) = words.next() else {
        return Err(CertCause::BadLine);
    };
    if words.next().is_some() {
        return Err(CertCause::BadLine);
    }
    if !is_word(word, b"within") {
        return Err(CertCause::BadLine);
    }
    read_bound_in(entry, p, k, limit)
}

#[tactic(auto, unfolding(crate::specs::Certificate::bound_in))]
fn read_bound_in(entry: &[u8], p: &[u8], k: &[u8], limit: &[u8]) -> Result<Bound, CertCause>
    ensures { result ≡ bound_in entry.now p.now k.now limit.now }
{
    let entry = read_digits(entry, 4, 0xFFFF)? as u16;
    let p = read_digits(p, 1, 0xF)? as u8;
    let k = read_digits(k, 1, 0xF)? as u8;
    let limit = read_number(limit, MOST_LIMIT)? as u32;
    if k == p {
        return Err(CertCause::BadNumber);
    }
    Ok(Bound { entry, p, k, limit })
}

/// The line of an address that some words say, or the first cause for which they say none.
#[tactic(auto, unfolding(crate::specs::Certificate::line_of))]
pub fn read_line(mut words: Words) -> Result<Line, CertCause>
    ensures { result ≡ line_of words.entry }
{
    let Some(address) = words.next() else {
        return Err(CertCause::BadLine);
    };
    let Some(x) = words.next() else {
        return Err(CertCause::BadLine);
    };
    let Some(base) = words.next() else {
        return Err(CertCause::BadLine);
    };
    let Some(step) = words.next() else {
        return Err(CertCause::BadLine);
    };
    let fact = read_fact(words)?;
    read_line_in(address, x, base, step, fact)
}

#[tactic(auto, unfolding(crate::specs::Certificate::line_in))]
fn read_line_in(
    address: &[u8],
    x: &[u8],
    base: &[u8],
    step: &[u8],
    fact: Fact,
) -> Result<Line, CertCause>
    ensures { result ≡ line_in address.now x.now base.now step.now fact }
{
    let address = read_digits(address, 4, 0xFFFF)? as u16;
    let x = read_x(x)?;
    let base = read_number(base, MOST_LEFT)? as u32;
    let step = read_number(step, MOST_LEFT)? as u32;
    Ok(Line {
        address,
        x,
        base,
        step,
        fact,
    })
}

fn is_word(word: &[u8], name: &[u8]) -> bool
    ensures { result ≡ bytes_eq word.now name.now }
{
    word == name
}

// The fact that the last words of a line say.
#[tactic(auto, unfolding(crate::specs::Certificate::fact_of))]
fn read_fact(mut words: Words) -> Result<Fact, CertCause>
    ensures { result ≡ fact_of words.entry }
{
    let Some(word) = words.next() else {
        return Err(CertCause::BadLine);
    };
    let Some(number) = words.next() else {
        return read_word_of_fact(word);
    };
    if words.next().is_some() {
        return Err(CertCause::BadLine);
    }
    read_byte_of_fact(word, number)
}

#[tactic(auto, unfolding(crate::specs::Certificate::word_of_fact))]
fn read_word_of_fact(word: &[u8]) -> Result<Fact, CertCause>
    ensures { result ≡ word_of_fact word.now }
{
    if is_word(word, b"any") {
        return Ok(Fact::Any);
    }
    if is_word(word, b"copy") {
        return Ok(Fact::Copy);
    }
    if is_word(word, b"some") {
        return Ok(Fact::NonZero);
    }
    Err(CertCause::BadLine)
}

#[tactic(auto, unfolding(crate::specs::Certificate::byte_of_fact))]
fn read_byte_of_fact(word: &[u8], number: &[u8]) -> Result<Fact, CertCause>
    ensures { result ≡ byte_of_fact word.now number.now }
{
    if !is_word(word, b"is") {
        return Err(CertCause::BadLine);
    }
    Ok(Fact::Is(read_digits(number, 2, 0xFF)? as u8))
}

#[tactic(auto, unfolding(crate::specs::Certificate::x_of))]
fn read_x(word: &[u8]) -> Result<Option<u8>, CertCause>
    ensures { result ≡ x_of word.now }
{
    if is_word(word, b"-") {
        return Ok(None);
    }
    Ok(Some(read_digits(word, 1, 0xF)? as u8))
}

// So many hexadecimal digits.
#[tactic(auto, unfolding(crate::specs::Certificate::hex_of))]
fn read_digits(word: &[u8], count: usize, most: u64) -> Result<u64, CertCause>
    ensures value { result ≡ hex_of count most word.now }
    ensures within { IfOk result (λ number. number ≤ most) }
{
    if word.len() != count {
        return Err(CertCause::BadNumber);
    }
    match read_hex(word, most) {
        Ok(number) => Ok(number),
        Err(_) => Err(CertCause::BadNumber),
    }
}

#[tactic(auto, unfolding(crate::specs::Certificate::decimal_of))]
fn read_number(word: &[u8], most: u64) -> Result<u64, CertCause>
    ensures value { result ≡ decimal_of most word.now }
    ensures within { IfOk result (λ number. number ≤ most) }
{
    match read_decimal(word, most) {
        Ok(number) => Ok(number),
        Err(_) => Err(CertCause::BadNumber),
    }
}
