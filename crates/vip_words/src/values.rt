//! What a single word or option stands for: a number, where a routine is entered, a register, an edition, an instruction set, or what a file is.

ghost use Rattle.std.specs.Prelude.{◌≡◌};
ghost use Rattle.vip_words.specs.Asked.{code_by, edition_by, entry_of, isa_by, name_or, number_of, register_of, seed_of};
ghost use Rattle.vip_words.specs.Request.{code_of};

use crate::request::{Code, Entry, EntryName};
use asm_lex::Isa;
use chip8_lang::Edition;
use vip_byte::{read_decimal, read_hex};

/// The number of a demonstration game or of a schedule.
pub(crate) fn read_seed(word: &str) -> Option<u32>
    ensures { result ≡ seed_of word.now }
{
    let number = read_decimal(word.as_bytes(), u32::MAX as u64).ok()?;
    Some(number as u32)
}

/// A name of an address, or else these digits.
fn read_name(word: &[u8], digits: Option<u16>) -> Option<Entry>
    ensures { result ≡ name_or digits word.now }
{
    if word.is_empty() {
        return None;
    }
    let mut name = EntryName::new();
    match name.try_extend_from_slice(word) {
        Ok(()) => Some(Entry { name, digits }),
        Err(_) => None,
    }
}

/// One to four hexadecimal digits.
fn read_number(word: &[u8]) -> Option<u16>
    ensures { result ≡ number_of word.now }
{
    if word.len() > 4 {
        return None;
    }
    let number = read_hex(word, u16::MAX as u64).ok()?;
    Some(number as u16)
}

/// Where a routine is entered: at a name, which it always is behind `:`, or else at an address.
pub(crate) fn read_entry(word: &[u8]) -> Option<Entry>
    ensures { result ≡ entry_of word.now }
{
    match word {
        [b':', name @ ..] => read_name(name, None),
        _ => read_name(word, read_number(word)),
    }
}

/// The number of a register.
pub(crate) fn read_register(word: &str) -> Option<u8>
    ensures { result ≡ register_of word.now }
{
    if word.len() != 1 {
        return None;
    }
    let number = read_hex(word.as_bytes(), 0xF).ok()?;
    Some(number as u8)
}

/// The tall edition where it is asked for, and else the usual one.
pub(crate) fn edition_by(tall: bool) -> Edition
    ensures { result ≡ edition_by tall }
{
    if tall { Edition::Tall } else { Edition::Usual }
}

/// The instruction set CHIP-8 where it is asked for, and else that of the processor.
pub(crate) fn isa_by(chip8: bool) -> Isa
    ensures { result ≡ isa_by chip8 }
{
    if chip8 { Isa::Chip8 } else { Isa::Cdp1802 }
}

/// What the file of this name is: a source where that is asked for, whose lines may be told, and else the bytes themselves.
pub(crate) fn code_by<'a>(asm: bool, told: bool, file: &'a str) -> Code<&'a str>
    ensures { code_of result ≡ code_by asm told file.entry.now }
{
    if asm {
        Code::Source { file, told }
    } else {
        Code::Bytes(file)
    }
}
