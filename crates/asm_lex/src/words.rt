//! Words and their operands.

ghost use Rattle.std.specs.Prelude.{◌≡◌, ◌&&◌, ℕ, List, length, map, nat_le};
ghost use Rattle.asm_lex.specs.Words.{directive_of, opcode_named, mnemonic_entry, entry_of, one_register, port_of, one_port, is_one_number, are_none, are_numbers, number_written, with_number, coded, register_given, gives_register, takes, directive_meaning, meaning_of};
ghost use Rattle.asm_lex.specs.Names.{value_in, is_number};
ghost use Rattle.machine.specs.Opcodes.{kind_of};
ghost use Rattle.asm_lex.specs.Spans.{text_at, AreWithin};

use crate::expression::is_number;
use crate::forms::{form_named, op_meaning, register_in};
use crate::names::Symbols;
use crate::spans::text_at;
use crate::text::{register, spells};
use crate::{Isa, Span, Word};
use chip8_words::Form;
use vip_isa::{Kind, Op, Operands, decode, encode, mnemonic, operands_in};

/// A word of the table.
#[derive(Clone, Copy)]
pub enum Entry {
    /// A mnemonic of the CDP1802, by the first opcode that has it.
    Mnemonic(u8),
    /// A mnemonic of CHIP-8, by the first form that has it.
    Words(Form),
    /// A directive.
    Directive(Word),
}

#[tactic(auto, unfolding(crate::specs::Words::directive_of))]
fn directive(word: &[u8]) -> Option<Word>
    ensures { result ≡ directive_of word.now }
{
    if spells(word, "ORG") {
        Some(Word::Org)
    } else if spells(word, "EQU") {
        Some(Word::Equ)
    } else if spells(word, "DB") {
        Some(Word::Db)
    } else if spells(word, "DW") {
        Some(Word::Dw)
    } else if spells(word, "DS") {
        Some(Word::Ds)
    } else if spells(word, "PAGE") {
        Some(Word::Page)
    } else {
        None
    }
}

// Whether a word has as many letters as a mnemonic of the CDP1802 may have.
fn is_short(word: &[u8]) -> bool
    ensures { result ≡ (nat_le 2 (length word.now) && nat_le (length word.now) 4) }
{
    2 <= word.len() && word.len() <= 4
}

fn opcode(word: &[u8]) -> Option<u8>
    ensures { result ≡ opcode_named word.now }
{
    if !is_short(word) {
        return None;
    }
    for opcode in 0..=u8::MAX {
        if spells(word, mnemonic(opcode)) {
            return Some(opcode);
        }
    }
    None
}

#[tactic(auto, unfolding(crate::specs::Words::mnemonic_entry))]
fn mnemonic_entry(isa: Isa, word: &[u8]) -> Option<Entry>
    ensures { result ≡ mnemonic_entry isa word.now }
{
    match isa {
        Isa::Cdp1802 => Some(Entry::Mnemonic(opcode(word)?)),
        Isa::Chip8 => Some(Entry::Words(form_named(word)?)),
    }
}

/// The entry of a word in the table of an instruction set, if it has one. `DB` is the directive.
#[tactic(auto, unfolding(crate::specs::Words::entry_of))]
pub(crate) fn entry_of(isa: Isa, word: &[u8]) -> Option<Entry>
    ensures { result ≡ entry_of isa word.now }
{
    match directive(word) {
        Some(directive) => Some(Entry::Directive(directive)),
        None => mnemonic_entry(isa, word),
    }
}

fn one_register(line: &[u8], operands: &[Span]) -> Option<u8>
    requires { AreWithin line.now operands.now }
    ensures { result ≡ one_register (map (text_at line.now) operands.now) }
{
    match operands {
        [operand] => register(Isa::Cdp1802, text_at(line, *operand)),
        _ => None,
    }
}

fn port(text: &[u8]) -> Option<u8>
    ensures { result ≡ port_of text.now }
{
    match text {
        [digit @ b'1'..=b'7'] => Some(digit - b'0'),
        _ => None,
    }
}

fn one_port(line: &[u8], operands: &[Span]) -> Option<u8>
    requires { AreWithin line.now operands.now }
    ensures { result ≡ one_port (map (text_at line.now) operands.now) }
{
    match operands {
        [operand] => port(text_at(line, *operand)),
        _ => None,
    }
}

fn is_one_number(isa: Isa, names: &Symbols, line: &[u8], operands: &[Span]) -> bool
    requires { AreWithin line.now operands.now }
    ensures { result ≡ is_one_number isa (value_in names.now) (map (text_at line.now) operands.now) }
{
    match operands {
        [operand] => is_number(isa, names, text_at(line, *operand)),
        _ => false,
    }
}

fn are_numbers(isa: Isa, names: &Symbols, line: &[u8], operands: &[Span]) -> bool
    requires { AreWithin line.now operands.now }
    ensures { result ≡ are_numbers isa (value_in names.now) (map (text_at line.now) operands.now) }
{
    for operand in operands {
        if !is_number(isa, names, text_at(line, *operand)) {
            return false;
        }
    }
    !operands.is_empty()
}

fn number_written(names: &Symbols, due: Operands, line: &[u8], operands: &[Span]) -> Option<u8>
    requires { AreWithin line.now operands.now }
    ensures { result ≡ number_written (value_in names.now) due (map (text_at line.now) operands.now) }
{
    match due {
        Operands::Register => one_register(line, operands),
        Operands::Port => one_port(line, operands),
        Operands::Nothing | Operands::Data if operands.is_empty() => Some(0),
        Operands::Nothing | Operands::Data => None,
        _ if is_one_number(Isa::Cdp1802, names, line, operands) => Some(0),
        _ => None,
    }
}

fn with_number(kind: Kind, number: u8) -> Option<u8>
    ensures { result ≡ with_number kind number }
{
    let op = Op { kind, n: number };
    if op.valid() { Some(encode(&op)) } else { None }
}

#[tactic(auto, unfolding(crate::specs::Words::coded))]
fn opcode_with(names: &Symbols, opcode: u8, line: &[u8], operands: &[Span]) -> Option<u8>
    requires { AreWithin line.now operands.now }
    ensures { result ≡ coded (value_in names.now) (kind_of opcode) (map (text_at line.now) operands.now) }
{
    let kind = decode(opcode).kind;
    match number_written(names, operands_in(kind), line, operands) {
        Some(number) => with_number(kind, number),
        None => None,
    }
}

fn takes(
    isa: Isa,
    names: &Symbols,
    directive: Word,
    has_label: bool,
    line: &[u8],
    operands: &[Span],
) -> bool
    requires { AreWithin line.now operands.now }
    ensures { result ≡ takes isa (value_in names.now) directive has_label (map (text_at line.now) operands.now) }
{
    match directive {
        Word::Code(_) | Word::Instruction(_) | Word::EquRegister(_) => false,
        Word::Org | Word::Ds => is_one_number(isa, names, line, operands),
        Word::Equ => has_label && is_one_number(isa, names, line, operands),
        Word::Db | Word::Dw => are_numbers(isa, names, line, operands),
        Word::Page => operands.is_empty(),
    }
}

#[tactic(auto, unfolding(crate::specs::Words::register_given))]
fn register_given(isa: Isa, names: &Symbols, line: &[u8], operands: &[Span]) -> Option<u8>
    requires { AreWithin line.now operands.now }
    ensures { result ≡ register_given isa (value_in names.now) (map (text_at line.now) operands.now) }
{
    match (isa, operands) {
        (Isa::Chip8, [operand]) => register_in(names, text_at(line, *operand)),
        _ => None,
    }
}

// The register that EQU gives its label, where its operand names one.
fn gives_register(
    isa: Isa,
    names: &Symbols,
    directive: Word,
    has_label: bool,
    line: &[u8],
    operands: &[Span],
) -> Option<u8>
    requires { AreWithin line.now operands.now }
    ensures { result ≡ gives_register isa (value_in names.now) directive has_label (map (text_at line.now) operands.now) }
{
    match directive {
        Word::Equ if has_label => register_given(isa, names, line, operands),
        _ => None,
    }
}

fn directive_meaning(
    isa: Isa,
    names: &Symbols,
    directive: Word,
    has_label: bool,
    line: &[u8],
    operands: &[Span],
) -> Option<Word>
    requires { AreWithin line.now operands.now }
    ensures { result ≡ directive_meaning isa (value_in names.now) directive has_label (map (text_at line.now) operands.now) }
{
    match gives_register(isa, names, directive, has_label, line, operands) {
        Some(register) => Some(Word::EquRegister(register)),
        None if takes(isa, names, directive, has_label, line, operands) => Some(directive),
        None => None,
    }
}

/// What a word of the table means with its operands, which are spans of the line; none where they are wrong. `names` are those of the
/// earlier lines.
#[tactic(auto, unfolding(crate::specs::Words::meaning_of))]
pub(crate) fn meaning(
    isa: Isa,
    names: &Symbols,
    entry: Entry,
    has_label: bool,
    line: &[u8],
    operands: &[Span],
) -> Option<Word>
    requires { AreWithin line.now operands.now }
    ensures { result ≡ meaning_of isa (value_in names.now) entry has_label (map (text_at line.now) operands.now) }
{
    match entry {
        Entry::Mnemonic(opcode) => Some(Word::Code(opcode_with(names, opcode, line, operands)?)),
        Entry::Words(form) => Some(Word::Instruction(op_meaning(names, form, line, operands)?)),
        Entry::Directive(directive) => directive_meaning(
            isa, names, directive, has_label, line, operands,
        ),
    }
}
