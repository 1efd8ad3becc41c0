//! One operand of a line, judged by itself.

ghost use Rattle.std.specs.Prelude.{◌≡◌, ◌≤◌, length};
ghost use Rattle.std.specs.List.{list_any};
ghost use Rattle.chip8_words.specs.Table.{forms};
ghost use Rattle.asm_lex.specs.Names.{value_in};
ghost use Rattle.asm_lex.specs.Operands.{takes_at, is_taken, has_several, is_unread, is_number_at, line_entry};

use crate::expression::is_number;
use crate::forms::{forms, is_operand};
use crate::names::Symbols;
use crate::spans::{parts_of, text_at};
use crate::text::is_name;
use crate::words::{Entry, entry_of};
use crate::{Isa, Word};
use chip8_words::Form;
use vip_isa::size;

// Whether a form takes a text as its operand `k`, where it has the mnemonic of another.
fn takes_at(names: &Symbols, named: Form, k: usize, text: &[u8], form: Form) -> bool
    ensures { result ≡ takes_at (value_in names.now) named k text.now form }
{
    form.mnemonic() == named.mnemonic()
        && match form.operands().get(k) {
            Some(due) => is_operand(names, *due, text),
            None => false,
        }
}

fn some_takes(names: &Symbols, named: Form, k: usize, text: &[u8], forms: &[Form]) -> bool
    ensures { result ≡ list_any (takes_at (value_in names.now) named k text.now) forms.now }
{
    for form in forms {
        if takes_at(names, named, k, text, *form) {
            return true;
        }
    }
    false
}

// Whether a word takes a text as its operand `k`.
#[tactic(auto, unfolding(crate::specs::Operands::is_taken, crate::specs::Words::size_at))]
fn is_taken(isa: Isa, names: &Symbols, entry: Entry, k: usize, text: &[u8]) -> bool
    ensures { result ≡ is_taken isa (value_in names.now) entry k text.now }
{
    match entry {
        Entry::Words(form) => some_takes(names, form, k, text, forms()),
        Entry::Mnemonic(opcode) => size(opcode) > 1 && is_number(isa, names, text),
        Entry::Directive(_) => is_number(isa, names, text),
    }
}

fn has_several(entry: Entry) -> bool
    ensures { result ≡ has_several entry }
{
    matches!(
        entry,
        Entry::Words(_) | Entry::Directive(Word::Db) | Entry::Directive(Word::Dw)
    )
}

/// Whether a text can't be read as the operand `k`, counted from 0, of a word that has several. A name can.
#[tactic(auto, unfolding(crate::specs::Operands::is_unread))]
pub fn is_unread(isa: Isa, names: &Symbols, entry: Entry, k: usize, text: &[u8]) -> bool
    ensures { result ≡ is_unread isa (value_in names.now) entry k text.now }
{
    has_several(entry) && !(is_taken(isa, names, entry, k, text) || is_name(isa, text))
}

/// Whether a text stands for a number as the operand `k` of a word.
#[tactic(auto, unfolding(crate::specs::Operands::is_number_at))]
pub fn is_number_at(isa: Isa, names: &Symbols, entry: Entry, k: usize, text: &[u8]) -> bool
    ensures { result ≡ is_number_at isa (value_in names.now) entry k text.now }
{
    is_taken(isa, names, entry, k, text) && is_number(isa, names, text)
}

/// The entry of the word of a line.
pub fn line_entry(isa: Isa, line: &[u8]) -> Option<Entry>
    requires { length line.now ≤ 255 }
    ensures { result ≡ line_entry isa line.now }
{
    entry_of(isa, text_at(line, parts_of(line).word))
}
