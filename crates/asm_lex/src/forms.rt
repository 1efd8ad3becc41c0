//! The forms of CHIP-8's instructions.

ghost use Rattle.std.specs.Prelude.{◌≡◌, ◌≤◌, ◌==◌, ℕ, List, map, find, IfSome, Option, None, Some, if◌then◌else◌};
ghost use Rattle.asm_lex.specs.Bytes.{spells};
ghost use Rattle.std.specs.Str.{bytes_eq};
ghost use Rattle.asm_lex.specs.Forms.{register_in, is_operand, with_operand, with_operands, written_operands, bare, form_meaning, form_named, same_meaning, first_given, one_twice, op_meaning};
ghost use Rattle.asm_lex.specs.Spans.{text_at, AreWithin};
ghost use Rattle.asm_lex.specs.Names.{value_in};
ghost use Rattle.chip8_words.specs.Table.{forms, mnemonic_of, operands_of};

use crate::expression::is_number;
use crate::names::Symbols;
use crate::spans::text_at;
use crate::text::{register, spells};
use crate::{Isa, Span};
use chip8_words::{FORMS, Form, Op, Operand};

pub(crate) fn forms() -> &'static [Form]
    ensures { result.now ≡ forms }
{
    &FORMS
}

// The first of these forms whose mnemonic the word is.
fn first_named(word: &[u8], forms: &[Form]) -> Option<Form>
    ensures { result ≡ find (λ form. spells word.now (mnemonic_of form)) forms.now }
{
    for form in forms {
        if spells(word, form.mnemonic()) {
            return Some(*form);
        }
    }
    None
}

/// The first form whose mnemonic the word is.
pub(crate) fn form_named(word: &[u8]) -> Option<Form>
    ensures { result ≡ form_named word.now }
{
    first_named(word, forms())
}

/// The number of the register that a text names: V0 to VF, or a name of one.
#[tactic(auto, unfolding(crate::specs::Forms::register_in))]
pub(crate) fn register_in(names: &Symbols, text: &[u8]) -> Option<u8>
    ensures number { result ≡ register_in (value_in names.now) text.now }
    ensures within { IfSome result (λ number. number ≤ 15) }
{
    match register(Isa::Chip8, text) {
        Some(number) => Some(number),
        None => names.register(text),
    }
}

// Whether a text is such an operand.
#[tactic(auto, unfolding(crate::specs::Forms::is_operand))]
pub(crate) fn is_operand(names: &Symbols, due: Operand, text: &[u8]) -> bool
    ensures { result ≡ is_operand (value_in names.now) due text.now }
{
    match due {
        Operand::X | Operand::Y => register_in(names, text).is_some(),
        Operand::V0 => matches!(register_in(names, text), Some(0)),
        Operand::Byte | Operand::Address | Operand::Nibble => is_number(Isa::Chip8, names, text),
        Operand::Index => spells(text, "I"),
        Operand::AtIndex => spells(text, "[I]"),
        Operand::DelayTimer => spells(text, "DT"),
        Operand::SoundTimer => spells(text, "ST"),
        Operand::Key => spells(text, "K"),
        Operand::Font => spells(text, "F"),
        Operand::Decimal => spells(text, "B"),
    }
}

// The parts of an opcode with the register of one operand more; none where the operand is another than is due.
fn with_operand(names: &Symbols, op: Op, due: Operand, text: &[u8]) -> Option<Op>
    ensures { result ≡ with_operand (value_in names.now) op due text.now }
{
    match due {
        Operand::X => match register_in(names, text) {
            Some(x) => Some(Op { x, ..op }),
            None => None,
        },
        Operand::Y => match register_in(names, text) {
            Some(y) => Some(Op { y, ..op }),
            None => None,
        },
        _ if is_operand(names, due, text) => Some(op),
        _ => None,
    }
}

// The same of all operands; none where they are others than are due.
fn with_operands(
    names: &Symbols,
    op: Op,
    due: &[Operand],
    line: &[u8],
    operands: &[Span],
) -> Option<Op>
    requires { AreWithin line.now operands.now }
    ensures { result ≡ with_operands (value_in names.now) op due.now (map (text_at line.now) operands.now) }
{
    match due {
        [] if operands.is_empty() => Some(op),
        [] => None,
        [due, more_due @ ..] => match operands {
            [] => None,
            [operand, more @ ..] => {
                match with_operand(names, op, *due, text_at(line, *operand)) {
                    Some(op) => with_operands(names, op, more_due, line, more),
                    None => None,
                }
            }
        },
    }
}

fn bare(form: Form) -> Op
    ensures { result ≡ bare form }
{
    Op {
        form,
        x: 0,
        y: 0,
        number: 0,
    }
}

// Whether a form is a shift, whose registers may be written as one.
fn is_shift(form: Form) -> bool
    ensures { (texts : List (List ℕ)) → written_operands form texts ≡ (if result then one_twice texts else texts) }
{
    match form {
        Form::Right | Form::Left => true,
        _ => false,
    }
}

// What operands mean in a form.
fn form_meaning(names: &Symbols, form: Form, line: &[u8], operands: &[Span]) -> Option<Op>
    requires { AreWithin line.now operands.now }
    ensures { result ≡ form_meaning (value_in names.now) form (map (text_at line.now) operands.now) }
{
    let due = form.operands();
    let is_shift = is_shift(form);
    match operands {
        [register] if is_shift => {
            with_operands(names, bare(form), due, line, &[*register, *register])
        }
        _ => with_operands(names, bare(form), due, line, operands),
    }
}

// The same in a form with a certain mnemonic, and none in each other form.
fn same_meaning(
    names: &Symbols,
    named: Form,
    line: &[u8],
    operands: &[Span],
    form: Form,
) -> Option<Op>
    requires { AreWithin line.now operands.now }
    ensures { result ≡ same_meaning (value_in names.now) named (map (text_at line.now) operands.now) form }
{
    if form.mnemonic() == named.mnemonic() {
        form_meaning(names, form, line, operands)
    } else {
        None
    }
}

// What operands mean in the first of these forms that has a certain mnemonic and takes them.
fn first_meaning(
    names: &Symbols,
    named: Form,
    line: &[u8],
    operands: &[Span],
    forms: &[Form],
) -> Option<Op>
    requires { AreWithin line.now operands.now }
    ensures { result ≡ first_given (same_meaning (value_in names.now) named (map (text_at line.now) operands.now)) forms.now }
{
    for form in forms {
        if let Some(op) = same_meaning(names, named, line, operands, *form) {
            return Some(op);
        }
    }
    None
}

/// What operands mean behind the mnemonic of a form; none where they are wrong.
pub(crate) fn op_meaning(names: &Symbols, named: Form, line: &[u8], operands: &[Span]) -> Option<Op>
    requires { AreWithin line.now operands.now }
    ensures { result ≡ op_meaning (value_in names.now) named (map (text_at line.now) operands.now) }
{
    first_meaning(names, named, line, operands, forms())
}
