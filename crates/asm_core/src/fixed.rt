//! The names whose values hang on no address.

ghost use Rattle.std.specs.Prelude.{◌≡◌, ◌≤◌, ◌<◌, ◌==◌, ℕ, List, length, slice_index_or, None, IfOk, OnOk};
ghost use Rattle.std.specs.List.{list_any};
ghost use Rattle.asm_lex.specs.Names.{value_in};
ghost use Rattle.asm_core.specs.Fixed.{has_address, begins_with_address, with_fixed, fixed_next, fixed_names};
ghost use Rattle.asm_core.specs.Limits.{most_bytes};
ghost use Rattle.asm_core.specs.Sources.{source_lines};
ghost use Rattle.asm_core.specs.Told.{AreTold};

use crate::findings::Finding;
use crate::layout::{LabelValue, lay_out};
use crate::source::next_line;
use asm_lex::{Isa, Symbols, line_spans, text_at};
use std::alloc::{AllocError, Global};

/// Whether `$` stands in a text.
pub(crate) fn has_address(text: &[u8]) -> bool
    ensures { result ≡ has_address text.now }
{
    text.iter().any(|byte| *byte == b'$')
}

fn begins_with_address(line: &[u8]) -> bool
    requires { length line.now ≤ 255 }
    ensures { result ≡ begins_with_address line.now }
{
    match line_spans(line).operands.as_slice().first() {
        Some(span) => has_address(text_at(line, *span)),
        None => false,
    }
}

// Adds what EQU gives the label of a line, where it hangs on no address.
#[tactic(auto, unfolding(crate::specs::Fixed::with_fixed))]
fn fix(alloc: Global, isa: Isa, names: &mut Symbols, line: &[u8]) -> Result<(), AllocError>
    ensures { OnOk result ((name : List ℕ) → value_in names.new name ≡ with_fixed isa (value_in names.old) line.now name) }
{
    let Ok(placed) = lay_out(isa, names, 0, line) else {
        return Ok(());
    };
    if begins_with_address(line) {
        return Ok(());
    }
    match (placed.label, placed.laid.value) {
        (Some(label), LabelValue::Given(value)) => {
            names.define(alloc, text_at(line, label), value)
        }
        _ => Ok(()),
    }
}

fn fix_right(
    alloc: Global,
    isa: Isa,
    names: &mut Symbols,
    line: &[u8],
    told: Option<Finding>,
) -> Result<(), AllocError>
    ensures { OnOk result ((name : List ℕ) → value_in names.new name ≡ fixed_next isa (value_in names.old) line.now told name) }
{
    match told {
        Some(_) => Ok(()),
        None => fix(alloc, isa, names, line),
    }
}

fn told_at(findings: &[Option<Finding>], index: usize) -> Option<Finding>
    requires { index < length findings.now }
    ensures { result ≡ slice_index_or findings.now index None }
{
    findings[index]
}

/// The names of a source whose values hang on no address, where these are told of its lines.
pub(crate) fn fixed_names(
    alloc: Global,
    isa: Isa,
    text: &[u8],
    findings: &[Option<Finding>],
) -> Result<Symbols, AllocError>
    requires text { length text.now ≤ most_bytes }
    requires told { AreTold isa (source_lines text.now) findings.now }
    ensures { IfOk result (λ names. value_in names ≡ fixed_names isa (source_lines text.now)) }
{
    let mut names = Symbols::new(alloc);
    let mut number: u32 = 0;
    let mut rest = text;
    while let Some((line, more)) = next_line(rest) {
        let told = told_at(findings, number as usize);
        fix_right(alloc, isa, &mut names, line, told)?;
        number += 1;
        rest = more;
    }
    Ok(names)
}
