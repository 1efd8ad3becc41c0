//! How many lines of a source wait for the next run, as their operands hang on addresses.

ghost use Rattle.std.specs.Prelude.{◌≡◌, ◌++◌, ◌≤◌, ◌<◌, length, is_some, None, OnOk};
ghost use Rattle.asm_core.specs.Fixed.{fixed_names};
ghost use Rattle.asm_core.specs.Limits.{most_bytes};
ghost use Rattle.asm_core.specs.Operands.{is_waiting};
ghost use Rattle.asm_core.specs.Sources.{source_lines};
ghost use Rattle.asm_core.specs.Told.{AreTold, given_names};
ghost use Rattle.asm_lex.specs.Names.{value_in};
ghost use Rattle.asm_lex.specs.Spans.{AreWithin, text_at};
ghost use Rattle.asm_listing.specs.Told.{no_span, operand_found, some_are_told, some_wait, entry_waits, line_waits, waits, waiting_count, waiting_text, waiting_line};

use crate::report_text::{one_if, span_at, told_at};
use crate::write::append_each;
use asm_core::{Finding, Told, further_finding, is_waiting, next_line};
use asm_lex::{Entry, Isa, Span, Symbols, line_entry, line_spans, text_at};
use itoa::Buffer as Digits;
use std::alloc::{AllocError, Global};

// Whether something is told of the operand `k`.
fn is_told(
    alloc: Global,
    isa: Isa,
    given: &Symbols,
    fixed: &Symbols,
    line: &[u8],
    spans: &[Span],
    entry: Entry,
    k: usize,
) -> bool
    requires inside { k < length spans.now }
    requires within { AreWithin line.now spans.now }
    requires short { length line.now ≤ 255 }
    ensures { result ≡ is_some (operand_found isa (value_in given.now) (value_in fixed.now) line.now None spans.now entry k) }
{
    let span = span_at(line, spans, k);
    further_finding(alloc, isa, fixed, given, line, entry, k, span, None).is_some()
}

fn some_are_told(
    alloc: Global,
    isa: Isa,
    given: &Symbols,
    fixed: &Symbols,
    line: &[u8],
    spans: &[Span],
    entry: Entry,
) -> bool
    requires within { AreWithin line.now spans.now }
    requires short { length line.now ≤ 255 }
    ensures { result ≡ some_are_told isa (value_in given.now) (value_in fixed.now) line.now spans.now entry }
{
    let mut some = false;
    for k in 0..spans.len() {
        some = some || is_told(alloc, isa, given, fixed, line, spans, entry, k);
    }
    some
}

fn some_wait(
    alloc: Global,
    isa: Isa,
    fixed: &Symbols,
    behind: bool,
    line: &[u8],
    spans: &[Span],
    entry: Entry,
) -> bool
    requires within { AreWithin line.now spans.now }
    requires short { length line.now ≤ 255 }
    ensures { result ≡ some_wait isa (value_in fixed.now) behind line.now spans.now entry }
{
    let mut some = false;
    for k in 0..spans.len() {
        let text = text_at(line, span_at(line, spans, k));
        some = some || is_waiting(alloc, isa, fixed, behind, entry, k, text);
    }
    some
}

#[tactic(auto, unfolding(crate::specs::Told::line_waits))]
fn line_waits(
    alloc: Global,
    isa: Isa,
    given: &Symbols,
    fixed: &Symbols,
    behind: bool,
    line: &[u8],
) -> bool
    ensures { result ≡ line_waits isa (value_in given.now) (value_in fixed.now) behind line.now }
{
    if line.len() > 255 {
        return false;
    }
    let spans = line_spans(line);
    let operands = spans.operands.as_slice();
    match line_entry(isa, line) {
        Some(entry) => {
            some_wait(alloc, isa, fixed, behind, line, operands, entry)
                && !some_are_told(alloc, isa, given, fixed, line, operands, entry)
        }
        None => false,
    }
}

// Whether a line waits of which this is told; `behind` says that a fault is told before it.
fn waits(
    alloc: Global,
    isa: Isa,
    given: &Symbols,
    fixed: &Symbols,
    behind: bool,
    line: &[u8],
    told: Option<Finding>,
) -> bool
    ensures { result ≡ waits isa (value_in given.now) (value_in fixed.now) behind line.now told }
{
    match told {
        Some(_) => false,
        None => line_waits(alloc, isa, given, fixed, behind, line),
    }
}

fn waiting_count(
    alloc: Global,
    isa: Isa,
    given: &Symbols,
    fixed: &Symbols,
    text: &[u8],
    told: &Told,
) -> u32
    requires text { length text.now ≤ most_bytes }
    requires told { AreTold isa (source_lines text.now) told.now.findings.items }
    requires given { value_in given.now ≡ given_names isa (source_lines text.now) }
    requires fixed { value_in fixed.now ≡ fixed_names isa (source_lines text.now) }
    ensures { result ≡ waiting_count isa (source_lines text.now) (length (source_lines text.now)) }
{
    let findings = told.findings.as_slice();
    let mut count: u32 = 0;
    let mut behind = false;
    let mut number: u32 = 0;
    let mut rest = text;
    while let Some((line, more)) = next_line(rest) {
        let finding = told_at(findings, number as usize);
        count += one_if(waits(alloc, isa, given, fixed, behind, line, finding));
        behind = behind || finding.is_some();
        number += 1;
        rest = more;
    }
    count
}

fn append_count(text: &mut Vec<u8>, name: &[u8], count: u32) -> Result<(), AllocError>
    ensures { OnOk result (text.new.items ≡ text.old.items ++ waiting_text name.now count) }
{
    if count == 0 {
        return Ok(());
    }
    let mut digits = Digits::new();
    let digits = digits.format(count).as_bytes();
    if count == 1 {
        append_each(
            text,
            &[
                name,
                b": ",
                digits,
                b" more line is checked after these errors are fixed",
                b"\n",
            ],
        )
    } else {
        append_each(
            text,
            &[
                name,
                b": ",
                digits,
                b" more lines are checked after these errors are fixed",
                b"\n",
            ],
        )
    }
}

/// Says how many lines wait for the next run, where pass 2 didn't run.
pub(crate) fn append_waiting(
    alloc: Global,
    report: &mut Vec<u8>,
    isa: Isa,
    given: &Symbols,
    fixed: &Symbols,
    name: &[u8],
    text: &[u8],
    told: &Told,
    faulty: bool,
) -> Result<(), AllocError>
    requires text { length text.now ≤ most_bytes }
    requires told { AreTold isa (source_lines text.now) told.now.findings.items }
    requires given { value_in given.now ≡ given_names isa (source_lines text.now) }
    requires fixed { value_in fixed.now ≡ fixed_names isa (source_lines text.now) }
    ensures { OnOk result (report.new.items ≡ report.old.items ++ waiting_line isa faulty name.now (source_lines text.now)) }
{
    if faulty {
        append_count(
            report,
            name,
            waiting_count(alloc, isa, given, fixed, text, told),
        )
    } else {
        Ok(())
    }
}
