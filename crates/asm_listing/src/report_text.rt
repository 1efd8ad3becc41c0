//! The text of every fault of a source, in the form that editors read.

ghost use Rattle.std.specs.Prelude.{◌≡◌, ◌++◌, ◌≤◌, ◌<◌, ℕ, List, [], length, slice_index_or, is_some, if◌then◌else◌, None, IfOk, IfErr, OnOk};
ghost use Rattle.std.specs.List.{list_any};
ghost use Rattle.std.specs.Option.{option_map, option_map_or, option_or};
ghost use Rattle.asm_core.specs.Limits.{most_bytes};
ghost use Rattle.asm_core.specs.Sources.{source_lines};
ghost use Rattle.asm_lex.specs.Names.{value_in};
ghost use Rattle.asm_lex.specs.Spans.{IsWithin, AreWithin};
ghost use Rattle.asm_core.specs.Fixed.{fixed_names};
ghost use Rattle.asm_core.specs.Told.{AreTold, AreNoted, AgreesWithFaults, given_names, has_fault_1};
ghost use Rattle.asm_listing.specs.Remedies.{named_remedy, remedy};
ghost use Rattle.asm_listing.specs.Told.{shown_byte, shown, line_text, remark_text, start_at, bytes_at, finding_text, no_span, entry_text, operands_text, note_text, notes_text, fault_text, rest_text, told_text, told_lines, is_octo_told, octo_count, octo_text, has_told, rest_lines, report_of};

use crate::comments::{append_comment_notes, other_note};
use crate::remedies::{is_octo, named_remedy, remedy};
use crate::waiting::append_waiting;
use crate::write::{append, append_each};
use asm_core::{AsmCause, AsmFault, Checked, Finding, Told, check, further_finding, next_line};
use asm_lex::{Entry, Isa, Place, Span, Symbols, line_entry, line_spans};
use itoa::Buffer as Digits;
use std::alloc::{AllocError, Global};
use vip_byte::hex2;

fn append_byte(text: &mut Vec<u8>, byte: u8) -> Result<(), AllocError>
    ensures { OnOk result (text.new.items ≡ text.old.items ++ shown_byte byte) }
{
    if (b' '..=b'~').contains(&byte) {
        append(text, &[byte])
    } else {
        append_each(text, &[b"\\x", &hex2(byte)])
    }
}

// Bytes as they stand, with those that aren't printable in hexadecimal.
fn show(alloc: Global, bytes: &[u8]) -> Result<Vec<u8>, AllocError>
    ensures { IfOk result (λ text. text.items ≡ shown bytes.now) }
{
    let mut text = Vec::new(alloc);
    for byte in bytes {
        append_byte(&mut text, *byte)?;
    }
    Ok(text)
}

fn remark_of(alloc: Global, remark: Option<&[u8]>) -> Result<Vec<u8>, AllocError>
    ensures { IfOk result (λ text. text.items ≡ remark_text (option_map (λ remark. remark.now) remark.entry)) }
{
    let mut text = Vec::new(alloc);
    if let Some(remark) = remark {
        let shown = show(alloc, remark)?;
        append_each(&mut text, &[b" (", shown.as_slice(), b")"])?;
    }
    Ok(text)
}

pub(crate) fn append_line(
    alloc: Global,
    text: &mut Vec<u8>,
    name: &[u8],
    number: u32,
    column: usize,
    says: &str,
    culprit: &[u8],
    remark: Option<&[u8]>,
) -> Result<(), AllocError>
    ensures { OnOk result (text.new.items ≡ text.old.items
        ++ line_text name.now number column says.now culprit.now (option_map (λ remark. remark.now) remark.entry)) }
{
    let mut line_digits = Digits::new();
    let mut column_digits = Digits::new();
    let culprit = show(alloc, culprit)?;
    let remark = remark_of(alloc, remark)?;
    append_each(
        text,
        &[
            name,
            b":",
            line_digits.format(number).as_bytes(),
            b":",
            column_digits.format(column).as_bytes(),
            b": ",
            says.as_bytes(),
            b": ",
            culprit.as_slice(),
            remark.as_slice(),
            b"\n",
        ],
    )
}

fn start_at(line: &[u8], place: Place) -> usize
    ensures start { result ≡ start_at line.now place }
    ensures within { result ≤ length line.now }
{
    place.from.min(place.to.min(line.len()))
}

fn bytes_at(line: &[u8], place: Place) -> &[u8]
    ensures { result.now ≡ bytes_at line.now place }
{
    &line[start_at(line, place)..place.to.min(line.len())]
}

// The remedy of a culprit, by the names that are given or by its habit.
fn any_remedy(
    alloc: Global,
    isa: Isa,
    given: &Symbols,
    cause: AsmCause,
    line: &[u8],
    culprit: &[u8],
) -> Result<Option<Vec<u8>>, AllocError>
    ensures { IfOk result (λ found. option_map (λ found. found.items) found
        ≡ option_or (named_remedy isa (value_in given.now) cause line.now culprit.now) (remedy isa cause line.now culprit.now)) }
{
    match named_remedy(alloc, isa, given, cause, line, culprit)? {
        Some(remedy) => Ok(Some(remedy)),
        None => remedy(alloc, isa, cause, line, culprit),
    }
}

fn append_finding(
    alloc: Global,
    text: &mut Vec<u8>,
    isa: Isa,
    given: &Symbols,
    name: &[u8],
    number: u32,
    line: &[u8],
    finding: Finding,
) -> Result<(), AllocError>
    ensures { OnOk result (text.new.items ≡ text.old.items ++ finding_text isa (value_in given.now) name.now number line.now finding) }
{
    let from = start_at(line, finding.place);
    let culprit = bytes_at(line, finding.place);
    let says = finding.cause.name();
    match any_remedy(alloc, isa, given, finding.cause, line, culprit)? {
        Some(remedy) => {
            let remark = Some(remedy.as_slice());
            append_line(alloc, text, name, number, from + 1, says, culprit, remark)
        }
        None => append_line(alloc, text, name, number, from + 1, says, culprit, None),
    }
}

fn append_note(
    alloc: Global,
    text: &mut Vec<u8>,
    name: &[u8],
    number: u32,
    line: &[u8],
    place: Place,
) -> Result<(), AllocError>
    ensures { OnOk result (text.new.items ≡ text.old.items ++ note_text name.now number line.now place) }
{
    let column = start_at(line, place) + 1;
    let instruction = bytes_at(line, place);
    let remark = "a comment: an instruction needs a line of its own";
    let remark = Some(remark.as_bytes());
    append_line(
        alloc,
        text,
        name,
        number,
        column,
        "note",
        instruction,
        remark,
    )
}

fn append_finding_of(
    alloc: Global,
    text: &mut Vec<u8>,
    isa: Isa,
    given: &Symbols,
    name: &[u8],
    number: u32,
    line: &[u8],
    finding: Option<Finding>,
) -> Result<(), AllocError>
    ensures { OnOk result (text.new.items ≡ text.old.items
        ++ option_map_or (finding_text isa (value_in given.now) name.now number line.now) finding []) }
{
    match finding {
        Some(finding) => append_finding(alloc, text, isa, given, name, number, line, finding),
        None => Ok(()),
    }
}

pub(crate) fn span_at(line: &[u8], spans: &[Span], k: usize) -> Span
    requires inside { k < length spans.now }
    requires within { AreWithin line.now spans.now }
    ensures span { result ≡ slice_index_or spans.now k no_span }
    ensures within { IsWithin line.now result }
{
    spans[k]
}

// What is told of the operands of a line whose word has this entry, beside its fault.
fn append_entry(
    alloc: Global,
    text: &mut Vec<u8>,
    isa: Isa,
    given: &Symbols,
    fixed: &Symbols,
    name: &[u8],
    number: u32,
    line: &[u8],
    told: Option<Finding>,
    spans: &[Span],
    entry: Entry,
) -> Result<(), AllocError>
    requires within { AreWithin line.now spans.now }
    requires short { length line.now ≤ 255 }
    ensures { OnOk result (text.new.items ≡ text.old.items
        ++ entry_text isa (value_in given.now) (value_in fixed.now) name.now number line.now told spans.now entry) }
{
    for k in 0..spans.len() {
        let span = span_at(line, spans, k);
        let found = further_finding(alloc, isa, fixed, given, line, entry, k, span, told);
        append_finding_of(alloc, text, isa, given, name, number, line, found)?;
    }
    Ok(())
}

#[tactic(auto, unfolding(crate::specs::Told::operands_text))]
fn append_operands(
    alloc: Global,
    text: &mut Vec<u8>,
    isa: Isa,
    given: &Symbols,
    fixed: &Symbols,
    name: &[u8],
    number: u32,
    line: &[u8],
    told: Option<Finding>,
) -> Result<(), AllocError>
    ensures { OnOk result (text.new.items ≡ text.old.items ++ operands_text isa (value_in given.now) (value_in fixed.now) name.now number line.now told) }
{
    if line.len() > 255 {
        return Ok(());
    }
    let spans = line_spans(line);
    let operands = spans.operands.as_slice();
    match line_entry(isa, line) {
        Some(entry) => append_entry(
            alloc, text, isa, given, fixed, name, number, line, told, operands, entry,
        ),
        None => Ok(()),
    }
}

// The fault of a line, if it is told, and behind it those of its other operands.
fn append_fault(
    alloc: Global,
    text: &mut Vec<u8>,
    isa: Isa,
    given: &Symbols,
    fixed: &Symbols,
    name: &[u8],
    number: u32,
    line: &[u8],
    told: Option<Finding>,
) -> Result<(), AllocError>
    ensures { OnOk result (text.new.items ≡ text.old.items ++ fault_text isa (value_in given.now) (value_in fixed.now) name.now number line.now told) }
{
    match told {
        Some(finding) => {
            append_finding(alloc, text, isa, given, name, number, line, finding)?;
            append_operands(alloc, text, isa, given, fixed, name, number, line, told)
        }
        None => Ok(()),
    }
}

// What is told of the operands of a line that has no such fault.
fn append_rest(
    alloc: Global,
    text: &mut Vec<u8>,
    isa: Isa,
    given: &Symbols,
    fixed: &Symbols,
    name: &[u8],
    number: u32,
    line: &[u8],
    told: Option<Finding>,
) -> Result<(), AllocError>
    ensures { OnOk result (text.new.items ≡ text.old.items ++ rest_text isa (value_in given.now) (value_in fixed.now) name.now number line.now told) }
{
    match told {
        Some(_) => Ok(()),
        None => append_operands(alloc, text, isa, given, fixed, name, number, line, told),
    }
}

fn append_note_of(
    alloc: Global,
    text: &mut Vec<u8>,
    name: &[u8],
    number: u32,
    line: &[u8],
    note: Option<Place>,
) -> Result<(), AllocError>
    ensures { OnOk result (text.new.items ≡ text.old.items ++ option_map_or (note_text name.now number line.now) note []) }
{
    match note {
        Some(place) => append_note(alloc, text, name, number, line, place),
        None => Ok(()),
    }
}

// The notes of one line.
fn append_notes(
    alloc: Global,
    text: &mut Vec<u8>,
    isa: Isa,
    name: &[u8],
    number: u32,
    line: &[u8],
    note: Option<Place>,
) -> Result<(), AllocError>
    ensures { OnOk result (text.new.items ≡ text.old.items ++ notes_text isa name.now number line.now note) }
{
    let note = other_note(alloc, isa, line, note);
    append_note_of(alloc, text, name, number, line, note)?;
    append_comment_notes(alloc, text, isa, name, number, line)
}

/// The parts of the text, each of which goes over all lines.
#[derive(Clone, Copy)]
enum Part {
    /// The faulty lines, and the notes.
    Faults,
    /// What is told of the lines that have none of those faults.
    Rest,
}

// What a part tells of one line.
#[tactic(auto, unfolding(crate::specs::Told::told_text))]
fn append_told(
    alloc: Global,
    text: &mut Vec<u8>,
    isa: Isa,
    given: &Symbols,
    fixed: &Symbols,
    part: Part,
    name: &[u8],
    number: u32,
    line: &[u8],
    told: Option<Finding>,
    note: Option<Place>,
) -> Result<(), AllocError>
    ensures { OnOk result (text.new.items ≡ text.old.items ++ told_text isa (value_in given.now) (value_in fixed.now) part name.now number line.now told note) }
{
    match part {
        Part::Faults => {
            append_fault(alloc, text, isa, given, fixed, name, number, line, told)?;
            append_notes(alloc, text, isa, name, number, line, note)
        }
        Part::Rest => append_rest(alloc, text, isa, given, fixed, name, number, line, told),
    }
}

/// What is told of a source.
#[derive(Drop)]
pub struct CheckText {
    /// The text, a line for each fault and each note.
    pub text: Vec<u8>,
    /// Whether a fault is told.
    pub faulty: bool,
}

// What is told of the line at a place, where it is a fault or a note.
pub(crate) fn told_at<T: Copy>(told: &[Option<T>], index: usize) -> Option<T>
    requires { index < length told.now }
    ensures { result ≡ slice_index_or told.now index None }
{
    told[index]
}

// What a part tells of all lines.
fn text_of(
    alloc: Global,
    isa: Isa,
    given: &Symbols,
    fixed: &Symbols,
    part: Part,
    name: &[u8],
    text: &[u8],
    told: &Told,
) -> Result<Vec<u8>, AllocError>
    requires text { length text.now ≤ most_bytes }
    requires told { AreTold isa (source_lines text.now) told.now.findings.items }
    requires noted { AreNoted isa (source_lines text.now) told.now.notes.items }
    requires given { value_in given.now ≡ given_names isa (source_lines text.now) }
    requires fixed { value_in fixed.now ≡ fixed_names isa (source_lines text.now) }
    ensures { IfOk result (λ report. report.items ≡ told_lines isa part name.now (source_lines text.now)) }
{
    let findings = told.findings.as_slice();
    let notes = told.notes.as_slice();
    let mut report = Vec::new(alloc);
    let mut number: u32 = 0;
    let mut rest = text;
    while let Some((line, more)) = next_line(rest) {
        let finding = told_at(findings, number as usize);
        let note = told_at(notes, number as usize);
        append_told(
            alloc,
            &mut report,
            isa,
            given,
            fixed,
            part,
            name,
            number + 1,
            line,
            finding,
            note,
        )?;
        number += 1;
        rest = more;
    }
    Ok(report)
}

fn is_octo_told(isa: Isa, line: &[u8], finding: Option<Finding>) -> bool
    ensures { result ≡ is_octo_told isa line.now finding }
{
    match finding {
        Some(finding) => is_octo(isa, finding.cause, line, bytes_at(line, finding.place)),
        None => false,
    }
}

pub(crate) fn one_if(test: bool) -> u32
    ensures value { result ≡ (if test then 1 else 0) }
    ensures most { result ≤ 1 }
{
    if test { 1 } else { 0 }
}

// How many faults are statements of Octo.
fn octo_count(isa: Isa, text: &[u8], told: &Told) -> u32
    requires text { length text.now ≤ most_bytes }
    requires told { AreTold isa (source_lines text.now) told.now.findings.items }
    ensures { result ≡ octo_count isa (source_lines text.now) (length (source_lines text.now)) }
{
    let findings = told.findings.as_slice();
    let mut count: u32 = 0;
    let mut number: u32 = 0;
    let mut rest = text;
    while let Some((line, more)) = next_line(rest) {
        let finding = told_at(findings, number as usize);
        count += one_if(is_octo_told(isa, line, finding));
        number += 1;
        rest = more;
    }
    count
}

fn append_octo(text: &mut Vec<u8>, name: &[u8], count: u32) -> Result<(), AllocError>
    ensures { OnOk result (text.new.items ≡ text.old.items ++ octo_text name.now count) }
{
    if count >= 10 {
        append_each(
            text,
            &[
                name,
                b": this looks like Octo: see docs/FIRST_GAME.md",
                b"\n",
            ],
        )
    } else {
        Ok(())
    }
}

fn is_any_told(found: &[Option<Finding>]) -> bool
    ensures { result ≡ list_any (λ finding. is_some finding) found.now }
{
    found.iter().any(|finding| finding.is_some())
}

fn has_told(found: &[Option<Finding>]) -> bool
    ensures { (isa : Isa) (source : List (List ℕ)) → AreTold isa source found.now → result ≡ has_told isa source }
{
    is_any_told(found)
}

// What is told of the lines that have none of the faults of the first part, where one is faulty.
fn rest_of(
    alloc: Global,
    isa: Isa,
    given: &Symbols,
    fixed: &Symbols,
    name: &[u8],
    text: &[u8],
    told: &Told,
    faulty: bool,
) -> Result<Vec<u8>, AllocError>
    requires text { length text.now ≤ most_bytes }
    requires told { AreTold isa (source_lines text.now) told.now.findings.items }
    requires noted { AreNoted isa (source_lines text.now) told.now.notes.items }
    requires given { value_in given.now ≡ given_names isa (source_lines text.now) }
    requires fixed { value_in fixed.now ≡ fixed_names isa (source_lines text.now) }
    ensures { IfOk result (λ rest. rest.items ≡ rest_lines isa faulty name.now (source_lines text.now)) }
{
    if faulty {
        text_of(alloc, isa, given, fixed, Part::Rest, name, text, told)
    } else {
        Ok(Vec::new(alloc))
    }
}

// What is told of all lines, and behind it that they look like Octo's, and how many wait for the next run.
#[tactic(auto, unfolding(crate::specs::Told::report_of))]
fn whole_text(
    alloc: Global,
    isa: Isa,
    name: &[u8],
    text: &[u8],
    checked: &Checked,
    faulty: bool,
) -> Result<Vec<u8>, AllocError>
    requires text { length text.now ≤ most_bytes }
    requires told { AreTold isa (source_lines text.now) checked.now.told.findings.items }
    requires noted { AreNoted isa (source_lines text.now) checked.now.told.notes.items }
    requires given { value_in checked.now.names ≡ given_names isa (source_lines text.now) }
    requires fixed { value_in checked.now.fixed ≡ fixed_names isa (source_lines text.now) }
    requires waits { checked.now.waits ≡ has_fault_1 isa (source_lines text.now) }
    requires faulty { faulty ≡ has_told isa (source_lines text.now) }
    ensures { IfOk result (λ report. report.items ≡ report_of isa name.now (source_lines text.now)) }
{
    let Checked {
        told,
        waits,
        names,
        fixed,
    } = checked;
    let mut report = text_of(alloc, isa, names, fixed, Part::Faults, name, text, told)?;
    let rest = rest_of(alloc, isa, names, fixed, name, text, told, faulty)?;
    append(&mut report, rest.as_slice())?;
    append_octo(&mut report, name, octo_count(isa, text, told))?;
    append_waiting(
        alloc,
        &mut report,
        isa,
        names,
        fixed,
        name,
        text,
        told,
        *waits,
    )?;
    Ok(report)
}

/// Every fault of a source of at most `MOST_BYTES` bytes, as text, where the source's file has this name. It fails only where memory is refused.
pub fn report(alloc: Global, isa: Isa, name: &[u8], text: &[u8]) -> Result<CheckText, AsmFault>
    requires { length text.now ≤ most_bytes }
    ensures text { IfOk result (λ report. report.text.items ≡ report_of isa name.now (source_lines text.now)) }
    ensures faulty { IfOk result (λ report. report.faulty ≡ has_told isa (source_lines text.now)) }
    ensures agrees { AgreesWithFaults isa (source_lines text.now) }
    ensures memory { IfErr result (λ fault. fault ≡ AsmFault.NoMemory) }
{
    let checked = check(alloc, isa, text)?;
    let faulty = has_told(checked.told.findings.as_slice());
    match whole_text(alloc, isa, name, text, &checked, faulty) {
        Ok(text) => Ok(CheckText { text, faulty }),
        Err(_) => Err(AsmFault::NoMemory),
    }
}
