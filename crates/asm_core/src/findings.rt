//! Every fault of a source, each faulty line told once, by its first cause.

ghost use Rattle.std.specs.Prelude.{◌≡◌, ◌≤◌, ◌<◌, ◌+◌, ◌++◌, ◌∷◌, [], ℕ, List, length, option_map, slice_index_or, true, false, None, Some, IfOk, OnOk, IfErr, Ok};
ghost use Rattle.asm_lex.specs.Lines.{Reads};
ghost use Rattle.asm_lex.specs.Names.{Names, value_in};
ghost use Rattle.asm_lex.specs.Notes.{note_in};
ghost use Rattle.asm_core.specs.Fixed.{fixed_names};
ghost use Rattle.asm_core.specs.Layout.{encoded};
ghost use Rattle.asm_core.specs.Limits.{most_bytes};
ghost use Rattle.asm_core.specs.Passes.{LaysOut, IsFound, line_plan, planned};
ghost use Rattle.asm_core.specs.Sources.{source_lines};
ghost use Rattle.asm_core.specs.Told.{label_if_name, guessed_label, with_colon, is_sure, sure_finding, finding_2, seen_at, given_names, has_fault_1, kept_before, told_1, told_2, IsEachOf, AreTold, AreNoted, NothingTold, AgreesWithFaults};
ghost use Rattle.asm_core.specs.Surveys.{Learns, Guesses, Looks, HasNoLines, AddsFound, PutsLine};

use crate::assembly::LinePlace;
use crate::culprit::{culprit_1, culprit_2, large_number};
use crate::encode::{Bytes, byte_count};
use crate::fault::{AsmCause, AsmFault};
use crate::fixed::fixed_names;
use crate::layout::{LabelValue, Laid, encode_line, lay_out, origin_of, symbol_value};
use crate::passes::Plan;
use crate::source::next_line;
use crate::table::{Cell, empty_table, overlaps, place};
use asm_lex::{
    Isa, Place, SymbolValue, Symbols, Word, is_label, line_spans, missing_colon, note_in, text_at,
};
use std::alloc::{AllocError, Global};

/// The number for which the label of a faulty line stands, which is no register's.
const GUESSED: u16 = 0x8000;

/// What is wrong with a line: why, and where in it.
#[derive(Clone, Copy)]
pub struct Finding {
    /// The line's first cause.
    pub cause: AsmCause,
    /// The culprit.
    pub place: Place,
}

/// What is told of each line of a source.
#[derive(Drop)]
pub struct Told {
    /// Its fault, if it has one that is told.
    pub findings: Vec<Option<Finding>>,
    /// Where its comment is an instruction behind an instruction, if it is.
    pub notes: Vec<Option<Place>>,
}

// A line in pass 1, whose label is added to the names: its word and where it stands, or its first cause.
fn learn(
    alloc: Global,
    isa: Isa,
    names: &mut Symbols,
    at: u32,
    line: &[u8],
) -> Result<Result<(Option<Word>, Laid), AsmCause>, AllocError>
    requires { at ≤ 65536 }
    ensures { IfOk result (λ learnt. Learns isa names.old at line.now names.new learnt) }
{
    let placed = match lay_out(isa, names, at, line) {
        Ok(placed) => placed,
        Err(cause) => return Ok(Err(cause)),
    };
    if let Some(label) = placed.label {
        let value = symbol_value(placed.laid.value);
        names.define(alloc, text_at(line, label), value)?;
    }
    Ok(Ok((placed.word, placed.laid)))
}

fn if_name(isa: Isa, label: &[u8]) -> Option<&[u8]>
    ensures { option_map (λ label. label.now) result ≡ label_if_name isa (Some label.now) }
{
    if is_label(isa, label) {
        Some(label)
    } else {
        None
    }
}

// The label of a faulty line, where it is a name.
fn guessed_label(isa: Isa, line: &[u8]) -> Option<&[u8]>
    ensures { option_map (λ label. label.now) result ≡ guessed_label isa line.now }
{
    let front = &line[..255usize.min(line.len())];
    match line_spans(front).label {
        Some(label) => if_name(isa, text_at(front, label)),
        None => None,
    }
}

// A line with the colon that is missing in it.
#[tactic(auto, unfolding(crate::specs::Told::with_colon))]
fn with_colon(alloc: Global, isa: Isa, line: &[u8]) -> Result<Vec<u8>, AllocError>
    ensures { IfOk result (λ text. text.items ≡ with_colon isa line.now) }
{
    match missing_colon(isa, line) {
        Some(place) => {
            let mut text = Vec::from_slice(alloc, &line[..place])?;
            text.push(b':')?;
            text.extend_from_slice(&line[place..])?;
            Ok(text)
        }
        None => Vec::from_slice(alloc, line),
    }
}

// What a faulty line leaves: the address behind it.
fn guess(
    alloc: Global,
    isa: Isa,
    names: &mut Symbols,
    at: u32,
    line: &[u8],
) -> Result<u32, AllocError>
    requires { at ≤ 65536 }
    ensures { IfOk result (λ next. Guesses isa names.old at line.now names.new next) }
{
    if let Ok((_, laid)) = learn(alloc, isa, names, at, line)? {
        return Ok(laid.next);
    }
    if let Some(label) = guessed_label(isa, line) {
        if names.get(label).is_none() {
            names.define(alloc, label, SymbolValue::Number(GUESSED))?;
        }
    }
    Ok(at)
}

// Whether a cause holds whatever the addresses are.
fn is_sure(isa: Isa, names: &Symbols, line: &[u8], cause: AsmCause) -> bool
    ensures { result ≡ is_sure isa (value_in names.now) line.now cause }
{
    match cause {
        AsmCause::Range => large_number(isa, names, line).is_some(),
        AsmCause::TooLarge => false,
        _ => true,
    }
}

// The fault that is told of a line in pass 1; behind a faulty line, where addresses are unknown, only one that holds whatever they are.
fn sure_finding(
    isa: Isa,
    names: &Symbols,
    faulty: bool,
    line: &[u8],
    cause: AsmCause,
) -> Option<Finding>
    ensures { result ≡ sure_finding isa (value_in names.now) faulty line.now cause }
{
    if faulty && !is_sure(isa, names, line, cause) {
        return None;
    }
    let place = culprit_1(isa, names, line, cause);
    Some(Finding { cause, place })
}

// What pass 1 says of a line: its word, where it stands, whether it or a line before it is faulty, and what is told.
#[derive(Clone, Copy)]
struct Looked {
    word: Option<Word>,
    laid: Laid,
    faulty: bool,
    finding: Option<Finding>,
}

fn look_at(
    alloc: Global,
    isa: Isa,
    names: &mut Symbols,
    at: u32,
    faulty: bool,
    line: &[u8],
) -> Result<Looked, AllocError>
    requires { at ≤ 65536 }
    ensures { IfOk result (λ looked. Looks isa names.old at faulty line.now names.new looked) }
{
    match learn(alloc, isa, names, at, line)? {
        Ok((word, laid)) => Ok(Looked {
            word,
            laid,
            faulty,
            finding: None,
        }),
        Err(cause) => {
            let finding = sure_finding(isa, names, faulty, line, cause);
            let text = with_colon(alloc, isa, line)?;
            let next = guess(alloc, isa, names, at, text.as_slice())?;
            Ok(Looked {
                word: None,
                laid: Laid {
                    value: LabelValue::Address(at),
                    next,
                },
                faulty: true,
                finding,
            })
        }
    }
}

// Adds the note of a line, where notes are wanted.
fn add_note(
    notes: &mut Vec<Option<Place>>,
    wanted: bool,
    isa: Isa,
    names: &Symbols,
    line: &[u8],
) -> Result<(), AllocError>
    ensures { OnOk result (wanted ≡ true → notes.new.items ≡ notes.old.items ++ note_in isa (value_in names.now) line.now ∷ []) }
{
    if wanted {
        notes.push(note_in(isa, names, line))?;
    }
    Ok(())
}

// What pass 1 finds: what is told of each line, whether a line is faulty, and, where none is, where the lines stand.
#[derive(Drop)]
struct First {
    told: Told,
    faulty: bool,
    plan: Plan,
}

impl First {
    // Before the first line, which begins at the address `at`.
    fn new(alloc: Global, at: u32) -> Result<First, AllocError>
        ensures { IfOk result (λ first. HasNoLines first at) }
    {
        let mut addresses = Vec::new(alloc);
        addresses.push(at)?;
        Ok(First {
            told: Told {
                findings: Vec::new(alloc),
                notes: Vec::new(alloc),
            },
            faulty: false,
            plan: Plan {
                names: Symbols::new(alloc),
                addresses,
                words: Vec::new(alloc),
                values: Vec::new(alloc),
            },
        })
    }

    // Adds what is found of one more line, which begins at the address `at`, and answers the address behind it.
    fn add_line(
        &mut self,
        alloc: Global,
        isa: Isa,
        at: u32,
        with_note: bool,
        line: &[u8],
    ) -> Result<u32, AllocError>
        requires { at ≤ 65536 }
        ensures { IfOk result (λ next. AddsFound isa self.old at with_note line.now self.new next) }
    {
        add_note(&mut self.told.notes, with_note, isa, &self.plan.names, line)?;
        let looked = look_at(alloc, isa, &mut self.plan.names, at, self.faulty, line)?;
        self.plan.addresses.push(looked.laid.next)?;
        self.plan.words.push(looked.word)?;
        self.plan.values.push(looked.laid.value)?;
        self.told.findings.push(looked.finding)?;
        self.faulty = looked.faulty;
        Ok(looked.laid.next)
    }
}

// Pass 1 over the lines of a source. It alone tells notes, where they are wanted.
fn pass_1(alloc: Global, isa: Isa, text: &[u8], with_notes: bool) -> Result<First, AllocError>
    ensures few { IfOk result (λ first. length first.told.findings.items ≤ length text.now) }
    ensures told { IfOk result (λ first. IsEachOf (told_1 isa (source_lines text.now)) (length (source_lines text.now)) first.told.findings.items) }
    ensures noted { IfOk result (λ first. with_notes ≡ true → AreNoted isa (source_lines text.now) first.told.notes.items) }
    ensures faulty { IfOk result (λ first. first.faulty ≡ (seen_at isa (source_lines text.now) (length (source_lines text.now))).faulty) }
    ensures given { IfOk result (λ first. value_in first.plan.names ≡ given_names isa (source_lines text.now)) }
    ensures plan { IfOk result (λ first. first.faulty ≡ false →
        LaysOut isa (source_lines text.now) (length (source_lines text.now)) (planned first.plan)) }
{
    let mut at = origin_of(isa);
    let mut first = First::new(alloc, at)?;
    let mut rest = text;
    while let Some((line, more)) = next_line(rest) {
        let next = first.add_line(alloc, isa, at, with_notes, line)?;
        at = next;
        rest = more;
    }
    Ok(first)
}

fn finding_2(
    isa: Isa,
    names: &Symbols,
    at: u32,
    word: Option<Word>,
    line: &[u8],
    cause: AsmCause,
) -> Finding
    requires short { length line.now ≤ 255 }
    requires at { at ≤ 65536 }
    ensures { result ≡ finding_2 isa (value_in names.now) at word line.now cause }
{
    let place = culprit_2(isa, names, at, word, line, cause);
    Finding { cause, place }
}

// Where pass 1 placed a line: the address at which it begins, how many bytes it has, and its word.
#[derive(Clone, Copy)]
struct LinePlan {
    at: u32,
    count: u32,
    word: Option<Word>,
}

fn line_plan(plan: &Plan, index: usize) -> LinePlan
    requires addresses { index + 1 < length plan.now.addresses.items }
    requires words { index < length plan.now.words.items }
    requires values { index < length plan.now.values.items }
    ensures { result ≡ line_plan (planned plan.now) index }
{
    let place = LinePlace {
        value: plan.values[index],
        at: plan.addresses[index],
        next: plan.addresses[index + 1],
    };
    LinePlan {
        at: place.at,
        count: place.byte_count(),
        word: plan.words[index],
    }
}

// One line in pass 2. A faulty line gives no bytes.
fn put_line(
    isa: Isa,
    names: &Symbols,
    cells: &mut Vec<Option<Cell>>,
    number: u32,
    plan: LinePlan,
    line: &[u8],
) -> Option<Finding>
    requires at { plan.at ≤ 65536 }
    requires cells { length cells.old.items ≡ 65536 }
    requires line { (earlier : Names) × Reads isa earlier line.now plan.word
        × ((bytes : List ℕ) → encoded isa earlier (value_in names.now) plan.at plan.count line.now ≡ Ok bytes → plan.at + length bytes ≤ 65536) }
    ensures count { length cells.new.items ≡ length cells.old.items }
    ensures told { (earlier : Names) → Reads isa earlier line.now plan.word →
        PutsLine (finding_2 isa (value_in names.now) plan.at plan.word line.now) cells.old.items cells.new.items number plan.at
        (encoded isa earlier (value_in names.now) plan.at plan.count line.now) result }
{
    let bytes = match encode_line(isa, names, plan.at, plan.count, plan.word, line) {
        Ok(bytes) => bytes,
        Err(cause) => return Some(finding_2(isa, names, plan.at, plan.word, line, cause)),
    };
    if overlaps(cells.as_slice(), plan.at, byte_count(&bytes)) {
        let cause = AsmCause::Overlap;
        return Some(finding_2(isa, names, plan.at, plan.word, line, cause));
    }
    place(cells, number, plan.at, &bytes);
    None
}

// What pass 2 finds: the bytes of the lines without a fault, and what is told of each line.
#[derive(Drop)]
struct Second {
    cells: Vec<Option<Cell>>,
    findings: Vec<Option<Finding>>,
}

// Pass 2 over the lines of a source that has no fault in pass 1.
fn pass_2(alloc: Global, isa: Isa, text: &[u8], plan: &Plan) -> Result<Second, AllocError>
    requires text { length text.now ≤ most_bytes }
    requires plan { LaysOut isa (source_lines text.now) (length (source_lines text.now)) (planned plan.now) }
    ensures count { IfOk result (λ second. length second.cells.items ≡ 65536) }
    ensures bytes { IfOk result (λ second. (address : ℕ) →
        slice_index_or second.cells.items address None ≡ kept_before isa (source_lines text.now) (length (source_lines text.now)) address) }
    ensures told { IfOk result (λ second. IsEachOf (told_2 isa (source_lines text.now)) (length (source_lines text.now)) second.findings.items) }
{
    let mut cells = empty_table(alloc)?;
    let mut findings = Vec::new(alloc);
    let mut number: u32 = 0;
    let mut rest = text;
    while let Some((line, more)) = next_line(rest) {
        let here = line_plan(plan, number as usize);
        let finding = put_line(isa, &plan.names, &mut cells, number + 1, here, line);
        findings.push(finding)?;
        number += 1;
        rest = more;
    }
    Ok(Second { cells, findings })
}

/// What both passes find: what is told of each line, whether pass 2 waits for lines to be mended, and, where nothing is told, where the lines stand and
/// their bytes.
#[derive(Drop)]
pub(crate) struct Found {
    pub told: Told,
    pub waits: bool,
    pub plan: Plan,
    pub cells: Vec<Option<Cell>>,
}

/// Both passes over the lines of a source.
pub(crate) fn run_passes(
    alloc: Global,
    isa: Isa,
    text: &[u8],
    with_notes: bool,
) -> Result<Found, AllocError>
    requires { length text.now ≤ most_bytes }
    ensures few { IfOk result (λ found. length found.told.findings.items ≤ most_bytes) }
    ensures told { IfOk result (λ found. AreTold isa (source_lines text.now) found.told.findings.items) }
    ensures noted { IfOk result (λ found. with_notes ≡ true → AreNoted isa (source_lines text.now) found.told.notes.items) }
    ensures given { IfOk result (λ found. value_in found.plan.names ≡ given_names isa (source_lines text.now)) }
    ensures waits { IfOk result (λ found. found.waits ≡ has_fault_1 isa (source_lines text.now)) }
    ensures made { IfOk result (λ found. NothingTold isa (source_lines text.now) →
        IsFound isa (source_lines text.now) (planned found.plan) found.cells.items) }
{
    let first = pass_1(alloc, isa, text, with_notes)?;
    let First { told, faulty, plan } = first;
    if faulty {
        let cells = Vec::new(alloc);
        let waits = true;
        return Ok(Found {
            told,
            waits,
            plan,
            cells,
        });
    }
    let Second { cells, findings } = pass_2(alloc, isa, text, &plan)?;
    let notes = told.notes;
    Ok(Found {
        told: Told { findings, notes },
        waits: false,
        plan,
        cells,
    })
}

/// What is told of each line of a source, and the names that its lines give.
#[derive(Drop)]
pub struct Checked {
    /// What is told of each line.
    pub told: Told,
    /// Whether pass 2 waits for lines to be mended.
    pub waits: bool,
    /// The names, those of faulty lines too, whose values then say nothing.
    pub names: Symbols,
    /// The names whose values hang on no address.
    pub fixed: Symbols,
}

fn tell(alloc: Global, isa: Isa, text: &[u8]) -> Result<Checked, AllocError>
    requires { length text.now ≤ most_bytes }
    ensures told { IfOk result (λ checked. AreTold isa (source_lines text.now) checked.told.findings.items) }
    ensures noted { IfOk result (λ checked. AreNoted isa (source_lines text.now) checked.told.notes.items) }
    ensures waits { IfOk result (λ checked. checked.waits ≡ has_fault_1 isa (source_lines text.now)) }
    ensures given { IfOk result (λ checked. value_in checked.names ≡ given_names isa (source_lines text.now)) }
    ensures fixed { IfOk result (λ checked. value_in checked.fixed ≡ fixed_names isa (source_lines text.now)) }
{
    let found = run_passes(alloc, isa, text, true)?;
    let Found {
        told,
        waits,
        plan,
        cells: _,
    } = found;
    let fixed = fixed_names(alloc, isa, text, told.findings.as_slice())?;
    Ok(Checked {
        told,
        waits,
        names: plan.names,
        fixed,
    })
}

/// What is told of each line of a source of an instruction set of at most `MOST_BYTES` bytes: its first fault, or nothing, and an instruction in its
/// comment. It fails only where memory is refused.
pub fn check(alloc: Global, isa: Isa, text: &[u8]) -> Result<Checked, AsmFault>
    requires { length text.now ≤ most_bytes }
    ensures told { IfOk result (λ checked. AreTold isa (source_lines text.now) checked.told.findings.items) }
    ensures noted { IfOk result (λ checked. AreNoted isa (source_lines text.now) checked.told.notes.items) }
    ensures waits { IfOk result (λ checked. checked.waits ≡ has_fault_1 isa (source_lines text.now)) }
    ensures given { IfOk result (λ checked. value_in checked.names ≡ given_names isa (source_lines text.now)) }
    ensures fixed { IfOk result (λ checked. value_in checked.fixed ≡ fixed_names isa (source_lines text.now)) }
    ensures agrees { AgreesWithFaults isa (source_lines text.now) }
    ensures memory { IfErr result (λ fault. fault ≡ AsmFault.NoMemory) }
{
    match tell(alloc, isa, text) {
        Ok(checked) => Ok(checked),
        Err(_) => Err(AsmFault::NoMemory),
    }
}
