//! Reading a certificate line by line.

ghost use Rattle.std.specs.Prelude.{◌≡◌, ◌≤◌, ◌⊎◌, ◌++◌, if◌then◌else◌, true, [], ◌∷◌, length, slice_index, Some, None, Err, OnOk, OnErr, IfOk, IfErr};
ghost use Rattle.std.specs.Str.Lines.{lines};
ghost use Rattle.vip_byte.specs.Reading.{read};
ghost use Rattle.vip_byte.specs.Text.{words};
ghost use Rattle.cycle_check.specs.Certificate.{certificate_format, certificate_of, is_behind, next_of, numbers_from, said};
ghost use Rattle.cycle_check.specs.Reading.{IsRead, AreRising, FollowsIn, extended};

use crate::fault::{CertCause, CertFault};
use crate::grammar::{Bound, Line, Statement, read_bound, read_line};
use std::alloc::{AllocError, Global};
use std::marker::Model;
use vip_byte::{Lines, MOST_TEXT, Words};

/// What was read of a certificate: the bound, which is there as soon as a line says something, and the lines of the addresses, which rise.
#[derive(Drop)]
pub struct Draft {
    bound: Option<Bound>,
    lines: Vec<Line>,
}

impl Model for Draft {
    ghost use Rattle.cycle_check.specs.Certificate.{Certificate};
    ghost use Rattle.cycle_check.specs.Reading.{AreRising};

    ghost Value = { Certificate };

    ghost view = { λ inside. record { bound = inside.bound; lines = inside.lines.items } };

    ghost invariant = { λ inside. AreRising inside.lines.items };
}

impl Draft {
    /// Returns a certificate of which nothing was read.
    pub fn empty(alloc: Global) -> Draft
        ensures { result ≡ certificate_of [] }
    {
        Draft {
            bound: None,
            lines: Vec::new(alloc),
        }
    }

    pub fn bound(&self) -> Option<Bound>
        ensures { result ≡ self.now.bound }
    {
        self.bound
    }

    pub fn lines(&self) -> &[Line]
        ensures items { result.now ≡ self.now.lines }
        ensures rising { AreRising result.now }
    {
        self.lines.as_slice()
    }

    /// Adds the line of an address after the others.
    pub fn push(&mut self, line: Line) -> Result<(), AllocError>
        requires { is_behind self.old.lines line.address ≡ true }
        ensures ok { OnOk result (self.new ≡ record self.old { lines = self.old.lines ++ line ∷ [] }) }
        ensures err { OnErr result (self.new ≡ self.old) }
    {
        self.lines.push(line)?;
        Ok(())
    }

    // Takes up what a line says.
    fn extend(&mut self, statement: Option<Statement>) -> Result<(), AllocError>
        requires { FollowsIn self.old.lines statement }
        ensures ok { OnOk result (self.new ≡ extended self.old statement) }
        ensures err { OnErr result (self.new ≡ self.old) }
    {
        match statement {
            Some(Statement::Within(bound)) => self.bound = Some(bound),
            Some(Statement::At(line)) => self.push(line)?,
            None => {}
        }
        Ok(())
    }
}

/// Whether an address is above that of the last of some lines.
pub fn is_behind(lines: &[Line], address: u16) -> bool
    ensures { result ≡ is_behind lines.now address }
{
    match lines.last() {
        Some(last) => last.address < address,
        None => true,
    }
}

/// Reads a certificate of at most 1,048,576 bytes: its bound and its lines, or the first fault of its grammar.
pub fn read_certificate(alloc: Global, text: &[u8]) -> Result<Draft, CertFault>
    requires { length text.now ≤ MOST_TEXT }
    ensures read { IfOk result (λ draft. IsRead text.now draft) }
    ensures fault { IfErr result
        (λ fault. (fault ≡ CertFault.NoMemory) ⊎ (read certificate_format text.now ≡ Err fault)) }
{
    let mut draft = Draft::empty(alloc);
    let mut number = 0;
    for line in Lines::new(text) {
        number += 1;
        match next_statement(&draft, line) {
            Ok(statement) => draft.extend(statement)?,
            Err(cause) => return Err(CertFault::Fault {
                line: number,
                cause,
            }),
        }
    }
    Ok(draft)
}

// What a line says behind the lines before it, or the first cause for which it is refused.
fn next_statement(before: &Draft, line: &[u8]) -> Result<Option<Statement>, CertCause>
    ensures value { result ≡ next_of before.now (said line.now) }
    ensures follows { IfOk result (λ statement. FollowsIn before.now.lines statement) }
{
    if !says_something(line) {
        return Ok(None);
    }
    let words = Words::new(line);
    if before.bound().is_none() {
        return Ok(Some(Statement::Within(read_bound(words)?)));
    }
    let line = read_line(words)?;
    if !is_behind(before.lines(), line.address) {
        return Err(CertCause::Order);
    }
    Ok(Some(Statement::At(line)))
}

// Whether a line has a word, and the first is no remark.
#[tactic(auto, unfolding(crate::specs::Certificate::said))]
fn says_something(line: &[u8]) -> bool
    ensures { said line.now ≡ (if result then Some (words line.now) else None) }
{
    match Words::new(line).next() {
        None | Some([b'#', ..]) => false,
        Some(_) => true,
    }
}

/// The number of the line that says a statement, which is counted from 0; lines are counted from 1.
pub fn statement_number(text: &[u8], place: usize) -> u32
    requires { length text.now ≤ MOST_TEXT }
    ensures { result ≡ slice_index (numbers_from 1 (lines text.now)) place }
{
    let mut left = place;
    let mut number = 0;
    for line in Lines::new(text) {
        number += 1;
        if says_something(line) {
            if left == 0 {
                return number;
            }
            left -= 1;
        }
    }
    0
}
