//! The labels of a source, found by their addresses.

ghost use Rattle.std.specs.Prelude.{◌≡◌, ◌≤◌, ◌<◌, ◌+◌, ◌++◌, ◌∷◌, [], ℕ, Some, None, length, map, drop, get_or, IfOk, OnOk, MatchOption, OnSome};
ghost use Rattle.asm_lex.specs.declared.shape.Isa.{Isa};
ghost use Rattle.asm_core.specs.Made.{IsAssembly};
ghost use Rattle.asm_core.specs.Sources.{source_lines};
ghost use Rattle.asm_core.specs.Labels.{AreFound, Leads, label_below, label_line, label_lines, labels_at, labels_of, mark_of, shown_label, shown_labels};

use crate::assembly::Assembly;
use crate::layout::LabelValue;
use crate::source::next_line;
use std::alloc::{AllocError, Global};
use std::marker::Model;

/// How many addresses there are.
const ADDRESSES: usize = 65_536;

/// A label: its address, and the line that shows it.
#[derive(Drop)]
pub(crate) struct Label {
    pub address: u32,
    pub line: Vec<u8>,
}

/// The labels of a source, each with an address and the line that shows it, in order of lines.
#[derive(Drop)]
pub struct Labels {
    list: Vec<Label>,
    // the place of the first label of each address; empty where there are no labels
    first: Vec<usize>,
    // behind each label the place of the next one of its address
    next: Vec<usize>,
}

impl Model for Labels {
    ghost use Rattle.std.specs.Prelude.{ℕ, List};
    ghost use Rattle.asm_core.specs.Labels.{AreFound, shown_labels};

    ghost Value = { List (ℕ × List ℕ) };

    ghost view = { λ labels. shown_labels labels.list.items };

    ghost invariant = { λ labels. AreFound (shown_labels labels.list.items) labels.first.items labels.next.items };
}

impl Labels {
    /// No labels. It takes no memory.
    pub fn none(alloc: Global) -> Labels
        ensures { result ≡ [] }
    {
        Labels {
            list: Vec::new(alloc),
            first: Vec::new(alloc),
            next: Vec::new(alloc),
        }
    }

    /// The labels of a source that was assembled to this, EQU's aside.
    pub fn of(alloc: Global, text: &[u8], made: &Assembly) -> Result<Labels, AllocError>
        requires { (isa : Isa) × IsAssembly isa (source_lines text.now) made.now }
        ensures { (isa : Isa) → IsAssembly isa (source_lines text.now) made.now → IfOk result (λ labels. labels ≡ labels_of isa (source_lines text.now)) }
    {
        let mut list = Vec::new(alloc);
        let mut index = 0;
        let mut rest = text;
        while let Some((line, more)) = next_line(rest) {
            if let Some(label) = mark(alloc, line, made.line_place(index).value)? {
                list.push(label)?;
            }
            index += 1;
            rest = more;
        }
        Labels::new(alloc, list)
    }

    // Those of a list, each of which is then found by its address.
    fn new(alloc: Global, list: Vec<Label>) -> Result<Labels, AllocError>
        ensures { IfOk result (λ labels. labels ≡ shown_labels list.items) }
    {
        let count = list.len();
        let mut first = places(alloc, ADDRESSES, count)?;
        let mut next = places(alloc, count, count)?;
        link(list.as_slice(), &mut first, &mut next);
        Ok(Labels { list, first, next })
    }

    /// The lines that show the labels of an address, in order.
    pub fn lines_at(&self, address: u16) -> LinesAt<'_>
        ensures { result ≡ label_lines self.now address }
    {
        LinesAt {
            labels: self,
            address,
            place: self.first_at(address),
        }
    }

    /// None of them.
    pub(crate) fn no_lines(&self) -> LinesAt<'_>
        ensures { result ≡ [] }
    {
        LinesAt {
            labels: self,
            address: 0,
            place: self.list.len(),
        }
    }

    /// The greatest address of a label at or below an address.
    pub fn below(&self, address: u16) -> Option<u16>
        ensures { result ≡ label_below self.now address }
    {
        if self.list.is_empty() {
            return None;
        }
        for below in (0..usize::from(address) + 1).rev() {
            if self.first_at(below as u16) < self.list.len() {
                return Some(below as u16);
            }
        }
        None
    }

    // The place of the first label of an address.
    fn first_at(&self, address: u16) -> usize
        ensures { Leads self.now 0 result address }
    {
        match self.first.get(usize::from(address)) {
            Some(place) => *place,
            None => 0,
        }
    }

    // The line that shows the label at a place, and the place of the next one of its address.
    fn get(&self, place: usize) -> Option<(&[u8], usize)>
        ensures { MatchOption result (length self.now ≤ place) (λ found. (place < length self.now)
            × (found.0.now ≡ (get_or self.now place (0, [])).1)
            × ((get_or self.now place (0, [])).0 < 65536 → Leads self.now (place + 1) found.1 (get_or self.now place (0, [])).0)) }
    {
        match self.list.get(place) {
            Some(label) => Some((label.line.as_slice(), self.next[place])),
            None => None,
        }
    }
}

/// Goes over the lines that show the labels of an address, in order.
#[derive(Drop)]
pub struct LinesAt<'a> {
    labels: &'a Labels,
    address: u16,
    place: usize,
}

impl<'a> Model for LinesAt<'a> {
    ghost use Rattle.std.specs.Prelude.{◌≡◌, ◌<◌, ℕ, List, [], drop, get_or, length};
    ghost use Rattle.asm_core.specs.Labels.{label_lines};

    ghost Value = { List (List ℕ) };

    ghost view = { λ left. label_lines (drop left.place left.labels.now) left.address };

    ghost invariant = { λ left. left.place < length left.labels.now → (get_or left.labels.now left.place (0, [])).0 ≡ left.address };
}

impl<'a> Iterator for LinesAt<'a> {
    ghost use Rattle.std.specs.Iterator.{YieldsFirstRef, item_count};

    type Item = &'a [u8];

    ghost next_gives = { YieldsFirstRef (λ left. left) };

    ghost remaining = { item_count (λ left. left) };

    fn next(&mut self) -> Option<&'a [u8]> {
        let (line, next) = self.labels.get(self.place)?;
        self.place = next;
        Some(line)
    }
}

// The line that shows a label.
fn show_name(alloc: Global, name: &[u8]) -> Result<Vec<u8>, AllocError>
    ensures { IfOk result (λ line. line.items ≡ label_line name.now) }
{
    let mut line = Vec::from_slice(alloc, name)?;
    line.extend_from_slice(b":\n")?;
    Ok(line)
}

// The label of a line, if it has one and its value is an address.
fn mark(alloc: Global, line: &[u8], value: LabelValue) -> Result<Option<Label>, AllocError>
    requires { length line.now ≤ 255 }
    ensures { IfOk result (λ label. MatchOption label (mark_of line.now value ≡ None) (λ label. mark_of line.now value ≡ Some (shown_label label))) }
{
    let Some(name) = asm_lex::label(line) else {
        return Ok(None);
    };
    match value {
        LabelValue::Address(address) => {
            let line = show_name(alloc, name)?;
            Ok(Some(Label { address, line }))
        }
        LabelValue::Given(_) => Ok(None),
    }
}

// So many places, each of which is this.
fn places(alloc: Global, count: usize, place: usize) -> Result<Vec<usize>, AllocError>
    ensures count { IfOk result (λ places. length places.items ≡ count) }
    ensures all { IfOk result (λ places. (i : ℕ) → i < count → get_or places.items i 0 ≡ place) }
{
    vec![in alloc; place; count]
}

// Finds the first label of each address, and behind each label the next one of its address, from the last label back.
fn link(list: &[Label], first: &mut [usize], next: &mut [usize])
    requires first { length first.old ≡ 65536 }
    requires none { (address : ℕ) → address < 65536 → get_or first.old address 0 ≡ length list.now }
    requires next { length next.old ≡ length list.now }
    ensures first { length first.new ≡ 65536 }
    ensures found { AreFound (shown_labels list.now) first.new next.new }
{
    for place in (0..list.len()).rev() {
        let address = list[place].address as usize;
        if address < ADDRESSES {
            next[place] = first[address];
            first[address] = place;
        }
    }
}
