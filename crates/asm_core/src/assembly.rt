//! What a source is assembled to.

ghost use Rattle.std.specs.Prelude.{◌≡◌};
ghost use Rattle.asm_lex.specs.Names.{value_in, number_named};
ghost use Rattle.asm_core.specs.Layout.{count_between};

use crate::layout::LabelValue;
use crate::table::Cell;
use asm_lex::{SymbolIter, Symbols};
use std::marker::Model;

/// The bytes of a source at their addresses, each with its line, and the names with their values.
#[derive(Drop)]
pub struct Assembly {
    cells: Vec<Option<Cell>>,
    names: Symbols,
    addresses: Vec<u32>,
    values: Vec<LabelValue>,
}

/// Where a line of a source stands.
#[derive(Clone, Copy)]
pub struct LinePlace {
    /// The value that a label of the line has or would have.
    pub value: LabelValue,
    /// The address at which the line begins, at most 65,536.
    pub at: u32,
    /// The address behind the line, at most 65,536.
    pub next: u32,
}

impl LinePlace {
    /// How many bytes the line has: those up to the next address, unless it moves the address or gives its label another value.
    pub fn byte_count(&self) -> u32
        ensures { result ≡ count_between self.now.value self.now.at self.now.next }
    {
        match self.value {
            LabelValue::Address(address) if address == self.at => self.next.saturating_sub(self.at),
            _ => 0,
        }
    }
}

impl Model for Assembly {
    ghost use Rattle.std.specs.Prelude.{◌≡◌, ◌+◌, length};
    ghost use Rattle.asm_core.specs.Made.{Made, made_code};

    ghost Value = { Made };

    ghost coded = { made_code };

    ghost view = { λ made. record { cells = made.cells.items; names = made.names; addresses = made.addresses.items; values = made.values.items } };

    ghost invariant = { λ made. (length made.cells.items ≡ 65536) × (length made.addresses.items ≡ length made.values.items + 1) };
}

impl Assembly {
    ghost use Rattle.std.specs.Prelude.{◌≡◌, ◌+◌, ◌<◌, option_map, length};
    ghost use Rattle.std.specs.List.Sorted.{IsStrictlySortedBy};
    ghost use Rattle.std.specs.Map.{keys_of};
    ghost use Rattle.std.specs.Ordering.{nat_cmp};
    ghost use Rattle.std.specs.Cmp.Lexicographic.{slice_cmp};
    ghost use Rattle.asm_core.specs.Made.{cell_at, line_place};

    pub(crate) fn new(
        cells: Vec<Option<Cell>>,
        names: Symbols,
        addresses: Vec<u32>,
        values: Vec<LabelValue>,
    ) -> Self
        requires cells { length cells.items ≡ 65536 }
        requires lines { length addresses.items ≡ length values.items + 1 }
        ensures { result ≡ record { cells = cells.items; names = names; addresses = addresses.items; values = values.items } }
    {
        Assembly {
            cells,
            names,
            addresses,
            values,
        }
    }

    /// The byte at an address; none exactly where no line gives it one.
    pub fn byte(&self, address: u16) -> Option<u8>
        ensures { result ≡ option_map (λ cell. cell.byte) (cell_at self.now address) }
    {
        match self.cells[usize::from(address)] {
            Some(cell) => Some(cell.byte),
            None => None,
        }
    }

    /// The number of the line, counted from 1, that gives an address its byte; none exactly where no line gives it one.
    pub fn line_of(&self, address: u16) -> Option<u32>
        ensures { result ≡ option_map (λ cell. cell.line) (cell_at self.now address) }
    {
        match self.cells[usize::from(address)] {
            Some(cell) => Some(cell.line),
            None => None,
        }
    }

    /// The number that a name stands for; none exactly where no line gives it one.
    pub fn symbol(&self, name: &str) -> Option<u16>
        ensures { result ≡ number_named (value_in self.now.names) name.now }
    {
        self.names.number(name.as_bytes())
    }

    /// The names with their values, and the byte of each address with its line.
    pub(crate) fn into_parts(self) -> (Symbols, Vec<Option<Cell>>)
        ensures names { result.0 ≡ self.names }
        ensures cells { result.1.items ≡ self.cells }
        ensures count { length result.1.items ≡ 65536 }
    {
        let Assembly {
            cells,
            names,
            addresses: _,
            values: _,
        } = self;
        (names, cells)
    }

    /// The names with their values, to look one up.
    pub fn names(&self) -> &Symbols
        ensures { result.now ≡ self.now.names }
    {
        &self.names
    }

    /// How many lines the source has.
    pub fn line_count(&self) -> usize
        ensures { result ≡ length self.now.values }
    {
        self.values.len()
    }

    /// Where a line stands, by its place among the lines, counted from 0.
    pub fn line_place(&self, index: usize) -> LinePlace
        requires { index < length self.now.values }
        ensures { result ≡ line_place self.now index }
    {
        LinePlace {
            value: self.values[index],
            at: self.addresses[index],
            next: self.addresses[index + 1],
        }
    }

    /// The names with their values, in the order of their bytes.
    pub fn symbols(&self) -> SymbolIter<'_>
        ensures names { result ≡ self.now.names }
        ensures ordered { IsStrictlySortedBy (slice_cmp nat_cmp) (keys_of self.now.names) }
    {
        self.names.iter()
    }
}
