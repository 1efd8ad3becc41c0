//! The table of the bytes at all addresses.

ghost use Rattle.std.specs.Prelude.{◌≡◌, ◌≤◌, ◌<◌, ◌+◌, ℕ, List, length, slice_index_or, Option, None, Some, IfOk, MatchBool, replicate, slice_set, true, false, is_some};
ghost use Rattle.std.specs.Option.{option_or};
ghost use Rattle.asm_core.specs.Bytes.{bytes_in};
ghost use Rattle.asm_core.specs.Sources.{cell_in, overlaps};

use crate::encode::Bytes;
use std::alloc::{AllocError, Global};

/// How many addresses there are.
const ADDRESSES: usize = 65_536;

/// A byte, and the number of the line that gave it, counted from 1.
#[derive(Clone, Copy)]
pub struct Cell {
    /// The byte.
    pub byte: u8,
    /// The number of the line.
    pub line: u32,
}

/// Puts the bytes of a line into the table, unless some address has a byte already.
pub(crate) fn place(cells: &mut Vec<Option<Cell>>, line: u32, at: u32, bytes: &Bytes) -> bool
    requires { at + length (bytes_in bytes.now) ≤ length cells.old.items }
    ensures count { length cells.new.items ≡ length cells.old.items }
    ensures placed { MatchBool result
        ((overlaps (λ address. slice_index_or cells.old.items address None) at (length (bytes_in bytes.now)) ≡ false)
        × ((address : ℕ) → slice_index_or cells.new.items address None ≡ option_or (slice_index_or cells.old.items address None) (cell_in line at (bytes_in bytes.now) address)))
        (overlaps (λ address. slice_index_or cells.old.items address None) at (length (bytes_in bytes.now)) ≡ true) }
{
    match bytes {
        Bytes::Given(bytes) => place_bytes(cells, line, at, bytes.as_slice()),
        Bytes::Zeros(count) => place_zeros(cells, line, at, *count),
    }
}

fn place_byte(cells: &mut Vec<Option<Cell>>, address: usize, cell: Cell) -> bool
    requires { address < length cells.old.items }
    ensures count { length cells.new.items ≡ length cells.old.items }
    ensures placed { MatchBool result
        ((slice_index_or cells.old.items address None ≡ None) × (cells.new.items ≡ slice_set cells.old.items address (Some cell)))
        ((is_some (slice_index_or cells.old.items address None) ≡ true) × (cells.new.items ≡ cells.old.items)) }
{
    if cells[address].is_some() {
        return false;
    }
    cells[address] = Some(cell);
    true
}

fn place_bytes(cells: &mut Vec<Option<Cell>>, line: u32, at: u32, bytes: &[u8]) -> bool
    requires { at + length bytes.now ≤ length cells.old.items }
    ensures count { length cells.new.items ≡ length cells.old.items }
    ensures placed { MatchBool result
        ((overlaps (λ address. slice_index_or cells.old.items address None) at (length bytes.now) ≡ false)
        × ((address : ℕ) → slice_index_or cells.new.items address None ≡ option_or (slice_index_or cells.old.items address None) (cell_in line at bytes.now address)))
        (overlaps (λ address. slice_index_or cells.old.items address None) at (length bytes.now) ≡ true) }
{
    for (offset, byte) in bytes.iter().enumerate() {
        if !place_byte(cells, at as usize + offset, Cell { byte: *byte, line }) {
            return false;
        }
    }
    true
}

fn place_zeros(cells: &mut Vec<Option<Cell>>, line: u32, at: u32, count: u32) -> bool
    requires { at + count ≤ length cells.old.items }
    ensures count { length cells.new.items ≡ length cells.old.items }
    ensures placed { MatchBool result
        ((overlaps (λ address. slice_index_or cells.old.items address None) at (length {A = ℕ} (replicate count 0)) ≡ false)
        × ((address : ℕ) → slice_index_or cells.new.items address None ≡ option_or (slice_index_or cells.old.items address None) (cell_in line at (replicate count 0) address)))
        (overlaps (λ address. slice_index_or cells.old.items address None) at (length {A = ℕ} (replicate count 0)) ≡ true) }
{
    for offset in 0..count {
        if !place_byte(cells, at as usize + offset as usize, Cell { byte: 0, line }) {
            return false;
        }
    }
    true
}

/// Whether a byte stands at one of so many addresses.
pub(crate) fn overlaps(cells: &[Option<Cell>], at: u32, count: u32) -> bool
    requires { at + count ≤ length cells.now }
    ensures { result ≡ overlaps (λ address. slice_index_or cells.now address None) at count }
{
    for offset in 0..count {
        if cells[at as usize + offset as usize].is_some() {
            return true;
        }
    }
    false
}

/// A table without bytes.
pub(crate) fn empty_table(alloc: Global) -> Result<Vec<Option<Cell>>, AllocError>
    ensures count { IfOk result (λ cells. length cells.items ≡ 65536) }
    ensures empty { IfOk result (λ cells. (address : ℕ) → slice_index_or cells.items address None ≡ None) }
{
    vec![in alloc; None; ADDRESSES]
}
