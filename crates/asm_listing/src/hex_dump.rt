//! The dump of an assembly.

ghost use Rattle.std.specs.Prelude.{◌≡◌, ◌≤◌, ◌+◌, ◌-◌, ◌<◌, ◌++◌, ◌∷◌, ℕ, List, [], length, flat_map, IfOk, OnOk};
ghost use Rattle.vip_byte.specs.HexText.{hex2, hex4};
ghost use Rattle.asm_listing.specs.Dump.{Place, dump_of, dump_text};
ghost use Rattle.asm_listing.specs.Row.{bytes_text, row_before, row_text};

use crate::write::append;
use arrayvec::ArrayVec;
use asm_core::Assembly;
use std::alloc::{AllocError, Global};
use vip_byte::{hex2, hex4};

/// Bytes at one address after another, which are to stand on one line.
type Row = ArrayVec<u8, 16>;

// Appends each byte in two digits, behind a blank.
fn append_bytes(text: &mut Vec<u8>, bytes: &[u8]) -> Result<(), AllocError>
    ensures { OnOk result (text.new.items ≡ text.old.items ++ bytes_text bytes.now) }
{
    for byte in bytes {
        append(text, b" ")?;
        append(text, &hex2(*byte))?;
    }
    Ok(())
}

// Appends the line of a row that ends before the address `behind`, unless the row is empty.
fn append_row(text: &mut Vec<u8>, row: &[u8], behind: u32) -> Result<(), AllocError>
    requires few { length row.now ≤ behind }
    requires low { behind ≤ 65536 }
    ensures { OnOk result (text.new.items ≡ text.old.items ++ row_text behind row.now) }
{
    if row.is_empty() {
        return Ok(());
    }
    append(text, &hex4((behind as usize - row.len()) as u16))?;
    append_bytes(text, row)?;
    append(text, b"\n")
}

// Ends a row that has no room for the byte at the address `behind`.
fn make_room(text: &mut Vec<u8>, row: &mut Row, behind: u32) -> Result<(), AllocError>
    requires few { length row.old.items ≤ behind }
    requires low { behind ≤ 65536 }
    ensures room { OnOk result (length row.new.items < 16) }
    ensures few { OnOk result (length row.new.items ≤ behind) }
    ensures text { OnOk result ((rest : List Place) → text.new.items ++ dump_of (row_before behind row.new.items ++ rest) ≡ text.old.items ++ dump_of (row_before behind row.old.items ++ rest)) }
{
    if row.is_full() {
        append_row(text, row.as_slice(), behind)?;
        row.clear();
    }
    Ok(())
}

/// The dump of an assembly: the addresses that have a byte in rising order, each unbroken run of them in lines of at most 16 bytes. A
/// line has the address of its first byte in four digits and then each byte in two, behind a blank. Answers an error where memory is
/// refused.
pub fn dump(alloc: Global, made: &Assembly) -> Result<Vec<u8>, AllocError>
    ensures { IfOk result (λ text. text.items ≡ dump_text made.now) }
{
    let mut text = Vec::new(alloc);
    let mut row = Row::new();
    for address in 0..65_536u32 {
        match made.byte(address as u16) {
            Some(byte) => {
                make_room(&mut text, &mut row, address)?;
                row.push(byte);
            }
            None => {
                append_row(&mut text, row.as_slice(), address)?;
                row.clear();
            }
        }
    }
    append_row(&mut text, row.as_slice(), 65_536)?;
    Ok(text)
}
