//! The listing of a source.

ghost use Rattle.std.specs.Prelude.{◌≡◌, ◌≤◌, ◌<◌, ◌+◌, ◌-◌, ◌*◌, ◌/◌, ◌%◌, ◌++◌, [], length, flat_map, OnOk, IfOk, decimal};
ghost use Rattle.std.specs.List.{range_with_len};
ghost use Rattle.std.specs.List.Sorted.{IsStrictlySortedBy};
ghost use Rattle.std.specs.Map.{keys_of};
ghost use Rattle.std.specs.Ordering.{nat_cmp};
ghost use Rattle.std.specs.Cmp.Lexicographic.{slice_cmp};
ghost use Rattle.asm_core.specs.Made.{IsAssembly, line_place};
ghost use Rattle.asm_core.specs.Sources.{source_lines};
ghost use Rattle.asm_listing.specs.Listing.{blanks, digits_of, first_digits, further_line, further_lines, line_listing, number_text, value_text, label_text, symbol_line, symbols_text, IsListing};
ghost use Rattle.asm_listing.specs.Raw.{bytes_from};
ghost use Rattle.asm_listing.specs.Shown.{byte_at, byte_count};

use crate::write::append;
use asm_core::{Assembly, LabelValue, LinePlace, next_line};
use asm_lex::{Isa, SymbolIter, SymbolValue};
use itoa::Buffer as Digits;
use std::alloc::{AllocError, Global};
use vip_byte::{hex2, hex4};

/// How many bytes one line shows at most.
const BYTES_IN_LINE: u32 = 3;

fn append_blanks(list: &mut Vec<u8>, count: usize) -> Result<(), AllocError>
    requires { count ≤ 6 }
    ensures { OnOk result (list.new.items ≡ list.old.items ++ blanks count) }
{
    append(list, &b"      "[..count])
}

// The number of a line, right in 5 places.
fn append_number(list: &mut Vec<u8>, number: usize) -> Result<(), AllocError>
    ensures { OnOk result (list.new.items ≡ list.old.items ++ number_text number) }
{
    let mut digits = Digits::new();
    let text = digits.format(number).as_bytes();
    append_blanks(list, 5usize.saturating_sub(text.len()))?;
    append(list, text)
}

fn byte_at(made: &Assembly, address: u16) -> u8
    ensures { result ≡ byte_at made.now address }
{
    made.byte(address).unwrap_or(0)
}

// The digits of the bytes at an address and behind it.
fn append_digits(
    list: &mut Vec<u8>,
    made: &Assembly,
    from: u32,
    count: u32,
) -> Result<(), AllocError>
    requires { from + count ≤ 65536 }
    ensures { OnOk result (list.new.items ≡ list.old.items ++ digits_of (bytes_from made.now from count)) }
{
    for address in from..from + count {
        append(list, &hex2(byte_at(made, address as u16)))?;
    }
    Ok(())
}

// The first bytes of a line.
fn append_first(list: &mut Vec<u8>, made: &Assembly, at: u32, count: u32) -> Result<(), AllocError>
    requires { at + count ≤ 65536 }
    ensures { OnOk result (list.new.items ≡ list.old.items ++ first_digits (bytes_from made.now at count)) }
{
    let shown = BYTES_IN_LINE.min(count);
    append_digits(list, made, at, shown)?;
    append_blanks(list, 6 - 2 * shown as usize)
}

// A line of its own for further bytes.
fn append_further_line(
    list: &mut Vec<u8>,
    made: &Assembly,
    at: u32,
    count: u32,
    row: u32,
) -> Result<(), AllocError>
    requires fits { at + count ≤ 65536 }
    requires some { 3 * row < count }
    ensures { OnOk result (list.new.items ≡ list.old.items ++ further_line at (bytes_from made.now at count) row) }
{
    let from = at + BYTES_IN_LINE * row;
    append_blanks(list, 6)?;
    append(list, &hex4(from as u16))?;
    append(list, b" ")?;
    append_digits(list, made, from, BYTES_IN_LINE.min(at + count - from))?;
    append(list, b"\n")
}

// The bytes of a line behind the first ones.
fn append_further(
    list: &mut Vec<u8>,
    made: &Assembly,
    at: u32,
    count: u32,
) -> Result<(), AllocError>
    requires { at + count ≤ 65536 }
    ensures { OnOk result (list.new.items ≡ list.old.items ++ further_lines at (bytes_from made.now at count)) }
{
    for row in 1..count.div_ceil(BYTES_IN_LINE) {
        append_further_line(list, made, at, count, row)?;
    }
    Ok(())
}

fn append_value(list: &mut Vec<u8>, value: SymbolValue) -> Result<(), AllocError>
    ensures { OnOk result (list.new.items ≡ list.old.items ++ value_text value) }
{
    match value {
        SymbolValue::Number(number) => append(list, &hex4(number)),
        SymbolValue::Register(register) => append(list, &[b'V', hex2(register)[1]]),
    }
}

// A value in four places.
fn append_label(list: &mut Vec<u8>, value: LabelValue) -> Result<(), AllocError>
    ensures { OnOk result (list.new.items ≡ list.old.items ++ label_text value) }
{
    match value {
        LabelValue::Address(address) => append(list, &hex4((address % 65_536) as u16)),
        LabelValue::Given(SymbolValue::Number(number)) => append(list, &hex4(number)),
        LabelValue::Given(value) => {
            append_value(list, value)?;
            append_blanks(list, 2)
        }
    }
}

// A line of the source with its number and the place at which it stands.
fn append_line(
    list: &mut Vec<u8>,
    made: &Assembly,
    number: usize,
    place: &LinePlace,
    line: &[u8],
) -> Result<(), AllocError>
    requires { place.now.at + byte_count place.now ≤ 65536 }
    ensures { OnOk result (list.new.items ≡ list.old.items
        ++ line_listing number place.now.value place.now.at (bytes_from made.now place.now.at (byte_count place.now)) line.now) }
{
    let count = place.byte_count();
    append_number(list, number)?;
    append(list, b" ")?;
    append_label(list, place.value)?;
    append(list, b" ")?;
    append_first(list, made, place.at, count)?;
    append(list, b" ")?;
    append(list, line)?;
    append(list, b"\n")?;
    append_further(list, made, place.at, count)
}

fn append_symbol(list: &mut Vec<u8>, name: &[u8], value: SymbolValue) -> Result<(), AllocError>
    ensures { OnOk result (list.new.items ≡ list.old.items ++ symbol_line (name.now, value)) }
{
    append(list, name)?;
    append(list, b" ")?;
    append_value(list, value)?;
    append(list, b"\n")
}

fn append_all(list: &mut Vec<u8>, symbols: &mut SymbolIter<'_>) -> Result<(), AllocError>
    ensures { OnOk result (list.new.items ≡ list.old.items ++ flat_map symbol_line symbols.old) }
{
    while let Some((name, value)) = symbols.next() {
        append_symbol(list, name, value)?;
    }
    Ok(())
}

// The names behind an empty line, where there are any.
fn append_symbols(list: &mut Vec<u8>, made: &Assembly) -> Result<(), AllocError>
    ensures text { OnOk result (list.new.items ≡ list.old.items ++ symbols_text made.now.names) }
    ensures in_order { IsStrictlySortedBy (slice_cmp nat_cmp) (keys_of made.now.names) }
{
    let mut symbols = made.symbols();
    match symbols.next() {
        Some((name, value)) => {
            append(list, b"\n")?;
            append_symbol(list, name, value)?;
            append_all(list, &mut symbols)
        }
        None => Ok(()),
    }
}

/// The listing of the text from which an assembly of an instruction set was made: each line with its number, its address and its bytes, and then the names
/// with their values, in the order of their bytes. Answers an error where memory is refused.
pub fn listing(alloc: Global, isa: Isa, made: &Assembly, text: &[u8]) -> Result<Vec<u8>, AllocError>
    requires { IsAssembly isa (source_lines text.now) made.now }
    ensures { IfOk result (λ list. IsListing isa (source_lines text.now) list.items) }
{
    let mut list = Vec::new(alloc);
    let mut index = 0;
    let mut rest = text;
    while let Some((line, more)) = next_line(rest) {
        let place = made.line_place(index);
        append_line(&mut list, made, index + 1, &place, line)?;
        index += 1;
        rest = more;
    }
    append_symbols(&mut list, made)?;
    Ok(list)
}
