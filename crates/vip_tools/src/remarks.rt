//! The remarks that name labels in the text of a certificate.

ghost use Rattle.std.specs.Prelude.{◌≡◌, ◌++◌, IfOk, OnOk};
ghost use Rattle.vip_tools.specs.Remarks.{address_in, named, remarked_line, remarks_at, with_remarks};

use asm_core::Origins;
use std::alloc::{AllocError, Global};
use vip_byte::{Lines, Words, read_hex};

/// The address with which a line begins, where its first word is four hexadecimal digits.
fn address_of(line: &[u8]) -> Option<u16>
    ensures { result ≡ address_in line.now }
{
    let word = Words::new(line).next()?;
    if word.len() != 4 {
        return None;
    }
    match read_hex(word, 0xFFFF) {
        Ok(address) => Some(address as u16),
        Err(_) => None,
    }
}

/// The address that is named before a line: its own, where the line before it has another one.
fn named(before: &[u8], line: &[u8]) -> Option<u16>
    ensures { result ≡ named (address_in before.now) (address_in line.now) }
{
    let address = address_of(line)?;
    match address_of(before) {
        Some(last) if last == address => None,
        _ => Some(address),
    }
}

/// Appends a remark for each label that stands at the byte of an address.
fn append_remarks(text: &mut Vec<u8>, origins: &Origins, address: u16) -> Result<(), AllocError>
    ensures { OnOk result (text.new.items ≡ text.old.items ++ remarks_at origins.now address) }
{
    for label in origins.labels_over(address) {
        text.extend_from_slice(b"# ")?;
        text.extend_from_slice(label)?;
    }
    Ok(())
}

/// Appends a line behind another one, with its remarks before it.
#[tactic(auto, unfolding(crate::specs::Remarks::remarked_line))]
fn append_line(
    text: &mut Vec<u8>,
    origins: &Origins,
    before: &[u8],
    line: &[u8],
) -> Result<(), AllocError>
    ensures { OnOk result (text.new.items ≡ text.old.items ++ remarked_line origins.now before.now line.now) }
{
    if let Some(address) = named(before, line) {
        append_remarks(text, origins, address)?;
    }
    text.extend_from_slice(line)?;
    text.extend_from_slice(b"\n")
}

/// A text with the remarks of its labels: before the first of the lines that begin with an address, one for each label at it.
pub(crate) fn with_remarks(
    alloc: Global,
    origins: &Origins,
    text: &[u8],
) -> Result<Vec<u8>, AllocError>
    ensures { IfOk result (λ all. all.items ≡ with_remarks origins.now text.now) }
{
    let mut all = Vec::new(alloc);
    let mut before: &[u8] = b"";
    for line in Lines::new(text) {
        append_line(&mut all, origins, before, line)?;
        before = line;
    }
    Ok(all)
}
