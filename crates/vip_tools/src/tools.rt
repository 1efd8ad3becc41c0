//! The verbs that run no board.

ghost use Rattle.std.specs.Prelude.{◌≤◌, length, IfOk};
ghost use Rattle.asm_listing.specs.Disassembly.{HasPlace};
ghost use Rattle.vip_tools.specs.Files.{most_text};
ghost use Rattle.vip_tools.specs.Judged.{Answers};
ghost use Rattle.vip_tools.specs.Opening.{SourceComes};
ghost use Rattle.vip_tools.specs.Outcome.{BoundsComes, TextComes};
ghost use Rattle.vip_tools.specs.Sources.{AsmComes, DisComes, IsBytes, ListComes};
ghost use Rattle.vip_tools.specs.Work.{CheckAnswers, TextAnswers};

use crate::Refusal;
use asm_core::{AsmFault, Assembly, assemble};
use asm_lex::Isa;
use asm_listing::{CheckText, disassemble, dump, listing, raw, report};
use chip8_lang::Edition;
use std::alloc::{AllocError, Global};
use vip_byte::Buffer;
use vip_text::bounds_text;

/// The assembly of a source in the words of an instruction set.
pub(crate) fn make_assembly<'a>(
    alloc: Global,
    isa: Isa,
    source: &[u8],
) -> Result<Assembly, Refusal<'a>>
    requires { length source.now ≤ most_text }
    ensures { Answers (SourceComes isa source.now) result }
{
    match assemble(alloc, isa, source) {
        Ok(made) => Ok(made),
        Err(AsmFault::Fault { line, cause }) => Err(Refusal::Source { line, cause }),
        Err(AsmFault::NoMemory) => Err(Refusal::NoMemory),
    }
}

/// The bytes of an assembly themselves, or their dump.
fn bytes(alloc: Global, isa: Isa, made: &Assembly, themselves: bool) -> Result<Vec<u8>, AllocError>
    ensures { IfOk result (λ text. IsBytes isa themselves made.now text.items) }
{
    if themselves {
        raw(alloc, isa, made)
    } else {
        dump(alloc, made)
    }
}

/// Assembles a source of at most 1,048,576 bytes: its bytes themselves, or their dump.
pub fn asm<'a>(alloc: Global, isa: Isa, source: &[u8], raw: bool) -> Result<Vec<u8>, Refusal<'a>>
    requires { length source.now ≤ most_text }
    ensures { TextAnswers (AsmComes isa raw source.now) result }
{
    let made = make_assembly(alloc, isa, source)?;
    let text = bytes(alloc, isa, &made, raw)?;
    Ok(text)
}

/// Tells every fault of a source of at most 1,048,576 bytes, by the name of its file.
pub fn check<'a>(
    alloc: Global,
    isa: Isa,
    name: &[u8],
    source: &[u8],
) -> Result<CheckText, Refusal<'a>>
    requires { length source.now ≤ most_text }
    ensures { CheckAnswers isa name.now source.now result }
{
    match report(alloc, isa, name, source) {
        Ok(told) => Ok(told),
        Err(_) => Err(Refusal::NoMemory),
    }
}

/// Assembles a source of at most 1,048,576 bytes: its listing.
pub fn list<'a>(alloc: Global, isa: Isa, source: &[u8]) -> Result<Vec<u8>, Refusal<'a>>
    requires { length source.now ≤ most_text }
    ensures { TextAnswers (ListComes isa source.now) result }
{
    let made = make_assembly(alloc, isa, source)?;
    let text = listing(alloc, isa, &made, source)?;
    Ok(text)
}

/// The disassembly of bytes from an address on, all of which lie at addresses of the instruction set's programs.
pub fn dis<'a>(alloc: Global, isa: Isa, bytes: &[u8], address: u16) -> Result<Vec<u8>, Refusal<'a>>
    requires { HasPlace isa address bytes.now }
    ensures { TextAnswers (DisComes isa address bytes.now) result }
{
    let text = disassemble(alloc, isa, bytes, address)?;
    Ok(text)
}

/// The source of an edition's interpreter.
pub fn source<'a>(alloc: Global, edition: Edition) -> Result<Vec<u8>, Refusal<'a>>
    ensures { TextAnswers (TextComes edition) result }
{
    let text = match edition {
        Edition::Usual => chip8_source::source(alloc)?,
        Edition::Tall => chip8_source::tall_source(alloc)?,
    };
    Ok(text)
}

/// The table of the bounds.
pub fn bounds<'a>(alloc: Global) -> Result<Vec<u8>, Refusal<'a>>
    ensures { TextAnswers BoundsComes result }
{
    let mut table = Buffer::new();
    bounds_text(&mut table);
    let text = Vec::from_slice(alloc, table.as_slice())?;
    Ok(text)
}
