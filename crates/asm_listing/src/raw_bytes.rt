//! The bytes of an assembly, one behind another.

ghost use Rattle.std.specs.Prelude.{◌≡◌, ◌<◌, ◌≤◌, Some, IfOk, IfSome};
ghost use Rattle.asm_listing.specs.Raw.{IsRaw, IsSpan, first_shown};
ghost use Rattle.std.specs.Option.{option_map_or};

use asm_core::Assembly;
use asm_lex::Isa;
use std::alloc::{AllocError, Global};

// The lowest address is the first one met, and the highest the last.
fn widen(span: Option<(u32, u32)>, address: u32) -> (u32, u32)
    ensures { result ≡ (option_map_or (λ span. span.0) span address, address) }
{
    match span {
        None => (address, address),
        Some((low, _)) => (low, address),
    }
}

// The lowest and the highest address that has a byte.
fn span(made: &Assembly) -> Option<(u32, u32)>
    ensures { IsSpan made.now 65536 result }
{
    let mut span = None;
    for address in 0..65_536u32 {
        if made.byte(address as u16).is_some() {
            span = Some(widen(span, address));
        }
    }
    span
}

fn first_shown(isa: Isa, low: u32) -> u32
    ensures { result ≡ first_shown isa low }
{
    match isa {
        Isa::Cdp1802 => low,
        Isa::Chip8 => 0x0200,
    }
}

/// The bytes of an assembly, from the lowest address that has one, or from CHIP-8's first address, to the highest that has one, with 00 at
/// those between that have none; nothing, where no address has a byte. Answers an error where memory is refused.
#[tactic(auto, unfolding(crate::specs::Raw::bytes_from))]
pub fn raw(alloc: Global, isa: Isa, made: &Assembly) -> Result<Vec<u8>, AllocError>
    ensures { IfOk result (λ bytes. IsRaw isa made.now bytes.items) }
{
    let mut bytes = Vec::new(alloc);
    let Some((low, high)) = span(made) else {
        return Ok(bytes);
    };
    for address in first_shown(isa, low)..high + 1 {
        bytes.push(made.byte(address as u16).unwrap_or(0x00))?;
    }
    Ok(bytes)
}
