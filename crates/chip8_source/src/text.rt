//! The texts, put together.

ghost use Rattle.std.specs.Prelude.{◌≡◌, ◌≤◌, ◌∷◌, IfOk, vec_len};
ghost use Rattle.std.specs.List.{concat};
ghost use Rattle.chip8_source.specs.Texts.{shared_parts, usual_text, tall_text};

use crate::{arith, fetch, font, head, keys, memory, names, sprite, timer};
use std::alloc::{AllocError, Global};

/// A head and the texts that both editions share, joined.
fn join(alloc: Global, head: &str) -> Result<Vec<u8>, AllocError>
    ensures { IfOk result (λ text. text.items ≡ concat (head.now ∷ shared_parts)) }
{
    let parts = [
        head,
        names::TEXT,
        fetch::TEXT,
        arith::TEXT,
        memory::TEXT,
        sprite::TEXT,
        timer::TEXT,
        keys::TEXT,
        font::TEXT,
    ];
    Ok(parts.concat(alloc)?.into_bytes())
}

/// The interpreter's text for the usual edition, at most 1,048,576 bytes.
#[tactic(auto, unfolding(crate::specs::Texts::usual_text))]
pub fn source(alloc: Global) -> Result<Vec<u8>, AllocError>
    ensures text { IfOk result (λ text. text.items ≡ usual_text) }
    ensures size { IfOk result (λ text. vec_len text ≤ 1048576) }
{
    join(alloc, head::USUAL)
}

/// The interpreter's text for the tall edition, at most 1,048,576 bytes.
#[tactic(auto, unfolding(crate::specs::Texts::tall_text))]
pub fn tall_source(alloc: Global) -> Result<Vec<u8>, AllocError>
    ensures text { IfOk result (λ text. text.items ≡ tall_text) }
    ensures size { IfOk result (λ text. vec_len text ≤ 1048576) }
{
    join(alloc, head::TALL)
}
