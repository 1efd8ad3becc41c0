//! Appending to a text that grows.

ghost use Rattle.std.specs.Prelude.{◌≡◌, ◌++◌, flat_map, OnOk, IfOk};

use std::alloc::{AllocError, Global};

/// Appends these bytes.
pub(crate) fn append(text: &mut Vec<u8>, bytes: &[u8]) -> Result<(), AllocError>
    ensures { OnOk result (text.new.items ≡ text.old.items ++ bytes.now) }
{
    text.extend_from_slice(bytes)
}

/// Two texts as one.
pub(crate) fn join(alloc: Global, first: &[u8], second: &[u8]) -> Result<Vec<u8>, AllocError>
    ensures { IfOk result (λ text. text.items ≡ first.now ++ second.now) }
{
    let mut text = Vec::from_slice(alloc, first)?;
    append(&mut text, second)?;
    Ok(text)
}

/// Appends several texts, one after another.
pub(crate) fn append_each(text: &mut Vec<u8>, parts: &[&[u8]]) -> Result<(), AllocError>
    ensures { OnOk result (text.new.items ≡ text.old.items ++ flat_map (λ part. part.now) parts.now) }
{
    for part in parts {
        append(text, part)?;
    }
    Ok(())
}
