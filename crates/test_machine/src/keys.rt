//! Key scripts of a text.

use std::alloc::Global;
use vip_keypad::{Script, ScriptCause, ScriptFault, read_script};

/// The most bytes of a key script.
const MOST_SCRIPT: usize = 1_024;

/// The key script of a text.
pub fn script_of(alloc: Global, text: &str) -> Result<Script, ScriptFault> {
    if text.len() > MOST_SCRIPT {
        return Err(ScriptFault::Fault {
            line: 1,
            cause: ScriptCause::TooMany,
        });
    }
    read_script(alloc, text.as_bytes())
}
