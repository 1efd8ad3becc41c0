//! The hexadecimal keypad of the COSMAC VIP, played from a key script in place of a player's hands.
//!
//! A key script is a text whose lines say at which machine cycles keys go down and up (this project's format: `specs/KeyScript.antt`).
//! The keypad knows the script and the key number that port 2 latched (RCA's instruction manual of the COSMAC VIP: OUT 2 selects a key,
//! and EF3 tells whether that key is down).
//!
//! The crate stands on the definitions of `machine`, on `vip_byte` and on the kit's `thiserror`. The layers above may rely on this: a
//! script that was read is the list of its events, or its first fault; `Keypad::down` is `held_at` of `machine` over that whole list; the
//! latched key is the low four bits of the byte that was latched last; `Keypad::ef3` is `down` of that key. When the events are searched
//! is the keypad's own matter: `ef3` keeps the cycles between two events in which it answered last, and no clause sees them.
#![tactic(auto)]

mod key_set;
mod keypad;
mod keys;
mod line;
mod script;
mod stretch;

pub use key_set::KeySet;
pub use keypad::Keypad;
pub use keys::Keys;
pub use script::{MOST_EVENTS, Script, ScriptCause, ScriptFault, read_script};
pub use stretch::Stretch;
