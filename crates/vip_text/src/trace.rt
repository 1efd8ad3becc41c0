//! The line of a trace.

ghost use Rattle.std.specs.Prelude.{◌≡◌, ◌+◌, ◌≤◌, ◌++◌, [], length, codes};
ghost use Rattle.arrayvec.specs.ArrayVec.{array_vec_len};
ghost use Rattle.vip_byte.specs.Room.{HasRoom};
ghost use Rattle.vip_byte.specs.HexText.{hex4};
ghost use Rattle.chip8_lang.specs.View.{seen};
ghost use Rattle.vip_text.specs.Traces.{columns_text, comment_text, opcode_end, opcode_text, record_text, time_text, timers_text, told_line, trace_line};

use crate::write::{put_bytes, put_words};
use asm_core::Origins;
use chip8_lang::StateView;
use chip8_words::opcode_words;
use vip_byte::{Buffer, hex2, hex4, put, put_number};

/// What a trace shows besides the states, a field for each option that asks for it.
#[derive(Clone, Copy)]
pub struct TraceColumns {
    /// In each line, the count of ticks and the cycle.
    pub time: bool,
    /// In each line, the opcode in words, where there is one.
    pub words: bool,
    /// Behind the lines, the screen at the last dispatch point.
    pub screen: bool,
}

/// None of them.
pub const PLAIN: TraceColumns = TraceColumns {
    time: false,
    words: false,
    screen: false,
};

/// The count of ticks and the cycle alone.
pub const TIMED: TraceColumns = TraceColumns {
    time: true,
    ..PLAIN
};

/// Writes the line of a state into an empty buffer, with these columns behind it.
pub fn trace_text(view: &StateView, columns: TraceColumns, into: &mut Buffer)
    requires { into.old.items ≡ [] }
    ensures { into.new.items ≡ trace_line columns (seen view.now) }
{
    put_record(into, view, columns);
    put(into, b"\n");
}

/// The same, and behind the columns the source's line that gave the opcode, where it is told.
pub fn told_text(view: &StateView, columns: TraceColumns, origins: &Origins, into: &mut Buffer)
    requires { into.old.items ≡ [] }
    ensures { into.new.items ≡ told_line origins.now columns (seen view.now) }
{
    put_record(into, view, columns);
    put_source(into, view, origins);
    put(into, b"\n");
}

/// Writes a state into an empty buffer, with these columns behind it.
fn put_record(into: &mut Buffer, view: &StateView, columns: TraceColumns)
    requires { into.old.items ≡ [] }
    ensures items { into.new.items ≡ record_text columns (seen view.now) }
    ensures len { array_vec_len into.new ≤ 300 }
{
    put_place(into, view);
    put_bytes(into, &view.v);
    put_index(into, view.i);
    put_timers(into, view);
    put(into, b" S");
    put_words(into, view.stack.as_slice());
    put_columns(into, view, columns);
}

/// Appends the source's line that gave the opcode, if there is one.
fn put_source(into: &mut Buffer, view: &StateView, origins: &Origins)
    requires { HasRoom into.old.items 320 }
    ensures items { into.new.items ≡ into.old.items ++ opcode_end origins.now (seen view.now) }
    ensures len { array_vec_len into.new ≤ array_vec_len into.old + 320 }
{
    if let Some(opcode) = view.opcode {
        origins.put_end(false, view.pc, &opcode.to_be_bytes(), into);
    }
}

/// Appends pc and the opcode, and the name of the registers V0 to VF.
fn put_place(into: &mut Buffer, view: &StateView)
    requires { HasRoom into.old.items 11 }
    ensures items { into.new.items ≡ into.old.items ++ hex4 view.now.pc ++ codes " " ++ opcode_text view.now.opcode ++ codes " V" }
    ensures len { array_vec_len into.new ≡ array_vec_len into.old + 11 }
{
    let [p1, p2, p3, p4] = hex4(view.pc);
    let [o1, o2, o3, o4] = opcode_digits(view.opcode);
    let text = [p1, p2, p3, p4, b' ', o1, o2, o3, o4, b' ', b'V'];
    put(into, &text);
}

/// The opcode in four digits, or four hyphens where there is none.
pub fn opcode_digits(opcode: Option<u16>) -> [u8; 4]
    ensures { result ≡ opcode_text opcode }
{
    match opcode {
        Some(opcode) => hex4(opcode),
        None => *b"----",
    }
}

/// Appends I.
fn put_index(into: &mut Buffer, i: u16)
    requires { HasRoom into.old.items 7 }
    ensures items { into.new.items ≡ into.old.items ++ codes " I " ++ hex4 i }
    ensures len { array_vec_len into.new ≡ array_vec_len into.old + 7 }
{
    let [i1, i2, i3, i4] = hex4(i);
    let text = [b' ', b'I', b' ', i1, i2, i3, i4];
    put(into, &text);
}

/// Appends both timers and the tone.
fn put_timers(into: &mut Buffer, view: &StateView)
    requires { HasRoom into.old.items 16 }
    ensures items { into.new.items ≡ into.old.items ++ timers_text (seen view.now) }
    ensures len { array_vec_len into.new ≡ array_vec_len into.old + 16 }
{
    let [d1, d2] = hex2(view.dt);
    let [s1, s2] = hex2(view.st);
    let tone = if view.tone { b'1' } else { b'0' };
    let text = [
        b' ', b'D', b'T', b' ', d1, d2, b' ', b'S', b'T', b' ', s1, s2, b' ', b'Q', b' ', tone,
    ];
    put(into, &text);
}

/// Appends the columns that are asked for.
fn put_columns(into: &mut Buffer, view: &StateView, columns: TraceColumns)
    requires { HasRoom into.old.items 70 }
    ensures items { into.new.items ≡ into.old.items ++ columns_text columns (seen view.now) }
    ensures len { array_vec_len into.new ≤ array_vec_len into.old + 70 }
{
    put_time(into, view, columns.time);
    put_comment(into, view.opcode, columns.words);
}

/// Appends the count of ticks and the cycle where they are asked for.
fn put_time(into: &mut Buffer, view: &StateView, with_time: bool)
    requires { HasRoom into.old.items 51 }
    ensures items { into.new.items ≡ into.old.items ++ time_text with_time (seen view.now) }
    ensures len { array_vec_len into.new ≤ array_vec_len into.old + 51 }
{
    if !with_time {
        return;
    }
    let [n1, n2, n3, n4] = hex4(view.n);
    let text = [b' ', b'N', b' ', n1, n2, n3, n4, b' ', b'A', b'T', b' '];
    put(into, &text);
    put_number(into, view.cycle);
}

/// Appends the opcode in words, as a comment, where it is asked for and there is one.
fn put_comment(into: &mut Buffer, opcode: Option<u16>, with_words: bool)
    requires { HasRoom into.old.items 19 }
    ensures items { into.new.items ≡ into.old.items ++ comment_text with_words opcode }
    ensures len { array_vec_len into.new ≤ array_vec_len into.old + 19 }
{
    let Some(opcode) = opcode else {
        return;
    };
    if with_words {
        put(into, b"  ; ");
        put(into, opcode_words(opcode).as_slice());
    }
}
