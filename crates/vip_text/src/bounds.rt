//! The cycle bounds of the interpreter, DMA and interrupts counted: each is the definition's for every instruction, and the table has the same
//! numbers.

ghost use Rattle.std.specs.Prelude.{◌≡◌, ◌+◌, ◌≤◌, ◌++◌, [], length};
ghost use Rattle.arrayvec.specs.ArrayVec.{array_vec_len};
ghost use Rattle.vip_byte.specs.Room.{HasRoom};
ghost use Rattle.chip8_lang.specs.Bounds.{bound_of_instr};
ghost use Rattle.vip_text.specs.Bounds.{bound_text, bound_line, bounds_table};

use chip8_lang::Instr;
use itoa::Buffer as Digits;
use vip_byte::{Buffer, put};

/// The most machine cycles from reset to the first dispatch point.
pub const BOOT: u32 = 1_000;

/// The most machine cycles from a dispatch point to the stop point, where a stop fits the state.
pub const STOP: u32 = 2_200;

/// The most for 00E0, which waits for the end of a frame.
const CLEAR: u32 = 7_600;

/// The most for DXYN, which may prepare a sprite past the end of a frame and then waits for the next one.
const DRAW: u32 = 14_672;

/// The most for FX33, FX55 and FX65.
const BYTES: u32 = 2_600;

/// The most for each of the others.
const OTHER: u32 = 2_200;

/// The most machine cycles from a dispatch point at an instruction to the next one. None comes exactly for FX0A, which waits for the
/// player.
pub fn bound(instr: &Instr) -> Option<u32>
    ensures { result ≡ bound_of_instr instr.now }
{
    match instr {
        Instr::Clear => Some(CLEAR),
        Instr::Draw(..) => Some(DRAW),
        Instr::Decimal(_) | Instr::Store(_) | Instr::Fetch(_) => Some(BYTES),
        Instr::WaitKey(_) => None,
        _ => Some(OTHER),
    }
}

/// Writes the table of bounds into an empty buffer, a line for each.
pub fn bounds_text(into: &mut Buffer)
    requires { into.old.items ≡ [] }
    ensures { into.new.items ≡ bounds_table }
{
    put_line(into, b"boot", Some(BOOT));
    put_line(into, b"00E0", bound(&Instr::Clear));
    put_line(into, b"DXYN", bound(&Instr::Draw(0, 0, 0)));
    put_line(into, b"FX0A", bound(&Instr::WaitKey(0)));
    put_line(into, b"FX33", bound(&Instr::Decimal(0)));
    put_line(into, b"FX55", bound(&Instr::Store(0)));
    put_line(into, b"FX65", bound(&Instr::Fetch(0)));
    put_line(into, b"other", bound(&Instr::Return));
    put_line(into, b"stop", Some(STOP));
}

/// Appends a line, for which there is room.
fn put_line(into: &mut Buffer, name: &[u8], bound: Option<u32>)
    requires { HasRoom into.old.items (length name.now + 16) }
    ensures items { into.new.items ≡ into.old.items ++ bound_line name.now bound }
    ensures len { array_vec_len into.new ≤ array_vec_len into.old + length name.now + 16 }
{
    put(into, name);
    put(into, b" ");
    put_bound(into, bound);
    put(into, b"\n");
}

/// Appends the number of cycles, or `key` where there is none.
fn put_bound(into: &mut Buffer, bound: Option<u32>)
    requires { HasRoom into.old.items 14 }
    ensures items { into.new.items ≡ into.old.items ++ bound_text bound }
    ensures len { array_vec_len into.new ≤ array_vec_len into.old + 14 }
{
    let mut digits = Digits::new();
    match bound {
        Some(cycles) => put(into, digits.format(cycles).as_bytes()),
        None => put(into, b"key"),
    }
}
