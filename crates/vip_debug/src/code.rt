//! The command that shows opcodes of the language in words.

ghost use Rattle.std.specs.Prelude.{◌≡◌, ◌+◌, ◌-◌, ◌*◌, ◌/◌, ◌≤◌, ◌++◌, ◌∷◌, [], length, false};
ghost use Rattle.arrayvec.specs.ArrayVec.{array_vec_len};
ghost use Rattle.vip_byte.specs.Room.{HasRoom};
ghost use Rattle.machine.specs.Memory.{read};
ghost use Rattle.vip_outside.specs.Pieces.{StreamAnswers};
ghost use Rattle.asm_core.specs.Origins.{labels_over, source_end};
ghost use Rattle.vip_debug.specs.BoardParts.{clear_reads};
ghost use Rattle.vip_debug.specs.Code.{byte_text, code_bytes, code_line, code_lines, code_text, opcode_text};

use asm_core::Origins;
use chip8_words::opcode_words;
use vip_byte::{Buffer, hex2, hex4, put};
use vip_memory::Memory;
use vip_outside::{Failed, Sink};
use vip_program::put_labels_at;

/// The greatest address.
const LAST: u16 = 0xFFFF;

/// The byte that an address reads where the boot latch is clear.
fn read_clear(memory: &Memory, address: u16) -> u8
    ensures { result ≡ clear_reads memory.now address }
{
    match memory.page((address / 256) as u8) {
        Some(page) => page[usize::from(address % 256)],
        None => 0xFF,
    }
}

/// Appends an opcode in digits and in words.
fn put_opcode(into: &mut Buffer, opcode: u16)
    requires { HasRoom into.old.items 20 }
    ensures items { into.new.items ≡ into.old.items ++ opcode_text opcode }
    ensures len { array_vec_len into.new ≤ array_vec_len into.old + 20 }
{
    put(into, &hex4(opcode));
    put(into, b" ");
    put(into, opcode_words(opcode).as_slice());
}

/// Appends a byte in digits and as data.
fn put_byte(into: &mut Buffer, byte: u8)
    requires { HasRoom into.old.items 20 }
    ensures items { into.new.items ≡ into.old.items ++ byte_text byte }
    ensures len { array_vec_len into.new ≤ array_vec_len into.old + 20 }
{
    put(into, &hex2(byte));
    put(into, b"   DB 0x");
    put(into, &hex2(byte));
}

/// Appends the opcode at an address, or the last byte, and the source's line that gave it.
fn put_code_at(into: &mut Buffer, memory: &Memory, origins: &Origins, address: u16)
    requires { HasRoom into.old.items 340 }
    ensures items { into.new.items ≡ into.old.items ++ code_text (clear_reads memory.now) address ++ source_end origins.now false address (code_bytes (clear_reads memory.now) address) }
    ensures len { array_vec_len into.new ≤ array_vec_len into.old + 340 }
{
    let first = read_clear(memory, address);
    if address == LAST {
        put_byte(into, first);
        origins.put_end(false, address, &[first], into);
    } else {
        let second = read_clear(memory, address + 1);
        put_opcode(into, u16::from(first) * 256 + u16::from(second));
        origins.put_end(false, address, &[first, second], into);
    }
}

/// Puts the line of the opcode at an address, or of the last byte, behind those of its labels.
fn put_line<O: Sink>(
    memory: &Memory,
    origins: &Origins,
    address: u16,
    out: &mut O,
) -> Result<(), Failed>
    ensures { StreamAnswers (labels_over origins.now address ++ code_line (clear_reads memory.now) origins.now address ∷ []) (O.meaning out.old) (O.meaning out.new) result }
{
    let mut text = Buffer::new();
    put(&mut text, &hex4(address));
    put(&mut text, b" ");
    put_code_at(&mut text, memory, origins, address);
    put(&mut text, b"\n");
    put_labels_at(origins, address, out)?;
    out.put(text.as_slice())
}

/// Puts so many opcodes in words from an address on, or those up to FFFF, read as with the boot latch clear, each behind the lines of its labels.
pub fn put_code<O: Sink>(
    memory: &Memory,
    origins: &Origins,
    address: u16,
    count: u32,
    out: &mut O,
) -> Result<(), Failed>
    ensures { StreamAnswers (code_lines (clear_reads memory.now) origins.now address count) (O.meaning out.old) (O.meaning out.new) result }
{
    let most = (u32::from(LAST - address) + 2) / 2;
    for k in 0..count.min(most) {
        put_line(memory, origins, (u32::from(address) + 2 * k) as u16, out)?;
    }
    Ok(())
}
