//! The lines that say where a run came to its end: at a stop, or at the instruction by which the processor idles for good.

ghost use Rattle.std.specs.Prelude.{◌≡◌, ◌+◌, ◌≤◌, ◌++◌, [], length};
ghost use Rattle.arrayvec.specs.ArrayVec.{array_vec_len};
ghost use Rattle.vip_byte.specs.Room.{HasRoom};
ghost use Rattle.vip_text.specs.Stops.{idle_line, opcode_part, stop_line, stop_name};

use chip8_lang::{Stop, StopRecord};
use vip_byte::{Buffer, hex4, put};

/// Writes the line of a stop into an empty buffer: its name, its opcode where it has one, and its pc.
pub fn stop_text(stop: &StopRecord, into: &mut Buffer)
    requires { into.old.items ≡ [] }
    ensures { into.new.items ≡ stop_line stop.now.stop stop.now.pc stop.now.opcode }
{
    put(into, b"stopped ");
    put(into, name(stop.stop).as_bytes());
    put_opcode(into, stop.opcode);
    put(into, b" at ");
    put(into, &hex4(stop.pc));
    put(into, b"\n");
}

/// Writes at which address a program's processor idles for good into an empty buffer.
pub fn idle_text(address: u16, into: &mut Buffer)
    requires { into.old.items ≡ [] }
    ensures { into.new.items ≡ idle_line address }
{
    put(into, b"idle at ");
    put(into, &hex4(address));
    put(into, b"\n");
}

/// The name of a stop, of at most 12 characters.
fn name(stop: Stop) -> &'static str
    ensures text { result.now ≡ stop_name stop }
    ensures len { length result.now ≤ 12 }
{
    match stop {
        Stop::MachineCall => "MachineCall",
        Stop::Unknown => "Unknown",
        Stop::FetchOutside => "FetchOutside",
        Stop::ReadOutside => "ReadOutside",
        Stop::WriteOutside => "WriteOutside",
        Stop::StackFull => "StackFull",
        Stop::StackEmpty => "StackEmpty",
    }
}

/// Appends the opcode behind a blank, where there is one.
fn put_opcode(into: &mut Buffer, opcode: Option<u16>)
    requires { HasRoom into.old.items 5 }
    ensures items { into.new.items ≡ into.old.items ++ opcode_part opcode }
    ensures len { array_vec_len into.new ≤ array_vec_len into.old + 5 }
{
    if let Some(opcode) = opcode {
        put(into, b" ");
        put(into, &hex4(opcode));
    }
}
