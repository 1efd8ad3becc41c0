//! The line that says why a game has no certificate.

ghost use Rattle.std.specs.Prelude.{◌≡◌, ◌+◌, ◌*◌, ◌≤◌, ◌++◌, [], length};
ghost use Rattle.arrayvec.specs.ArrayVec.{array_vec_len};
ghost use Rattle.vip_byte.specs.HexText.{words_text};
ghost use Rattle.vip_byte.specs.Room.{HasRoom};
ghost use Rattle.vip_text.specs.Stops.{opcode_part};
ghost use Rattle.vip_tools.specs.Report.{no_certificate, open_line};

use game_check::{Obstacle, OpenClaim};
use vip_byte::{Buffer, hex4, put};

/// Appends an opcode behind a blank, where there is one.
fn put_opcode(into: &mut Buffer, opcode: Option<u16>)
    requires { HasRoom into.old.items 5 }
    ensures items { into.new.items ≡ into.old.items ++ opcode_part opcode }
    ensures len { array_vec_len into.new ≤ array_vec_len into.old + 5 }
{
    if let Some(opcode) = opcode {
        put(into, b" ");
        put(into, &hex4(opcode));
    }
}

/// Appends each address in four digits, behind a blank.
fn put_addresses(into: &mut Buffer, addresses: &[u16])
    requires { HasRoom into.old.items (5 * length addresses.now) }
    ensures items { into.new.items ≡ into.old.items ++ words_text addresses.now }
    ensures len { array_vec_len into.new ≡ array_vec_len into.old + 5 * length addresses.now }
{
    for address in addresses {
        put(into, b" ");
        put(into, &hex4(*address));
    }
}

/// Writes the line into an empty buffer: a claim that can't be closed, or that each certificate would be too long.
pub fn obstacle_text(obstacle: &Obstacle, into: &mut Buffer)
    requires { into.old.items ≡ [] }
    ensures { into.new.items ≡ no_certificate obstacle.now }
{
    match obstacle {
        Obstacle::TooLong => put(into, b"vip: no certificate: TooLong\n"),
        Obstacle::Open(claim) => open_text(claim, into),
    }
}

// The cause, the opcode where it has one, pc, the range of I, and the stack.
fn open_text(claim: &OpenClaim, into: &mut Buffer)
    requires { into.old.items ≡ [] }
    ensures { into.new.items ≡ open_line claim.now }
{
    put(into, b"vip: no certificate: ");
    put(into, claim.cause.name().as_bytes());
    put_opcode(into, claim.opcode);
    put(into, b" at ");
    put(into, &hex4(claim.point.pc));
    put(into, b" with I ");
    put(into, &hex4(claim.low));
    put(into, b" to ");
    put(into, &hex4(claim.high));
    put(into, b" stack");
    put_addresses(into, claim.point.stack.as_slice());
    put(into, b"\n");
}
