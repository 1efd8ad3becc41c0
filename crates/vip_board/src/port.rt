//! Port 3 as a link: the wires between two boards, and what the processor of a joined board is wired to.

ghost use Rattle.std.specs.Prelude.{◌≡◌, None};

use crate::wires::Wires;
use std::marker::Model;
use vip_cpu::Bus;
use vip_keypad::Keys;

/// A wire from one board to another. It is empty, or holds one byte.
///
/// Clauses see it as the byte that it holds.
#[derive(Drop)]
pub struct Wire {
    byte: Option<u8>,
}

impl Model for Wire {
    ghost use Rattle.std.specs.Prelude.{ℕ, Option};

    ghost Value = { Option ℕ };

    ghost view = { λ wire. wire.byte };
}

impl Wire {
    /// An empty wire.
    pub fn new() -> Wire
        ensures { result ≡ None }
    {
        Wire { byte: None }
    }

    /// The byte that it holds. None comes exactly where the wire is empty.
    pub fn full(&self) -> Option<u8>
        ensures { result ≡ self.now }
    {
        self.byte
    }

    /// From now on it holds this.
    pub(crate) fn set(&mut self, byte: Option<u8>)
        ensures { self.new ≡ byte }
    {
        self.byte = byte;
    }
}

/// The wires of a board that is joined to another one, in the last machine cycle of an instruction: EF2 is whether the incoming wire is
/// full, and EF4 whether the outgoing one is. The rest is as on a board alone.
#[derive(Drop)]
pub struct Joined<'a, K: Keys> {
    pub wires: &'a mut Wires<K>,
    pub incoming: Option<u8>,
    pub outgoing: Option<u8>,
}

impl<K: Keys> Bus for Joined<'_, K> {
    ghost use Rattle.std.specs.Prelude.{◌≡◌, Some};
    ghost use Rattle.machine.specs.Keys.{held_at};
    ghost use Rattle.machine.specs.Signals.{efx_at};
    ghost use Rattle.machine.specs.Instruction.Port.{Send, Receive};
    ghost use Rattle.machine.specs.Memory.{read};
    ghost use Rattle.vip_board.specs.Linked.{linked_flags, taken_at, incoming_after, outgoing_after};
    ghost use Rattle.vip_board.specs.Wired.{after_port, after_write};
    ghost use Rattle.vip_board.specs.JoinedLaws.{joined-write-keeps, joined-write-puts, joined-receive-keeps};

    ghost byte = { λ j. read j.wires.now.memory.rom j.wires.now.memory.latch j.wires.now.memory.ram };

    ghost flags = { λ j. linked_flags (efx_at j.wires.now.video.cycles j.wires.now.video.on) (held_at j.wires.now.keypad.script j.wires.now.video.cycles j.wires.now.keypad.latched) j.incoming j.outgoing };

    ghost writes = { λ j address value after. (after.wires.ghost_name ≡ j.wires.ghost_name) × (after.wires.now ≡ after_write address value j.wires.now) × (after.incoming ≡ j.incoming) × (after.outgoing ≡ j.outgoing) };

    ghost sends = { λ j port value after. (after.wires.ghost_name ≡ j.wires.ghost_name) × (after.wires.now ≡ after_port (Send port value) j.wires.now) × (after.incoming ≡ j.incoming) × (after.outgoing ≡ outgoing_after (Some (Send port value)) j.outgoing) };

    ghost receives = { λ j port value after. (value ≡ taken_at port j.incoming) × (after.wires.ghost_name ≡ j.wires.ghost_name) × (after.wires.now ≡ after_port (Receive port) j.wires.now) × (after.incoming ≡ incoming_after (Some (Receive port)) j.incoming) × (after.outgoing ≡ j.outgoing) };

    ghost write_keeps = { joined-write-keeps };

    ghost write_puts = { joined-write-puts };

    ghost inp_keeps = { joined-receive-keeps };

    fn read(&self, address: u16) -> u8 {
        self.wires.read(address)
    }

    fn write(&mut self, address: u16, value: u8) {
        self.wires.write(address, value);
    }

    fn out(&mut self, port: u8, value: u8) {
        self.wires.out(port, value);
        if port == 3 && self.outgoing.is_none() {
            self.outgoing = Some(value);
        }
    }

    fn inp(&mut self, port: u8) -> u8 {
        let none = self.wires.inp(port);
        if port == 3 {
            self.incoming.take().unwrap_or(none)
        } else {
            none
        }
    }

    fn ef(&mut self, flag: u8) -> bool {
        match flag {
            2 => self.incoming.is_some(),
            4 => self.outgoing.is_some(),
            _ => self.wires.ef(flag),
        }
    }
}
