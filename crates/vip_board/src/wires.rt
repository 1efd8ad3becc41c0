//! What the processor is wired to.

use vip_cpu::Bus;
use vip_keypad::{Keypad, Keys, Script};
use vip_memory::Memory;
use vip_video::Video;

/// Memory, the video chip, and the keypad. The flags are those of the present cycle: EF1 is EFX, and EF3 is whether the latched
/// key is held down.
#[derive(Drop)]
pub struct Wires<K: Keys = Script> {
    pub memory: Memory,
    pub video: Video,
    pub keypad: Keypad<K>,
}

impl<K: Keys> Bus for Wires<K> {
    ghost use Rattle.std.specs.Prelude.{◌≡◌};
    ghost use Rattle.machine.specs.Keys.{held_at};
    ghost use Rattle.machine.specs.Signals.{efx_at};
    ghost use Rattle.machine.specs.Instruction.Port.{Send, Receive};
    ghost use Rattle.machine.specs.Memory.{read};
    ghost use Rattle.machine.specs.Board.{flags_of};
    ghost use Rattle.vip_board.specs.Wired.{after_port, after_write};
    ghost use Rattle.vip_board.specs.Laws.{write-keeps, write-puts, receive-keeps};

    ghost byte = { λ w. read w.memory.rom w.memory.latch w.memory.ram };

    ghost flags = { λ w. flags_of (efx_at w.video.cycles w.video.on) (held_at w.keypad.script w.video.cycles w.keypad.latched) };

    ghost writes = { λ w address value after. after ≡ after_write address value w };

    ghost sends = { λ w port value after. after ≡ after_port (Send port value) w };

    ghost receives = { λ w port value after. (value ≡ 0) × (after ≡ after_port (Receive port) w) };

    ghost write_keeps = { write-keeps };

    ghost write_puts = { write-puts };

    ghost inp_keeps = { receive-keeps };

    fn read(&self, address: u16) -> u8 {
        self.memory.read(address)
    }

    fn write(&mut self, address: u16, value: u8) {
        self.memory.write(address, value);
    }

    fn out(&mut self, port: u8, value: u8) {
        match port {
            1 => self.video.turn(false),
            2 => self.keypad.latch(value),
            4 => self.memory.clear_latch(),
            _ => {}
        }
    }

    fn inp(&mut self, port: u8) -> u8 {
        if port == 1 {
            self.video.turn(true);
        }
        0
    }

    // No instruction that `Board::work` makes tests a flag: apart and cold, this call costs its loop hardly a register.
    #[cold]
    #[inline(never)]
    fn ef(&mut self, flag: u8) -> bool {
        match flag {
            1 => self.video.signals(self.video.now()).efx,
            3 => self.keypad.ef3(self.video.now()),
            _ => false,
        }
    }
}
