//! The dispatch points of a run, counted.

ghost use Rattle.std.specs.Prelude.{◌≡◌, vec_len};

use asm_core::Origins;
use chip8_lang::StateView;
use std::alloc::{AllocError, Global};
use vip_byte::{Buffer, put};
use vip_program::{ADDRESSES, Codes, Counts, Point};
use vip_text::opcode_digits;

/// The opcodes of a run, address by address.
#[derive(Drop)]
pub struct Opcodes {
    // that which was met last
    pub(crate) last: Vec<Option<u16>>,
    ghost last_len: { vec_len last ≡ 0x10000 },
}

/// What is counted of a run: tables by address, of any of which the processor may take for a pc.
#[derive(Drop)]
pub struct Profile {
    pub(crate) counts: Counts,
    pub(crate) opcodes: Opcodes,
}

impl Codes for Opcodes {
    ghost use Rattle.std.specs.Prelude.{None, slice_index_or};
    ghost use Rattle.vip_show.specs.Profile.{code_of, title};

    ghost title = { title };

    ghost code = { λ opcodes pc. code_of (slice_index_or opcodes.last.items pc None) };

    fn latch(&self, _pc: u16) -> bool {
        false
    }

    fn put_title(&self, into: &mut Buffer) {
        put(into, b"code");
    }

    fn put_code(&self, pc: u16, into: &mut Buffer) {
        put(into, &opcode_digits(self.last[usize::from(pc)]));
    }

    fn put_words(&self, _pc: u16, _into: &mut Buffer) {}

    fn put_end(&self, origins: &Origins, pc: u16, into: &mut Buffer) {
        if let Some(opcode) = self.last[usize::from(pc)] {
            origins.put_end(false, pc, &opcode.to_be_bytes(), into);
        }
    }
}

impl Opcodes {
    ghost use Rattle.std.specs.Prelude.{◌≡◌, ◌<◌, ℕ, Option, IfOk, [], slice_set};
    ghost use Rattle.vip_program.specs.Counts.{addresses};
    ghost use Rattle.vip_show.specs.Profile.{AreLast};

    /// Of no run.
    fn new(alloc: Global) -> Result<Opcodes, AllocError>
        ensures { IfOk result (λ opcodes. AreLast opcodes []) }
    {
        let last = vec![in alloc; None; ADDRESSES]?;
        Ok(Opcodes { last })
    }

    /// Begins anew, of no run.
    fn clear(&mut self)
        ensures { AreLast self.new [] }
    {
        self.last.fill(None);
    }

    /// An opcode is met.
    fn meet(&mut self, pc: u16, opcode: Option<u16>)
        ensures last { self.new.last.items ≡ slice_set self.old.last.items pc opcode }
        ensures within { pc < addresses }
    {
        self.last[usize::from(pc)] = opcode;
    }
}

impl Profile {
    ghost use Rattle.std.specs.Prelude.{◌∷◌, [], ◌++◌, ◌≤◌, List};
    ghost use Rattle.chip8_lang.specs.View.{View, seen};
    ghost use Rattle.vip_program.specs.Counts.{Awaits};
    ghost use Rattle.vip_program.specs.Profile.{last_cycle};
    ghost use Rattle.vip_show.specs.Profile.{Profiles, met_points, point_of};

    /// Takes the memory.
    pub fn new(alloc: Global) -> Result<Profile, AllocError> {
        let counts = Counts::new(alloc)?;
        let opcodes = Opcodes::new(alloc)?;
        Ok(Profile { counts, opcodes })
    }

    /// Begins anew, of no dispatch point.
    pub(crate) fn clear(&mut self)
        ensures { Profiles self.new [] }
    {
        self.counts.clear();
        self.opcodes.clear();
    }

    /// A dispatch point is met.
    pub(crate) fn meet(&mut self, view: &StateView)
        requires { Awaits self.old.counts (point_of (seen view.now)) }
        ensures { (views : List View) → Profiles self.old views → last_cycle (met_points views) ≤ view.now.cycle → Profiles self.new (views ++ seen view.now ∷ []) }
    {
        self.opcodes.meet(view.pc, view.opcode);
        self.counts.meet(Point {
            pc: view.pc,
            cycle: view.cycle,
        });
    }
}
