//! The instructions of a program's run, counted.

ghost use Rattle.std.specs.Prelude.{◌≡◌, vec_len};

use crate::counts::{ADDRESSES, Counts, Point};
use crate::line::{put_code, three_at};
use crate::profile_text::Codes;
use asm_core::{Origins, size_at};
use std::alloc::{AllocError, Global};
use vip_board::Board;
use vip_byte::{Buffer, put};
use vip_isa::instruction_text;

/// An instruction: its opcode and the two bytes behind it, and whether they were read through the boot latch.
#[derive(Clone, Copy)]
pub struct Fetched {
    pub latch: bool,
    pub three: [u8; 3],
}

/// The instructions of a run, address by address.
#[derive(Drop)]
pub struct Instructions {
    // the first that began there
    pub(crate) first: Vec<Option<Fetched>>,
    ghost first_len: { vec_len first ≡ 0x10000 },
}

/// What is counted of the run of a program: tables by address.
#[derive(Drop)]
pub struct ProgramProfile {
    pub(crate) counts: Counts,
    pub(crate) instructions: Instructions,
}

impl Codes for Instructions {
    ghost use Rattle.std.specs.Prelude.{None, slice_index_or};
    ghost use Rattle.vip_program.specs.Instructions.{code_shown, title};

    ghost title = { title };

    ghost code = { λ instructions pc. code_shown pc (slice_index_or instructions.first.items pc None) };

    fn latch(&self, pc: u16) -> bool {
        match self.first[usize::from(pc)] {
            Some(fetched) => fetched.latch,
            None => false,
        }
    }

    fn put_title(&self, into: &mut Buffer) {
        put(into, b"bytes ");
    }

    fn put_code(&self, pc: u16, into: &mut Buffer) {
        if let Some(fetched) = self.first[usize::from(pc)] {
            put_code(into, fetched.three);
        }
    }

    fn put_words(&self, pc: u16, into: &mut Buffer) {
        if let Some(fetched) = self.first[usize::from(pc)] {
            put(into, b"  ");
            put(into, instruction_text(pc, fetched.three).as_slice());
        }
    }

    fn put_end(&self, origins: &Origins, pc: u16, into: &mut Buffer) {
        if let Some(fetched) = self.first[usize::from(pc)] {
            let code = &fetched.three[..usize::from(size_at(fetched.three[0]))];
            origins.put_end(fetched.latch, pc, code, into);
        }
    }
}

impl Instructions {
    ghost use Rattle.std.specs.Prelude.{◌≡◌, ℕ, List, IfOk, [], None, Some, slice_index_or, slice_set};
    ghost use Rattle.vip_program.specs.Instructions.{AreFirst};
    ghost use Rattle.vip_program.specs.declared.instructions.Fetched.{Fetched};

    /// Of no run.
    fn new(alloc: Global) -> Result<Instructions, AllocError>
        ensures { (rom : List ℕ) → IfOk result (λ instructions. AreFirst instructions rom []) }
    {
        let first = vec![in alloc; None; ADDRESSES]?;
        Ok(Instructions { first })
    }

    /// Begins anew, of no run.
    fn clear(&mut self)
        ensures { (rom : List ℕ) → AreFirst self.new rom [] }
    {
        self.first.fill(None);
    }

    /// An instruction begins at an address.
    fn meet(&mut self, pc: u16, fetched: Fetched)
        ensures first { slice_index_or self.old.first.items pc None ≡ None → self.new.first.items ≡ slice_set self.old.first.items pc (Some fetched) }
        ensures later { (met : Fetched) → slice_index_or self.old.first.items pc None ≡ Some met → self.new.first.items ≡ self.old.first.items }
    {
        let place = usize::from(pc);
        if self.first[place].is_none() {
            self.first[place] = Some(fetched);
        }
    }
}

impl ProgramProfile {
    ghost use Rattle.std.specs.Prelude.{◌∷◌, [], ◌++◌, ◌≤◌, ℕ, List};
    ghost use Rattle.machine.specs.Board.{Machine};
    ghost use Rattle.vip_board.specs.Seen.{Seen};
    ghost use Rattle.vip_cpu.specs.declared.cpu.Phase.TheVariants.{Boundary};
    ghost use Rattle.vip_program.specs.Counts.{Awaits};
    ghost use Rattle.vip_program.specs.Instructions.{Profiles, point_at, points_of};
    ghost use Rattle.vip_program.specs.Profile.{last_cycle};

    /// Takes the memory.
    pub fn new(alloc: Global) -> Result<ProgramProfile, AllocError> {
        let counts = Counts::new(alloc)?;
        let instructions = Instructions::new(alloc)?;
        Ok(ProgramProfile {
            counts,
            instructions,
        })
    }

    /// Begins anew, of no run.
    pub(crate) fn clear(&mut self)
        ensures { (rom : List ℕ) → Profiles self.new rom [] }
    {
        self.counts.clear();
        self.instructions.clear();
    }

    /// The next move of a board is counted, if it is an instruction. The board is at a boundary.
    pub(crate) fn meet(&mut self, board: &Board)
        requires boundary { board.now.phase ≡ Boundary }
        requires awaits { Awaits self.old.counts (point_at board.now.machine) }
        ensures { (run : List Machine) → Profiles self.old board.now.rom run → last_cycle (points_of run) ≤ board.now.machine.cycle → Profiles self.new board.now.rom (run ++ board.now.machine ∷ []) }
    {
        if board.next_is_instruction() {
            let cpu = board.cpu();
            let pc = cpu.r(cpu.p());
            let memory = board.memory();
            self.instructions.meet(
                pc,
                Fetched {
                    latch: memory.latch_set(),
                    three: three_at(memory, pc),
                },
            );
            self.counts.meet(Point {
                pc,
                cycle: board.now(),
            });
        }
    }
}
