//! The counts of a profile, point by point.

ghost use Rattle.std.specs.Prelude.{vec_len, ◌≡◌};

use crate::figures::Figures;
use crate::frames::Frames;
use std::alloc::{AllocError, Global};

/// The number of addresses, of any of which the processor may take for a pc.
pub const ADDRESSES: usize = 0x1_0000;

/// A point of a run: its pc, and its machine cycle.
#[derive(Clone, Copy)]
pub struct Point {
    pub pc: u16,
    pub cycle: u64,
}

/// What is counted of the points of a run.
#[derive(Drop)]
pub struct Counts {
    // for each address the cycles of the steps from there
    pub(crate) steps: Vec<Figures>,
    // how many steps there were
    pub(crate) count: u64,
    // the cycle of the first point, and the last point
    pub(crate) first: u64,
    pub(crate) last: Option<Point>,
    pub(crate) frames: Frames,
    ghost steps_len: { vec_len steps ≡ 0x10000 },
}

impl Counts {
    ghost use Rattle.std.specs.Prelude.{◌+◌, ◌∷◌, [], ◌++◌, ◌<◌, ◌≤◌, IfOk, List, ℕ, Some, None, slice_index_or, slice_set};
    ghost use Rattle.vip_byte.specs.Number.{most_cycles};
    ghost use Rattle.vip_program.specs.Counts.{addresses, Awaits, Counted};
    ghost use Rattle.vip_program.specs.Figures.{figures_of, HasRoom, most_number};
    ghost use Rattle.vip_program.specs.Frames.{IsFew, CountsPoint, most_points};
    ghost use Rattle.vip_program.specs.declared.counts.Point.{Point};
    ghost use Rattle.vip_program.specs.declared.figures.Figures.{Figures};
    ghost use Rattle.vip_program.specs.Profile.{last_cycle};

    /// Of no point.
    pub fn new(alloc: Global) -> Result<Counts, AllocError>
        ensures { IfOk result (λ counts. Counted counts []) }
    {
        let steps = vec![in alloc; Figures::none(); ADDRESSES]?;
        Ok(Counts {
            steps,
            count: 0,
            first: 0,
            last: None,
            frames: Frames::behind(0),
        })
    }

    /// Begins anew, of no point.
    pub fn clear(&mut self)
        ensures { Counted self.new [] }
    {
        self.steps.fill(Figures::none());
        self.count = 0;
        self.first = 0;
        self.last = None;
        self.frames = Frames::behind(0);
    }

    /// A point is met. The step to it from the last one, if there is one, is over.
    pub fn meet(&mut self, point: Point)
        requires { Awaits self.old point }
        ensures { (points : List Point) → Counted self.old points → last_cycle points ≤ point.cycle → Counted self.new (points ++ point ∷ []) }
    {
        match self.last {
            Some(last) => self.meet_next(last, point),
            None => self.meet_first(point),
        }
    }

    /// The first point.
    fn meet_first(&mut self, point: Point)
        requires awaits { Awaits self.old point }
        requires none { self.old.last ≡ None }
        ensures { Counted self.old [] → Counted self.new (point ∷ []) }
    {
        self.first = point.cycle;
        self.frames = Frames::behind(point.cycle);
        self.arrive(point);
    }

    /// A point behind the last one.
    fn meet_next(&mut self, last: Point, point: Point)
        requires awaits { Awaits self.old point }
        requires last { self.old.last ≡ Some last }
        ensures { (points : List Point) → Counted self.old points → last_cycle points ≤ point.cycle → Counted self.new (points ++ point ∷ []) }
    {
        self.count_step(last.pc, point.cycle - last.cycle);
        self.arrive(point);
    }

    /// A step from an address took so many cycles.
    fn count_step(&mut self, pc: u16, cycles: u64)
        requires room { (other : Figures) → HasRoom (slice_index_or self.old.steps.items pc other) cycles }
        requires few { self.old.count ≤ most_number }
        ensures steps { (numbers : List ℕ) → ((other : Figures) → slice_index_or self.old.steps.items pc other ≡ figures_of numbers) → self.new.steps.items ≡ slice_set self.old.steps.items pc (figures_of (numbers ++ cycles ∷ [])) }
        ensures count { self.new.count ≡ self.old.count + 1 }
        ensures first { self.new.first ≡ self.old.first }
        ensures frames { self.new.frames ≡ self.old.frames }
    {
        let place = usize::from(pc);
        self.steps[place] = self.steps[place].with(cycles);
        self.count += 1;
    }

    /// This is the last point.
    fn arrive(&mut self, point: Point)
        requires few { IsFew most_points self.old.frames }
        requires in_time { point.cycle ≤ most_cycles }
        ensures last { self.new.last ≡ Some point }
        ensures frames { CountsPoint self.old.frames point self.new.frames }
        ensures steps { self.new.steps.items ≡ self.old.steps.items }
        ensures count { self.new.count ≡ self.old.count }
        ensures first { self.new.first ≡ self.old.first }
    {
        self.last = Some(point);
        self.frames.meet(point.cycle);
    }

    /// The cycle of the last point, 0 without one.
    pub(crate) fn last_cycle(&self) -> u64
        ensures { (points : List Point) → Counted self.now points → result ≡ last_cycle points }
    {
        match self.last {
            Some(last) => last.cycle,
            None => 0,
        }
    }
}
