//! The points of a run, frame by frame.

ghost use Rattle.std.specs.Prelude.{◌≡◌, ◌+◌, ◌/◌, ◌∷◌, [], ◌++◌, ◌≤◌, ◌<◌, ℕ, List, map, max};
ghost use Rattle.machine.specs.Pictures.{frame};
ghost use Rattle.vip_program.specs.declared.counts.Point.{Point};
ghost use Rattle.vip_program.specs.Figures.{figures_of, most_number};
ghost use Rattle.vip_program.specs.Frames.{frame_behind, Framed, IsFew, CountsPoint, most_points};
ghost use Rattle.vip_program.specs.Profile.{points_in, whole_frames};

use crate::figures::Figures;
use vip_video::FRAME_CYCLES;

/// How many points lie in each frame that begins at or behind the first point.
#[derive(Clone, Copy)]
pub(crate) struct Frames {
    // the frames that are over; the next one, and how many points lie in it so far
    pub(crate) over: Figures,
    pub(crate) next: u64,
    pub(crate) here: u64,
}

impl Frames {
    /// Of no point yet, where the first is to come at this cycle.
    pub(crate) fn behind(first: u64) -> Frames
        requires { first < most_number }
        ensures next { result.next ≡ frame_behind first }
        ensures framed { Framed result first [] }
        ensures few { IsFew 0 result }
    {
        Frames {
            over: Figures::none(),
            next: first.div_ceil(FRAME_CYCLES),
            here: 0,
        }
    }

    /// The frames before this one are over.
    fn pass(&mut self, frame: u64)
        requires frame { frame ≤ most_number }
        requires few { IsFew most_number self.old }
        ensures next { self.new.next ≡ max self.old.next frame }
        ensures framed { (first : ℕ) (points : List Point) → Framed self.old first points → Framed self.new first points }
        ensures few { (points : ℕ) → IsFew points self.old → IsFew points self.new }
    {
        while self.next < frame {
            self.over = self.over.with(self.here);
            self.here = 0;
            self.next += 1;
        }
    }

    /// A point is met, which doesn't lie before the others.
    pub(crate) fn meet(&mut self, cycle: u64)
        requires cycle { cycle ≤ most_number }
        requires few { IsFew most_points self.old }
        ensures { (point : Point) → point.cycle ≡ cycle → CountsPoint self.old point self.new }
    {
        let frame = cycle / FRAME_CYCLES;
        self.pass(frame);
        if self.next == frame {
            self.here += 1;
        }
    }

    /// The points in each whole frame, up to the cycle of the last point.
    pub(crate) fn whole(mut self, last: u64) -> Figures
        requires last { last < most_number }
        requires few { IsFew most_number self }
        ensures value { (first : ℕ) (points : List Point) → Framed self first points → self.next ≡ max (frame_behind first) (last / frame) → result ≡ figures_of (map (points_in points) (whole_frames first last)) }
        ensures few { result.sum ≤ most_number }
    {
        self.pass((last + 1) / FRAME_CYCLES);
        self.over
    }
}
