//! The video chip.

ghost use Rattle.std.specs.Prelude.{min, ◌≡◌, ◌+◌, ◌<◌, ◌^◌, ◌↔◌, ℕ, length, true, false, IsSome, IsTrue, Some};
ghost use Rattle.std.specs.Option.{option_map};
ghost use Rattle.machine.specs.Signals.{int_at, dma_at, efx_at};
ghost use Rattle.vip_video.specs.Chip.{at_start, at_cycle, ended, ended_with};
ghost use Rattle.vip_video.specs.Quiet.{IsQuiet};
ghost use Rattle.vip_video.specs.Parts.{ArePossible, chip_of};

use crate::buffer::Picture;
use crate::parts::VideoParts;
use crate::place::{
    FRAME_CYCLES, INTERRUPT_CYCLE, LINE_CYCLES, Place, Requests, Signals, WINDOW_LINE,
};
use crate::raster::Raster;
use std::marker::Model;

/// A CDP1861 with the picture that it draws and the last one that it finished.
#[derive(Drop)]
pub struct Video {
    // the machine cycles ended so far
    cycles: u64,
    // a cycle up to which the chip has nothing to do but count, the present one or a later one, and its place
    quiet_to: u64,
    place: Place,
    // the display switch now, and as it stood when the last cycle ended
    on: bool,
    cycle_on: bool,
    raster: Raster,
}

impl Model for Video {
    ghost use Rattle.std.specs.Prelude.{◌≡◌, ◌≤◌};
    ghost use Rattle.vip_video.specs.Chip.{Chip};
    ghost use Rattle.vip_video.specs.Place.{frame_place};
    ghost use Rattle.vip_video.specs.Kept.{HasRoom};
    ghost use Rattle.vip_video.specs.Quiet.{AreQuiet};

    ghost Value = { Chip };

    ghost view = { λ a. record { cycles = a.cycles; on = a.on; cycle_on = a.cycle_on; pictures = a.raster } };

    ghost invariant = { λ a. record { ahead : a.cycles ≤ a.quiet_to; place : a.place ≡ frame_place a.quiet_to; quiet : AreQuiet a.on a.cycle_on a.raster.shown a.cycles a.quiet_to; count : a.raster.count ≤ a.cycles; room : HasRoom a.cycles a.raster.lines } };
}

impl Video {
    /// A chip before machine cycle 0, with the display off and no picture.
    pub fn new() -> Video
        ensures { result ≡ at_start }
    {
        Video::before(0, false)
    }

    /// A chip before machine cycle t, with the display on or off, also in that cycle, and no picture. The frame that is under way has a
    /// picture only where its interrupt starts at or after t.
    pub fn before(t: u64, on: bool) -> Video
        ensures { result ≡ at_cycle t on }
    {
        Video {
            cycles: t,
            quiet_to: t,
            place: Place::of(t),
            on,
            cycle_on: on,
            raster: Raster::new(t % FRAME_CYCLES <= INTERRUPT_CYCLE),
        }
    }

    /// A chip of these parts, which are those of a chip between two moves (`VideoParts::are_possible`). It needs no allocator.
    #[inline(always)]
    pub fn from_parts(parts: &VideoParts) -> Video
        requires { ArePossible parts.now }
        ensures { result ≡ chip_of parts.now }
    {
        Video {
            cycles: parts.cycles,
            quiet_to: parts.cycles,
            place: Place::of(parts.cycles),
            on: parts.on,
            cycle_on: parts.on,
            raster: Raster::from_parts(parts),
        }
    }

    /// A chip before machine cycle t, with the display on or off, also in that cycle, made of any parts: without the bytes whose DMA cycles are
    /// still to come, and without pictures of which there are more than cycles. It needs no allocator.
    #[inline(always)]
    pub fn restore(
        t: u64,
        on: bool,
        shown: bool,
        lines: &[[u8; 8]; 128],
        lengths: &[u8; 128],
        count: u64,
        finished: &[[u8; 8]; 128],
    ) -> Video
        ensures cycles { result.cycles ≡ t }
        ensures on { result.on ≡ on }
        ensures cycle_on { result.cycle_on ≡ on }
        ensures shown { result.pictures.shown ≡ shown }
        ensures count { result.pictures.count ≡ min count t }
    {
        Video {
            cycles: t,
            quiet_to: t,
            place: Place::of(t),
            on,
            cycle_on: on,
            raster: Raster::restore(t, shown, lines, lengths, count, finished),
        }
    }

    /// The parts of the chip, whose display is as it was when the last cycle ended.
    #[inline(always)]
    pub fn parts(&self) -> VideoParts
        requires { self.now.cycle_on ≡ self.now.on }
        ensures chip { chip_of result ≡ self.now }
        ensures possible { ArePossible result }
    {
        let (lines, lengths) = self.raster.buffer().parts();
        VideoParts {
            cycles: self.cycles,
            on: self.on,
            shown: self.raster.is_shown(),
            count: self.raster.count(),
            lines: *lines,
            lengths: *lengths,
            finished: self.raster.last().lines,
        }
    }

    /// The number of machine cycles ended so far, which is that of the present cycle.
    pub fn now(&self) -> u64
        ensures { result ≡ self.now.cycles }
    {
        self.cycles
    }

    /// The signals of machine cycle t, with the switch as it stands now.
    pub fn signals(&self, t: u64) -> Signals
        ensures int { result.int ≡ int_at t self.now.on }
        ensures dma { result.dma ≡ dma_at t self.now.on }
        ensures efx { result.efx ≡ efx_at t self.now.on }
    {
        if t == self.quiet_to {
            self.place.signals(self.on)
        } else {
            Place::of(t).signals(self.on)
        }
    }

    /// The requests of the present cycle, with the switch as it stands now.
    #[inline(always)]
    pub fn requests(&self) -> Requests
        ensures int { result.int ≡ int_at self.now.cycles self.now.on }
        ensures dma { result.dma ≡ dma_at self.now.cycles self.now.on }
    {
        if self.cycles < self.quiet_to {
            return Requests {
                int: false,
                dma: false,
            };
        }
        let signals = self.place.signals(self.on);
        Requests {
            int: signals.int,
            dma: signals.dma,
        }
    }

    /// Looks ahead for cycles in which the chip has nothing to do but count, so that they pass without more work. It changes no answer.
    #[inline(always)]
    pub fn look_ahead(&mut self)
        ensures { self.new ≡ self.old }
    {
        if self.cycles < self.quiet_to {
            return;
        }
        if !self.on || !self.cycle_on {
            self.look_ahead_dark();
            return;
        }
        let quiet = self.place.quiet();
        if let Some(quiet_to) = self.cycles.checked_add(u64::from(quiet)) {
            self.quiet_to = quiet_to;
            self.place = Place::of(quiet_to);
        }
    }

    /// The same where the display is off: apart, since a game has it on.
    #[inline(never)]
    fn look_ahead_dark(&mut self)
        ensures { self.new ≡ self.old }
    {
        if self.cycles < self.quiet_to || self.on || self.cycle_on {
            return;
        }
        let dark = self.place.dark(self.raster.is_shown());
        if let Some(quiet_to) = self.cycles.checked_add(u64::from(dark)) {
            self.quiet_to = quiet_to;
            self.place = Place::of(quiet_to);
        }
    }

    /// How many cycles from the present one on are known to have nothing for the chip to do but count.
    #[inline(always)]
    pub fn quiet_ahead(&self) -> u64
        ensures { (k : ℕ) → k < result → IsQuiet self.now.on self.now.cycle_on self.now.pictures.shown (self.now.cycles + k) }
    {
        self.quiet_to - self.cycles
    }

    /// Ends so many cycles at once, in each of which the chip has nothing to do but count.
    #[inline(always)]
    pub fn pass(&mut self, count: u64)
        requires quiet { (k : ℕ) → k < count → IsQuiet self.old.on self.old.cycle_on self.old.pictures.shown (self.old.cycles + k) }
        requires fits { self.old.cycles + count < 2 ^ 64 }
        ensures { self.new ≡ record self.old { cycles = self.old.cycles + count } }
    {
        self.cycles += count;
        if self.quiet_to < self.cycles {
            self.quiet_to = self.cycles;
            self.place = Place::of(self.cycles);
        }
    }

    /// How many DMA cycles the chip requests from the present cycle on, one after another, if the display stays as it is.
    #[inline(always)]
    pub fn dma_ahead(&self) -> u64
        ensures int { (k : ℕ) → k < result → int_at (self.now.cycles + k) self.now.on ≡ false }
        ensures dma { (k : ℕ) → k < result → dma_at (self.now.cycles + k) self.now.on ≡ true }
    {
        if self.cycles < self.quiet_to || !self.on {
            return 0;
        }
        u64::from(self.place.dma_ahead())
    }

    /// Ends machine cycle t, which has to be the number of cycles ended so far. The cycle has the switch that stood when the cycle
    /// before it ended. `byte` is the byte that its DMA cycle put on the bus, and may be given only where `signals(t)` has `dma`.
    #[inline(always)]
    pub fn end_cycle(&mut self, t: u64, byte: Option<u8>)
        requires present { t ≡ self.old.cycles }
        requires fits { t + 1 < 2 ^ 64 }
        requires wanted { IsSome byte → IsTrue (dma_at t self.old.on) }
        ensures { self.new ≡ ended byte self.old }
    {
        match byte {
            Some(byte) if self.cycle_on => self.scan(&[byte]),
            _ => self.end_any(t, byte),
        }
    }

    /// Ends as many machine cycles as there are bytes, one after another, each of which requests DMA and has the display on, with the
    /// byte that each put on the bus. They are of one raster line, so at most eight, and the line doesn't end with them.
    #[inline(always)]
    pub fn scan(&mut self, bytes: &[u8])
        requires fits { self.old.cycles + length bytes.now < 2 ^ 64 }
        requires wanted { (k : ℕ) → k < length bytes.now → dma_at (self.old.cycles + k) self.old.on ≡ true }
        requires shown { self.old.cycle_on ≡ true }
        ensures { self.new ≡ ended_with bytes.now self.old }
    {
        if bytes.is_empty() {
            return;
        }
        self.raster.add_all(self.place.line - WINDOW_LINE, bytes);
        self.cycles += bytes.len() as u64;
        self.quiet_to = self.cycles;
        self.place.column += bytes.len() as u8;
    }

    /// Ends machine cycle t as `end_cycle` does, whatever it is.
    #[inline(always)]
    fn end_any(&mut self, t: u64, byte: Option<u8>)
        requires present { t ≡ self.old.cycles }
        requires fits { t + 1 < 2 ^ 64 }
        requires wanted { IsSome byte → IsTrue (dma_at t self.old.on) }
        ensures { self.new ≡ ended byte self.old }
    {
        if self.cycles < self.quiet_to {
            self.cycles = t + 1;
            return;
        }
        self.raster.draw(&self.place, self.cycle_on, byte);
        self.cycle_on = self.on;
        self.cycles = t + 1;
        self.quiet_to = t + 1;
        self.place = self.place.next();
        if self.place.column == 0 {
            self.raster.begin_line(self.place.line);
        }
    }

    /// Turns the display on or off. The present cycle keeps the switch that it has; the next one has the new one.
    pub fn turn(&mut self, on: bool)
        ensures { self.new ≡ record self.old { on = on } }
    {
        self.on = on;
        self.quiet_to = self.cycles;
        self.place = Place::of(self.cycles);
    }

    /// Whether the display is on.
    pub fn is_on(&self) -> bool
        ensures { result ≡ self.now.on }
    {
        self.on
    }

    /// The number of pictures finished so far.
    pub fn count(&self) -> u64
        ensures { result ≡ self.now.pictures.count }
    {
        self.raster.count()
    }

    /// Lends the last finished picture. None comes exactly where there is none.
    pub fn finished(&self) -> Option<&Picture>
        ensures there { IsSome result ↔ (0 < self.now.pictures.count) }
        ensures picture { option_map (λ p. p.now.lines) result ≡ self.now.pictures.finished }
    {
        self.raster.finished()
    }
}
