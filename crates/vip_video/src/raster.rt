//! The picture that is drawn and the last one that was finished.

ghost use Rattle.std.specs.Prelude.{min, ◌≡◌, ◌+◌, ◌-◌, ◌%◌, ◌≤◌, ◌<◌, ◌^◌, ◌↔◌, ◌&&◌, ◌||◌, not, ◌==◌, if◌then◌else◌, ℕ, [], length, slice_index_or, None, Some, IfSome, IsSome};
ghost use Rattle.std.specs.Option.{option_map};
ghost use Rattle.machine.specs.Signals.{line_cycles, window_line, window_end_line, line_of};
ghost use Rattle.vip_video.specs.Lines.{AreFilled};
ghost use Rattle.vip_video.specs.Parts.{chip_of};
ghost use Rattle.vip_video.specs.Place.{frame_place};
ghost use Rattle.vip_video.specs.Kept.{HasRoom};
ghost use Rattle.vip_video.specs.Chip.{needs_display, nothing_yet, with_bytes, drawn, passed, framed, finished};

use crate::buffer::{FrameBuffer, Picture};
use crate::parts::VideoParts;
use crate::place::{Place, WINDOW_END_LINE, WINDOW_LINE};
use std::marker::Model;

/// What the chip has of pictures.
#[derive(Drop)]
pub struct Raster {
    // the display was on in each cycle of this frame so far that needs it on
    shown: bool,
    buffer: FrameBuffer,
    // how many pictures are finished, and the last of them
    count: u64,
    finished: Picture,
}

impl Model for Raster {
    ghost use Rattle.vip_video.specs.Chip.{Pictures};

    ghost Value = { Pictures };

    ghost use Rattle.vip_video.specs.Kept.{pictures_of};

    ghost view = { pictures_of };
}

/// Whether the display is on in a cycle at this place, or isn't needed there.
fn is_shown(place: &Place, on: bool) -> bool
    ensures { (t : ℕ) → place.now ≡ frame_place t → result ≡ (on || not (needs_display t)) }
{
    on || !place.needs_display()
}

impl Raster {
    /// No picture yet, and no byte of a frame, which may have one later or not.
    pub fn new(shown: bool) -> Raster
        ensures { result ≡ record nothing_yet { shown = shown } }
    {
        Raster {
            shown,
            buffer: FrameBuffer::new(),
            count: 0,
            finished: Picture::blank(),
        }
    }

    /// What a chip of these parts has of pictures.
    #[inline(always)]
    pub fn from_parts(parts: &VideoParts) -> Raster
        requires { AreFilled parts.now.lines parts.now.lengths }
        ensures { result ≡ (chip_of parts.now).pictures }
    {
        Raster {
            shown: parts.shown,
            buffer: FrameBuffer::of(&parts.lines, &parts.lengths),
            count: parts.count,
            finished: Picture {
                lines: parts.finished,
            },
        }
    }

    /// The DMA bytes of this frame so far.
    #[inline(always)]
    pub fn buffer(&self) -> &FrameBuffer
        ensures { result.now ≡ self.now.lines }
    {
        &self.buffer
    }

    /// Lends the last finished picture, which counts for nothing where there is none.
    #[inline(always)]
    pub fn last(&self) -> &Picture
        ensures { (if self.now.count == 0 then None else Some result.now.lines) ≡ self.now.finished }
    {
        &self.finished
    }

    /// The same before machine cycle t of any parts: without the bytes whose DMA cycles are still to come, and without pictures of which there
    /// are more than cycles.
    #[inline(always)]
    pub fn restore(
        t: u64,
        shown: bool,
        lines: &[[u8; 8]; 128],
        lengths: &[u8; 128],
        count: u64,
        finished: &[[u8; 8]; 128],
    ) -> Raster
        ensures shown { result.shown ≡ shown }
        ensures room { HasRoom t result.lines }
        ensures count { result.count ≡ min count t }
    {
        Raster {
            shown,
            buffer: FrameBuffer::restore(&Place::of(t), lines, lengths),
            count: count.min(t),
            finished: Picture { lines: *finished },
        }
    }

    /// Whether the display was on in each cycle of this frame so far that needs it on.
    pub fn is_shown(&self) -> bool
        ensures { result ≡ self.now.shown }
    {
        self.shown
    }

    /// A cycle at a place, with its display switch and the byte of its DMA cycle, if it is one. The byte needs a line of the picture
    /// that has fewer than eight.
    pub fn draw(&mut self, place: &Place, on: bool, byte: Option<u8>)
        requires { IfSome byte (λ _. (place.now.line < window_end_line) × (length (slice_index_or self.old.lines (place.now.line - window_line) []) < 8)) }
        ensures { (t : ℕ) → place.now ≡ frame_place t → self.new ≡ drawn t on byte self.old }
    {
        if !is_shown(place, on) {
            self.shown = false;
        }
        self.buffer
            .draw(place.line.saturating_sub(WINDOW_LINE), byte);
    }

    /// Adds the bytes of DMA cycles that are shown to a line of the picture, which has at most eight with them.
    #[inline(always)]
    pub fn add_all(&mut self, line: u16, bytes: &[u8])
        requires line { line < 128 }
        requires room { length (slice_index_or self.old.lines line []) + length bytes.now ≤ 8 }
        ensures { self.new ≡ record self.old { lines = with_bytes line bytes.now self.old.lines } }
    {
        self.buffer.extend(line, bytes);
    }

    /// What the start of a line does: a picture is finished after the window, and the lines begin anew with the frame.
    pub fn begin_line(&mut self, line: u16)
        requires { self.old.count + 1 < 2 ^ 64 }
        ensures { (t : ℕ) → t % line_cycles ≡ 0 → line_of t ≡ line → self.new ≡ passed t self.old }
    {
        if line == 0 {
            self.begin_frame();
        }
        if line == WINDOW_END_LINE && self.shown {
            self.finish();
        }
    }

    fn begin_frame(&mut self)
        ensures { self.new ≡ framed self.old }
    {
        self.shown = true;
        self.buffer.clear();
    }

    fn finish(&mut self)
        requires { self.old.count + 1 < 2 ^ 64 }
        ensures { self.new ≡ finished self.old }
    {
        self.count += 1;
        self.finished = *self.buffer.picture();
    }

    /// The number of pictures finished so far.
    pub fn count(&self) -> u64
        ensures { result ≡ self.now.count }
    {
        self.count
    }

    /// Lends the last finished picture. None comes exactly where there is none.
    pub fn finished(&self) -> Option<&Picture>
        ensures there { IsSome result ↔ (0 < self.now.count) }
        ensures picture { option_map (λ p. p.now.lines) result ≡ self.now.finished }
    {
        if self.count == 0 {
            None
        } else {
            Some(&self.finished)
        }
    }
}
