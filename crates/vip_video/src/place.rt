//! A place in the frame, and the signals there. The exact places are this project's profile.

ghost use Rattle.std.specs.Prelude.{◌≡◌, ◌+◌, ◌-◌, ◌≤◌, ◌<◌, ℕ};
ghost use Rattle.machine.specs.Signals.{window_line, window_end_line, int_at, dma_at, efx_at};
ghost use Rattle.vip_video.specs.Place.{frame_place};
ghost use Rattle.vip_video.specs.Quiet.{HasNothing, IsDark, RequestsDma};
ghost use Rattle.vip_video.specs.Chip.{needs_display};

/// The machine cycles of a raster line.
pub const LINE_CYCLES: u64 = 14;

/// The raster lines of a frame.
pub const FRAME_LINES: u64 = 262;

// The same, as places count them.
const LINE: u16 = LINE_CYCLES as u16;

const FRAME: u16 = FRAME_LINES as u16;

/// The first line of the interrupt request.
pub const INTERRUPT_LINE: u16 = 78;

/// The first line of the display window.
pub const WINDOW_LINE: u16 = 80;

/// The line behind the display window.
pub const WINDOW_END_LINE: u16 = 208;

/// The machine cycles of a frame; its cycle in which the interrupt starts, and that at which the window has ended.
pub const FRAME_CYCLES: u64 = FRAME_LINES * LINE_CYCLES;

pub const INTERRUPT_CYCLE: u64 = INTERRUPT_LINE as u64 * LINE_CYCLES;

pub const WINDOW_END_CYCLE: u64 = WINDOW_END_LINE as u64 * LINE_CYCLES;

// The last line of a frame, and the last machine cycle of a line.
const LAST_LINE: u16 = FRAME - 1;

const LAST_COLUMN: u8 = LINE_CYCLES as u8 - 1;

// EFX: so many lines before the window, and so many at its end.
const EFX_LINES: u16 = 4;

// The first DMA cycle of a line of the window, and the cycle behind the last one.
const DMA_COLUMN: u8 = 2;

const DMA_END_COLUMN: u8 = 10;

/// What the chip tells the board in a machine cycle.
#[derive(Clone, Copy)]
pub struct Signals {
    /// The interrupt request.
    pub int: bool,
    /// The request for a DMA cycle.
    pub dma: bool,
    /// The flag that the board wires to EF1.
    pub efx: bool,
}

/// What the chip requests of the processor in a machine cycle.
#[derive(Clone, Copy)]
pub struct Requests {
    /// The interrupt request.
    pub int: bool,
    /// The request for a DMA cycle.
    pub dma: bool,
}

/// A machine cycle's place in the frame.
#[derive(Clone, Copy)]
pub struct Place {
    /// The raster line, 0 to 261.
    pub line: u16,
    /// The machine cycle in the line, 0 to 13.
    pub column: u8,
}

impl Place {
    /// The place of machine cycle t.
    pub fn of(t: u64) -> Place
        ensures { result ≡ frame_place t }
    {
        Place {
            line: (t / LINE_CYCLES % FRAME_LINES) as u16,
            column: (t % LINE_CYCLES) as u8,
        }
    }

    /// The place of the next machine cycle.
    pub fn next(&self) -> Place
        ensures { (t : ℕ) → self.now ≡ frame_place t → result ≡ frame_place (t + 1) }
    {
        if self.column < LAST_COLUMN {
            Place {
                line: self.line,
                column: self.column + 1,
            }
        } else {
            Place {
                line: if self.line < LAST_LINE {
                    self.line + 1
                } else {
                    0
                },
                column: 0,
            }
        }
    }

    /// Whether a picture needs the display on here: from the start of the interrupt up to the end of the window.
    pub fn needs_display(&self) -> bool
        ensures { (t : ℕ) → self.now ≡ frame_place t → result ≡ needs_display t }
    {
        INTERRUPT_LINE <= self.line && self.line < WINDOW_END_LINE
    }

    /// The signals at the place, with this display switch.
    pub fn signals(&self, on: bool) -> Signals
        ensures int { (t : ℕ) → self.now ≡ frame_place t → result.int ≡ int_at t on }
        ensures dma { (t : ℕ) → self.now ≡ frame_place t → result.dma ≡ dma_at t on }
        ensures efx { (t : ℕ) → self.now ≡ frame_place t → result.efx ≡ efx_at t on }
    {
        let line = self.line;
        let column = self.column;
        let is_in_window = WINDOW_LINE <= line && line < WINDOW_END_LINE;
        Signals {
            int: on && INTERRUPT_LINE <= line && line < WINDOW_LINE,
            dma: on && is_in_window && DMA_COLUMN <= column && column < DMA_END_COLUMN,
            efx: on
                && (WINDOW_LINE - EFX_LINES <= line && line < WINDOW_LINE
                    || WINDOW_END_LINE - EFX_LINES <= line && line < WINDOW_END_LINE),
        }
    }

    /// How many cycles from here on have no request, whatever the switch, and begin no frame and end no window behind them. It may miss
    /// some.
    pub fn quiet(&self) -> u16
        ensures { (t : ℕ) → self.now ≡ frame_place t → (k : ℕ) → k < result → HasNothing (t + k) }
    {
        let line = self.line;
        let column = u16::from(self.column);
        if line < INTERRUPT_LINE {
            ((INTERRUPT_LINE - line) * LINE).saturating_sub(column)
        } else if line < WINDOW_LINE {
            0
        } else if line < WINDOW_END_LINE {
            self.quiet_in_window()
        } else {
            (FRAME.saturating_sub(line) * LINE).saturating_sub(column + 1)
        }
    }

    /// How many cycles from here on change no picture with the display off, where the frame's picture is shown so far or isn't. It may miss some.
    pub fn dark(&self, shown: bool) -> u16
        ensures { (t : ℕ) → self.now ≡ frame_place t → (k : ℕ) → k < result → IsDark shown (t + k) }
    {
        let line = self.line;
        let column = u16::from(self.column);
        if shown && line < INTERRUPT_LINE {
            ((INTERRUPT_LINE - line) * LINE).saturating_sub(column)
        } else if shown && line < WINDOW_END_LINE {
            0
        } else {
            (FRAME.saturating_sub(line) * LINE).saturating_sub(column + 1)
        }
    }

    /// The same in the window: from the DMA cycles of a line up to those of the next one.
    fn quiet_in_window(&self) -> u16
        requires from { window_line ≤ self.now.line }
        requires to { self.now.line < window_end_line }
        ensures { (t : ℕ) → self.now ≡ frame_place t → (k : ℕ) → k < result → HasNothing (t + k) }
    {
        let column = u16::from(self.column);
        let first = u16::from(DMA_COLUMN);
        if column < first {
            first - column
        } else if self.column < DMA_END_COLUMN {
            0
        } else if self.line < WINDOW_END_LINE - 1 {
            (LINE + first).saturating_sub(column)
        } else {
            (LINE - 1).saturating_sub(column)
        }
    }

    /// The most bytes that a line of the picture, 0 to 127, can have here: those of its DMA cycles before.
    #[inline(always)]
    pub fn most_bytes(&self, line: u16) -> u8
        requires { line < 128 }
        ensures few { result ≤ 8 }
        ensures later { self.now.line < window_line + line → result ≡ 0 }
        ensures present { self.now.line ≡ window_line + line → result ≤ self.now.column - 2 }
    {
        if self.line < WINDOW_LINE + line {
            0
        } else if self.line == WINDOW_LINE + line {
            self.column.saturating_sub(DMA_COLUMN).min(8)
        } else {
            8
        }
    }

    /// How many DMA cycles the chip requests from here on, one after another, where the display is on.
    pub fn dma_ahead(&self) -> u8
        ensures { (t : ℕ) → self.now ≡ frame_place t → (k : ℕ) → k < result → RequestsDma (t + k) }
    {
        let is_in_window = WINDOW_LINE <= self.line && self.line < WINDOW_END_LINE;
        if is_in_window && DMA_COLUMN <= self.column {
            DMA_END_COLUMN.saturating_sub(self.column)
        } else {
            0
        }
    }
}
