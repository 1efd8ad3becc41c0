//! The CDP1861 video chip by machine cycles. The crate stands on `machine` alone, which defines the signals by the number of the machine
//! cycle. It knows nothing of the board: the caller ends each cycle by `end_cycle`, with the byte that a DMA cycle put on the bus, or DMA
//! cycles one after another by `scan`. The layer above may rely on this: the signals are those of the definitions, and `specs/Chip.antt`
//! says what each call makes of the chip. The standard is RCA's data sheet of the CDP1861: "Signal Descriptions", "Display".
//!
//! ```text
//!     line    0 ┌──────────────────────────────┐
//!            76 │ EFX                          │
//!            78 │ EFX, INT                     │  a picture needs the display on from here to line 207
//!            80 │ DMA in cycles 2 to 9         │  the window, 128 lines of 8 bytes: the picture
//!           204 │ DMA in cycles 2 to 9, EFX    │
//!           208 │ a picture is finished        │
//!           261 └──────────────────────────────┘
//! ```
//!
//! A line has 14 machine cycles and a frame 262 lines. The exact places in a frame are this project's profile, and so is that the
//! display is off at first. While it is off no signal is active.
//!
//! A frame has a picture exactly where the display was on in each cycle from the start of its interrupt to the end of its window; the
//! picture holds the DMA bytes of each line in order, followed by 00 up to eight. A chip may be made at any cycle; a frame whose interrupt
//! started before it has no picture.
#![tactic(auto)]

mod buffer;
mod parts;
mod place;
mod raster;
mod video;

pub use buffer::Picture;
pub use parts::VideoParts;
pub use place::{
    FRAME_CYCLES, FRAME_LINES, INTERRUPT_CYCLE, INTERRUPT_LINE, LINE_CYCLES, Requests, Signals,
    WINDOW_END_CYCLE, WINDOW_END_LINE, WINDOW_LINE,
};
pub use video::Video;
