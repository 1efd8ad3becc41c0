//! Pictures, and the buffer in which one is drawn.

ghost use Rattle.std.specs.Prelude.{◌≡◌, ◌+◌, ◌≤◌, ◌<◌, ◌++◌, ℕ, List, [], length, map, replicate, slice_index_or, slice_set, take, IfSome};
ghost use Rattle.machine.specs.Pictures.{filled};
ghost use Rattle.vip_video.specs.Chip.{blank, with_bytes, with_byte};
ghost use Rattle.vip_video.specs.Kept.{HasRoom};
ghost use Rattle.vip_video.specs.Place.{frame_place};
ghost use Rattle.vip_video.specs.Lines.{so_far, AreFilled};

use crate::place::Place;
use std::marker::Model;

/// A picture: 128 lines of 8 bytes, the top line first, and in a byte the highest bit leftmost.
#[derive(Clone, Copy)]
pub struct Picture {
    pub lines: [[u8; 8]; 128],
}

impl Picture {
    /// A picture with all bytes 00.
    pub(crate) fn blank() -> Picture
        ensures { result.lines ≡ replicate 128 (replicate 8 0) }
    {
        Picture {
            lines: [[0; 8]; 128],
        }
    }

    /// Writes bytes into a line, 0 to 127, behind those that come first in it, of which there are so many.
    #[inline(always)]
    fn write(&mut self, line: usize, place: usize, bytes: &[u8])
        requires line { line < 128 }
        requires room { place + length bytes.now ≤ 8 }
        ensures { (first : List ℕ) → length first ≡ place → slice_index_or self.old.lines line [] ≡ filled first → self.new.lines ≡ slice_set self.old.lines line (filled (first ++ bytes.now)) }
    {
        for (k, byte) in bytes.iter().enumerate() {
            self.lines[line][place + k] = *byte;
        }
    }
}

/// No byte in each of the 128 lines.
fn no_bytes() -> [u8; 128]
    ensures { result ≡ replicate 128 0 }
{
    [0; 128]
}

/// The DMA bytes of each line of a frame so far, seen as a list of bytes for each line.
#[derive(Drop)]
pub struct FrameBuffer {
    // the bytes of each line, followed by 00
    picture: Picture,
    // how many bytes each line has
    lengths: [u8; 128],
}

impl Model for FrameBuffer {
    ghost use Rattle.std.specs.Prelude.{◌≡◌, ℕ, List, length};
    ghost use Rattle.vip_video.specs.Lines.{so_far, AreFilled};

    ghost Value = { List (List ℕ) };

    ghost view = { λ a. so_far a.picture.lines a.lengths };

    ghost invariant = { λ a. record { lines : length a.picture.lines ≡ 128; lengths : length a.lengths ≡ 128; filled : AreFilled a.picture.lines a.lengths } };
}

impl FrameBuffer {
    /// A buffer with no bytes.
    pub fn new() -> FrameBuffer
        ensures { result ≡ blank }
    {
        FrameBuffer {
            picture: Picture::blank(),
            lengths: no_bytes(),
        }
    }

    /// A buffer with these bytes in each line, of which so many have come, and the others are 00.
    #[inline(always)]
    pub fn of(lines: &[[u8; 8]; 128], lengths: &[u8; 128]) -> FrameBuffer
        requires { AreFilled lines.now lengths.now }
        ensures { result ≡ so_far lines.now lengths.now }
    {
        FrameBuffer {
            picture: Picture { lines: *lines },
            lengths: *lengths,
        }
    }

    /// The bytes of each line, filled with 00 up to eight, and how many have come in each.
    #[inline(always)]
    pub fn parts(&self) -> (&[[u8; 8]; 128], &[u8; 128])
        ensures lines { so_far result.0.now result.1.now ≡ self.now }
        ensures filled { AreFilled result.0.now result.1.now }
    {
        (&self.picture.lines, &self.lengths)
    }

    /// A buffer for a frame in which cycle t comes next, with the first bytes of each line: as many as there are by `lengths`, and at most as
    /// many as the DMA cycles before cycle t can have given.
    pub fn restore(place: &Place, lines: &[[u8; 8]; 128], lengths: &[u8; 128]) -> FrameBuffer
        ensures { (t : ℕ) → place.now ≡ frame_place t → HasRoom t result }
    {
        let mut buffer = FrameBuffer::new();
        for line in 0..128 {
            let count = lengths[usize::from(line)].min(place.most_bytes(line));
            buffer.begin(line, lines[usize::from(line)], count);
        }
        buffer
    }

    /// Adds the first `count` of eight bytes to a line, 0 to 127, that has none.
    #[inline(always)]
    fn begin(&mut self, line: u16, bytes: [u8; 8], count: u8)
        requires line { line < 128 }
        requires count { count ≤ 8 }
        requires empty { length (slice_index_or self.old line []) ≡ 0 }
        ensures { self.new ≡ with_bytes line (take count bytes) self.old }
    {
        self.extend(line, &bytes[..usize::from(count)]);
    }

    /// Adds a byte, if there is one, to a line, 0 to 127, that has fewer than eight.
    pub fn draw(&mut self, line: u16, byte: Option<u8>)
        requires { IfSome byte (λ _. (line < 128) × (length (slice_index_or self.old line []) < 8)) }
        ensures { self.new ≡ with_byte line byte self.old }
    {
        if let Some(byte) = byte {
            self.extend(line, &[byte]);
        }
    }

    /// Adds bytes to a line, 0 to 127, that has at most eight with them.
    #[inline(always)]
    pub fn extend(&mut self, line: u16, bytes: &[u8])
        requires line { line < 128 }
        requires room { length (slice_index_or self.old line []) + length bytes.now ≤ 8 }
        ensures { self.new ≡ with_bytes line bytes.now self.old }
    {
        let line = line as usize;
        let place = self.lengths[line];
        self.picture.write(line, place as usize, bytes);
        self.lengths[line] = place + bytes.len() as u8;
    }

    /// Takes all bytes away.
    pub fn clear(&mut self)
        ensures { self.new ≡ blank }
    {
        self.picture = Picture::blank();
        self.lengths = no_bytes();
    }

    /// The picture of the bytes, each line filled with 00 up to eight.
    pub fn picture(&self) -> &Picture
        ensures { result.now.lines ≡ map filled self.now }
    {
        &self.picture
    }
}
