//! The parts of a video chip as plain data.

/// What a chip between two moves is made of: the display is as it was when the last cycle ended.
#[derive(Clone, Copy)]
pub struct VideoParts {
    /// The number of machine cycles ended so far.
    pub cycles: u64,
    /// Whether the display is on.
    pub on: bool,
    /// Whether the display was on in each cycle of the present frame so far that its picture needs.
    pub shown: bool,
    /// How many pictures are finished.
    pub count: u64,
    /// The DMA bytes of the present frame so far: in each line those that have come, followed by 00.
    pub lines: [[u8; 8]; 128],
    /// How many have come in each line, 0 to 8.
    pub lengths: [u8; 128],
    /// The last finished picture. It counts for nothing where none is finished.
    pub finished: [[u8; 8]; 128],
}
