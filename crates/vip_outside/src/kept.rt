//! The reads of files in memory.

/// What a read came to.
#[derive(Drop)]
pub enum Answer {
    /// All bytes of the file.
    Whole(Vec<u8>),

    /// Its first bytes, of which there are more.
    Start(Vec<u8>),

    /// There is no file of this name.
    Lacked,

    /// A fault.
    Faulted,
}

/// A read: the name, and what it came to.
#[derive(Drop)]
pub struct Kept {
    pub name: String,
    pub answer: Answer,
}
