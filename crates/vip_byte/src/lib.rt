//! What every text of the program is read with and made of: the lines of a text, the words of a line, the numbers that words write; the
//! halves and sums of machine words with their hexadecimal digits; and the buffer in which a piece of output is made.
//!
//! The crate stands on the kit's `arrayvec`, `hex`, `itoa` and `thiserror` alone and knows nothing of the machine. The layers above may rely on
//! exact answers: what a text of decimal or hexadecimal digits is worth or why it is no number (`specs/Number.antt`), a text's lines and
//! a line's words in order (std's `lines` and `specs/Text.antt`), the upper-case hexadecimal digits of a byte and of a word
//! (`specs/HexText.antt`), and a buffer with the bytes that were appended. What it means to read a text line by line up to its first fault
//! is said once, over the format of the lines (`specs/Reading.antt`). No call takes memory. The formats are this project's profile.
#![tactic(auto)]

mod buffer;
mod line;
mod number;
mod word;

pub use buffer::{BUFFER_SIZE, Buffer, put, put_bit, put_number};
pub use line::{Lines, MOST_TEXT, Words, is_blank};
pub use number::{MOST_CYCLE, NumFault, read_decimal, read_hex};
pub use word::{add16, hex2, hex4, high, low};
