//! The buffer in which a piece of output is made, and appending to it.

ghost use Rattle.std.specs.Prelude.{◌≡◌, ◌+◌, ◌≤◌, ◌++◌, length, decimal};
ghost use Rattle.arrayvec.specs.ArrayVec.{array_vec_len};
ghost use Rattle.vip_byte.specs.Room.{HasRoom};
ghost use Rattle.vip_byte.specs.Text.{bit_text};

use arrayvec::ArrayVec;
use itoa::Buffer as Digits;

/// The most bytes of a piece of text that is put out at once. The longest is a screen of 64 rows with 65 characters each.
pub const BUFFER_SIZE: usize = 4_352;

/// Room for a piece of text, without taking memory.
pub type Buffer = ArrayVec<u8, BUFFER_SIZE>;

/// Appends these bytes.
pub fn put(into: &mut Buffer, bytes: &[u8])
    requires { HasRoom into.old.items (length bytes.now) }
    ensures items { into.new.items ≡ into.old.items ++ bytes.now }
    ensures len { array_vec_len into.new ≡ array_vec_len into.old + length bytes.now }
{
    let _ = into.try_extend_from_slice(bytes);
}

/// Appends a bit as the digit 0 or 1.
pub fn put_bit(into: &mut Buffer, bit: bool)
    requires { HasRoom into.old.items 1 }
    ensures items { into.new.items ≡ into.old.items ++ bit_text bit }
    ensures len { array_vec_len into.new ≡ array_vec_len into.old + 1 }
{
    put(into, if bit { b"1" } else { b"0" });
}

/// Appends a number in decimal.
pub fn put_number(into: &mut Buffer, number: u64)
    requires { HasRoom into.old.items 40 }
    ensures items { into.new.items ≡ into.old.items ++ decimal number }
    ensures len { array_vec_len into.new ≤ array_vec_len into.old + 40 }
{
    let mut digits = Digits::new();
    put(into, digits.format(number).as_bytes());
}
