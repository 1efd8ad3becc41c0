//! Appending to a buffer that has room.

ghost use Rattle.std.specs.Prelude.{◌≡◌, ◌+◌, ◌-◌, ◌*◌, ◌≤◌, ◌<◌, ◌++◌, length, replicate, decimal, flat_map};
ghost use Rattle.arrayvec.specs.ArrayVec.{array_vec_len};
ghost use Rattle.vip_byte.specs.HexText.{hex2};
ghost use Rattle.vip_byte.specs.Room.{HasRoom};
ghost use Rattle.vip_program.specs.Columns.{digit, right};

use itoa::Buffer as Digits;
use vip_byte::{Buffer, hex2, put};

/// Appends so many blanks.
pub fn put_blanks(into: &mut Buffer, count: usize)
    requires { HasRoom into.old.items count }
    ensures items { into.new.items ≡ into.old.items ++ replicate count 32 }
    ensures len { array_vec_len into.new ≡ array_vec_len into.old + count }
{
    for _blank in 0..count {
        into.push(b' ');
    }
}

/// Appends blanks behind a text that begins at `start`, where it has fewer bytes than its column is wide.
pub fn fill(into: &mut Buffer, start: usize, width: usize)
    requires begun { start ≤ array_vec_len into.old }
    requires room { HasRoom into.old.items width }
    ensures items { into.new.items ≡ into.old.items ++ replicate (width - (array_vec_len into.old - start)) 32 }
    ensures len { array_vec_len into.new ≡ array_vec_len into.old + (width - (array_vec_len into.old - start)) }
{
    let count = width.saturating_sub(into.len() - start);
    put_blanks(into, count);
}

/// Appends a number below 16 as one hexadecimal digit.
pub fn put_digit(into: &mut Buffer, number: u8)
    requires below { number < 16 }
    requires room { HasRoom into.old.items 1 }
    ensures items { into.new.items ≡ into.old.items ++ digit number }
    ensures len { array_vec_len into.new ≡ array_vec_len into.old + 1 }
{
    put(into, &hex2(number)[1..]);
}

/// Appends a number in decimal at the right of a column of ten.
pub fn put_right(into: &mut Buffer, number: u64)
    requires few { number < 10_000_000_000 }
    requires room { HasRoom into.old.items 10 }
    ensures items { into.new.items ≡ into.old.items ++ right 10 (decimal number) }
    ensures len { array_vec_len into.new ≡ array_vec_len into.old + 10 }
{
    let mut digits = Digits::new();
    let text = digits.format(number).as_bytes();
    put_blanks(into, 10 - text.len());
    put(into, text);
}

/// Appends each byte in two digits.
pub fn put_digits(into: &mut Buffer, bytes: &[u8])
    requires { HasRoom into.old.items (2 * length bytes.now) }
    ensures items { into.new.items ≡ into.old.items ++ flat_map hex2 bytes.now }
    ensures len { array_vec_len into.new ≡ array_vec_len into.old + 2 * length bytes.now }
{
    for byte in bytes {
        put(into, &hex2(*byte));
    }
}
