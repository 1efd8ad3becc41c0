//! Appending to a buffer that has room.

ghost use Rattle.std.specs.Prelude.{◌≡◌, ◌+◌, ◌*◌, ◌≤◌, ◌++◌, length};
ghost use Rattle.arrayvec.specs.ArrayVec.{array_vec_len};
ghost use Rattle.vip_byte.specs.Room.{HasRoom};
ghost use Rattle.vip_byte.specs.HexText.{bytes_text, words_text};

use vip_byte::{Buffer, hex2, hex4, put};

/// Appends each byte in two digits, behind a blank.
pub fn put_bytes(into: &mut Buffer, bytes: &[u8])
    requires { HasRoom into.old.items (3 * length bytes.now) }
    ensures items { into.new.items ≡ into.old.items ++ bytes_text bytes.now }
    ensures len { array_vec_len into.new ≡ array_vec_len into.old + 3 * length bytes.now }
{
    for byte in bytes {
        let [first, second] = hex2(*byte);
        put(into, &[b' ', first, second]);
    }
}

/// Appends each word in four digits, behind a blank.
pub fn put_words(into: &mut Buffer, words: &[u16])
    requires { HasRoom into.old.items (5 * length words.now) }
    ensures items { into.new.items ≡ into.old.items ++ words_text words.now }
    ensures len { array_vec_len into.new ≡ array_vec_len into.old + 5 * length words.now }
{
    for word in words {
        let [first, second, third, fourth] = hex4(*word);
        put(into, &[b' ', first, second, third, fourth]);
    }
}
