//! The halves and sums of machine words, and their hexadecimal digits, which `hex` writes with lower-case letters.

ghost use Rattle.std.specs.Prelude.{◌≡◌, ◌+◌, ◌/◌, ◌%◌};
ghost use Rattle.vip_byte.specs.HexText as text;

/// The high four bits of a byte, as a number below 16.
pub fn high(byte: u8) -> u8
    ensures { result ≡ byte / 16 }
{
    byte >> 4
}

/// The low four bits of a byte, as a number below 16.
pub fn low(byte: u8) -> u8
    ensures { result ≡ byte % 16 }
{
    byte & 0x0F
}

/// The sum modulo 65536, as the machine's 16-bit registers and addresses add.
pub fn add16(a: u16, b: u16) -> u16
    ensures { result ≡ (a + b) % 65536 }
{
    a.wrapping_add(b)
}

/// The two hexadecimal digits of a byte, the highest first, with upper-case letters.
#[inline(always)]
pub fn hex2(value: u8) -> [u8; 2]
    ensures { result ≡ text.hex2 value }
{
    let mut digits = [0; 2];
    // (Ok, since there is room for both)
    let _ = hex::encode_to_slice([value], &mut digits);
    digits.make_ascii_uppercase();
    digits
}

/// The four hexadecimal digits of a word, the highest first, with upper-case letters.
#[inline(always)]
pub fn hex4(value: u16) -> [u8; 4]
    ensures { result ≡ text.hex4 value }
{
    let mut digits = [0; 4];
    // (Ok, since there is room for all four)
    let _ = hex::encode_to_slice(value.to_be_bytes(), &mut digits);
    digits.make_ascii_uppercase();
    digits
}
