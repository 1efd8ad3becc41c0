//! Bytes of a ROM that are changed on purpose.

use hex::FromHex;

/// The first address of the ROM.
pub const ROM: u16 = 0x8000;

/// Puts bytes into a ROM: each word has the four digits of an address and the two of its byte.
pub fn change(rom: &mut [u8; 2048], words: &str) -> Option<()> {
    for word in words.split_whitespace() {
        let [high, low, byte] = <[u8; 3]>::from_hex(word).ok()?;
        let place = u16::from_be_bytes([high, low]).wrapping_sub(ROM);
        *rom.get_mut(usize::from(place))? = byte;
    }
    Some(())
}
