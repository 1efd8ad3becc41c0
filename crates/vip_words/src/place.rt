//! An address of an instruction set's programs.

ghost use Rattle.std.specs.Prelude.{◌≡◌, ◌≤◌};
ghost use Rattle.asm_lex.specs.Ranges.{last_of, origin_of};
ghost use Rattle.vip_words.specs.Asked.{place_of};

use asm_lex::Isa;
use std::marker::Model;
use vip_byte::read_hex;

/// An address of an instruction set's programs, with the instruction set.
#[derive(Clone, Copy)]
pub struct Place {
    isa: Isa,
    address: u16,
}

impl Model for Place {
    ghost use Rattle.std.specs.Prelude.{◌≤◌};
    ghost use Rattle.asm_lex.specs.Ranges.{last_of, origin_of};
    ghost use Rattle.vip_words.specs.Numbers.{Place};

    ghost Value = { Place };

    ghost view = { λ place. record { isa = place.isa; address = place.address } };

    ghost invariant = { λ place. (origin_of place.isa ≤ place.address) × (place.address ≤ last_of place.isa) };

    ghost inverse = { λ place. record { isa = place.isa; address = place.address } };
}

impl Place {
    /// The address that hexadecimal digits say.
    pub fn read(isa: Isa, word: &[u8]) -> Option<Place>
        ensures { result ≡ place_of isa word.now }
    {
        let (least, most) = match isa {
            Isa::Cdp1802 => (0x0000, 0xFFFF),
            Isa::Chip8 => (0x0200, 0x0FFF),
        };
        let address = read_hex(word, most).ok()?;
        if address < least {
            return None;
        }
        Some(Place {
            isa,
            address: address as u16,
        })
    }

    /// The instruction set.
    pub fn isa(self) -> Isa
        ensures { result ≡ self.isa }
    {
        self.isa
    }

    /// The address.
    pub fn address(self) -> u16
        ensures value { result ≡ self.address }
        ensures least { origin_of self.isa ≤ result }
        ensures most { result ≤ last_of self.isa }
    {
        self.address
    }
}
