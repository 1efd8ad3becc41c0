//! The memory of the board: 4,096 bytes of RAM, 2,048 bytes of ROM, and the boot latch. It stands on the address map of `machine` alone.
//! The layer above sees two flat lists of bytes and the latch, and may rely on this: a read gives the byte of the address map, a write
//! makes its change and no other, and nothing changes the ROM. The map is that of RCA's instruction manual of the COSMAC VIP; the place and
//! size of the ROM, and what an address without memory reads, are this project's profile.
//!
//! The bytes stand in the struct itself: a memory needs no heap, and its bytes are moved with it.
#![tactic(auto)]

ghost use Rattle.std.specs.Prelude.{◌≡◌, ◌+◌, ◌*◌, ◌<◌, ◌≤◌, ◌⊎◌, ◌↔◌, true, false, length, replicate, slice_set, IfOk, IfSome, IsSome};
ghost use Rattle.machine.specs.Memory.{read, written};
ghost use Rattle.vip_memory.specs.Contents.{loaded, page_at, page_of};

mod latch;

use crate::latch::Latch;
use std::alloc::{AllocError, Global};
use std::marker::Model;

/// How many bytes of RAM there are.
pub const RAM_BYTES: usize = 0x1000;

/// How many bytes of ROM there are.
pub const ROM_BYTES: usize = 0x800;

/// RAM, ROM and the boot latch. Addresses are those of the processor, 0000 to FFFF.
#[derive(Drop)]
pub struct Memory {
    ram: [u8; RAM_BYTES],
    rom: [u8; ROM_BYTES],
    latch: Latch,
}

impl Model for Memory {
    ghost use Rattle.std.specs.Prelude.{◌≡◌, length};
    ghost use Rattle.vip_memory.specs.Contents.{Contents};

    ghost Value = { Contents };

    ghost view = { λ a. record { ram = a.ram; rom = a.rom; latch = a.latch } };

    ghost invariant = { λ a. record { ram : length a.ram ≡ 0x1000; rom : length a.rom ≡ 0x800 } };
}

/// The bytes of RAM after reset.
fn no_bytes() -> [u8; RAM_BYTES]
    ensures { result ≡ replicate 0x1000 0 }
{
    [0; RAM_BYTES]
}

impl Memory {
    /// A memory with these bytes of RAM and ROM, whose boot latch is set or clear. It needs no allocator.
    #[inline(always)]
    pub fn of(ram: &[u8; RAM_BYTES], rom: &[u8; ROM_BYTES], latch: bool) -> Memory
        ensures { result ≡ record { ram = ram.now; rom = rom.now; latch = latch } }
    {
        Memory {
            ram: *ram,
            rom: *rom,
            latch: Latch::of(latch),
        }
    }

    /// A memory after reset with the 2,048 bytes of `rom`: RAM is 00 and the latch is set. It takes nothing of the allocator, and
    /// never fails.
    pub fn new(_alloc: Global, rom: &[u8]) -> Result<Memory, AllocError>
        requires { length rom.now ≡ 0x800 }
        ensures { IfOk result (λ m. m ≡ record { ram = replicate 0x1000 0; rom = rom.now; latch = true }) }
    {
        let mut bytes = [0; ROM_BYTES];
        bytes.copy_from_slice(rom);
        Ok(Memory {
            ram: no_bytes(),
            rom: bytes,
            latch: Latch::of(true),
        })
    }

    /// The byte that an address reads: RAM at 0000 to 0FFF, ROM at 8000 to 87FF, and FF elsewhere; while the latch is set, address a
    /// reads as address a OR 8000.
    #[inline(always)]
    #[tactic(auto, unfolding(machine::specs::Memory::read))]
    pub fn read(&self, address: u16) -> u8
        ensures { result ≡ read self.now.rom self.now.latch self.now.ram address }
    {
        let place = self.latch.place(address);
        if place < 0x1000 {
            self.ram[usize::from(place)]
        } else if 0x8000 <= place && place < 0x8800 {
            self.rom[usize::from(place - 0x8000)]
        } else {
            0xFF
        }
    }

    /// Puts a byte into RAM, whatever the latch is.
    #[inline(always)]
    fn put(&mut self, address: u16, value: u8)
        requires { address < 0x1000 }
        ensures { self.new ≡ record self.old { ram = slice_set self.old.ram address value } }
    {
        self.ram[usize::from(address)] = value;
    }

    /// Writes a byte into RAM. At an address outside RAM, and everywhere while the latch is set, it does nothing.
    #[tactic(auto, unfolding(machine::specs::Memory::written))]
    pub fn write(&mut self, address: u16, value: u8)
        ensures { self.new ≡ record self.old { ram = written self.old.latch self.old.ram address value } }
    {
        if !self.latch.is_set() && address < 0x1000 {
            self.put(address, value);
        }
    }

    /// Puts bytes into RAM from an address on, whatever the latch is. They have to fit below address 1000.
    pub fn load(&mut self, address: u16, bytes: &[u8])
        requires { address + length bytes.now ≤ 0x1000 }
        ensures { self.new ≡ record self.old { ram = loaded self.old.ram address bytes.now } }
    {
        let start = usize::from(address);
        self.ram[start..start + bytes.len()].copy_from_slice(bytes);
    }

    /// Clears the boot latch. Nothing sets it again.
    pub fn clear_latch(&mut self)
        ensures { self.new ≡ record self.old { latch = false } }
    {
        self.latch.clear();
    }

    /// Whether the boot latch is set.
    pub fn latch_set(&self) -> bool
        ensures { result ≡ self.now.latch }
    {
        self.latch.is_set()
    }

    /// Lends the bytes of RAM, whatever the latch is.
    #[inline(always)]
    pub fn ram(&self) -> &[u8; RAM_BYTES]
        ensures { result.now ≡ self.now.ram }
    {
        &self.ram
    }

    /// Lends the bytes of ROM, whatever the latch is.
    #[inline(always)]
    pub fn rom(&self) -> &[u8; ROM_BYTES]
        ensures { result.now ≡ self.now.rom }
    {
        &self.rom
    }

    /// The bytes of both memories, which no write changes: a fact, and no code.
    pub fn sizes(&self)
        ensures ram { length self.now.ram ≡ 0x1000 }
        ensures rom { length self.now.rom ≡ 0x800 }
    {
        let _ = &self.ram;
    }

    /// Lends the 256 bytes of the page whose addresses have the high byte `high`, whatever the latch is: a page of RAM for 00 to 0F,
    /// one of ROM for 80 to 87, and None for every other.
    pub fn page(&self, high: u8) -> Option<&[u8]>
        ensures there { IsSome result ↔ ((high < 0x10) ⊎ ((0x80 ≤ high) × (high < 0x88))) }
        ensures bytes { IfSome result (λ s. s.now ≡ page_of self.now high) }
        ensures size { IfSome result (λ s. length s.now ≡ 256) }
    {
        match high {
            0x00..=0x0F => Some(page_in(&self.ram, usize::from(high))),
            0x80..=0x87 => Some(page_in(&self.rom, usize::from(high - 0x80))),
            _ => None,
        }
    }
}

/// Lends page n of some bytes.
fn page_in(bytes: &[u8], n: usize) -> &[u8]
    requires { n * 256 + 256 ≤ length bytes.now }
    ensures bytes { result.now ≡ page_at bytes.now n }
    ensures size { length result.now ≡ 256 }
{
    &bytes[n * 256..n * 256 + 256]
}
