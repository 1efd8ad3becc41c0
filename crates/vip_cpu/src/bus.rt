//! What a CDP1802 is wired to.

ghost use Rattle.std.specs.Prelude.{◌≡◌, ◌≢◌, ◌≤◌, ◌⊎◌, ℕ, Bool};

/// Memory, ports and flags as the processor sees them.
///
/// A bus means a byte for each address from 0 to 65535 and the flags EF1 to EF4. For each of `write`, `out` and `inp` it also means a
/// relation between the bus before, the arguments, the answer and the bus after; `Cpu::cycle` says by these relations which calls it
/// made, and in which order. The three laws say that a write changes no byte but the one at its address, which becomes the value or
/// stays, and that an input changes no byte.
pub trait Bus {
    // the byte at each address, and whether each of EF1 to EF4 is active
    ghost byte: { Self → ℕ → ℕ };

    ghost flags: { Self → ℕ → Bool };

    // the bus before, the address or the port, the byte written, sent or received, and the bus after
    ghost writes: { Self → ℕ → ℕ → Self → Type 0 };

    ghost sends: { Self → ℕ → ℕ → Self → Type 0 };

    ghost receives: { Self → ℕ → ℕ → Self → Type 0 };

    /// The byte at an address.
    fn read(&self, address: u16) -> u8
        ensures { result ≡ byte self.now address };

    /// A memory write.
    fn write(&mut self, address: u16, value: u8)
        ensures { writes self.old address value self.new };

    /// OUT: the port, 1 to 7, is sent a byte.
    fn out(&mut self, port: u8, value: u8)
        requires from_1 { 1 ≤ port }
        requires to_7 { port ≤ 7 }
        ensures { sends self.old port value self.new };

    /// INP: the byte that the port, 1 to 7, puts on the bus.
    fn inp(&mut self, port: u8) -> u8
        requires from_1 { 1 ≤ port }
        requires to_7 { port ≤ 7 }
        ensures { receives self.old port result self.new };

    /// Whether a flag, 1 to 4, is active. A bus may find that out and keep it, but means the same after.
    fn ef(&mut self, flag: u8) -> bool
        requires from_1 { 1 ≤ flag }
        requires to_4 { flag ≤ 4 }
        ensures active { result ≡ flags self.old flag }
        ensures kept { self.new ≡ self.old };

    ghost write_keeps: { (b : Self) (a v : ℕ) (c : Self) → writes b a v c → (k : ℕ) → k ≢ a → byte c k ≡ byte b k };

    ghost write_puts: { (b : Self) (a v : ℕ) (c : Self) → writes b a v c → (byte c a ≡ v) ⊎ (byte c a ≡ byte b a) };

    ghost inp_keeps: { (b : Self) (p v : ℕ) (c : Self) → receives b p v c → (k : ℕ) → byte c k ≡ byte b k };
}
