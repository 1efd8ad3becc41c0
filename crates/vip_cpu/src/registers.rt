//! The registers of the CDP1802, and what instructions, DMA and interrupts make of them.

ghost use Rattle.std.specs.Prelude.{◌≡◌, ℕ, ◌+◌, ◌-◌, ◌*◌, ◌/◌, ◌%◌, ◌<◌, ◌==◌, if◌then◌else◌, true, false};
ghost use Rattle.machine.specs.Bank.{word, word_of, up, get, put, zeros, bank_of};
ghost use Rattle.machine.specs.Instruction.{Regs, at, with_reg, stepped, stepped_back, loaded, df_d, regs_after_reset, after_dma, interrupted, branched, long_branched, skipped, returned, marked};
ghost use Rattle.machine.specs.Ranges.{FitsBank, FitsRegs};
ghost use Rattle.machine.specs.Bit.{bit};
ghost use Rattle.vip_cpu.specs.Parts.{regs_of};

use std::marker::Model;

/// The registers that a processor is made of, at a boundary. Interrupts are then enabled, and it doesn't idle.
#[derive(Clone, Copy)]
pub struct Parts {
    /// R(0) to R(F).
    pub r: [u16; 16],
    /// D, the accumulator.
    pub d: u8,
    /// T, which holds (X,P) after an interrupt or MARK.
    pub t: u8,
    /// X, the number of the data pointer, below 16.
    pub x: u8,
    /// P, the number of the program counter, below 16.
    pub p: u8,
    /// DF, the carry of D.
    pub df: bool,
    /// Q, the output flip-flop.
    pub q: bool,
}

/// R(0) to R(F), seen as words of two bytes.
#[derive(Drop)]
struct Scratchpad {
    numbers: [u16; 16],
}

impl Model for Scratchpad {
    ghost use Rattle.std.specs.Prelude.{◌≡◌, length};
    ghost use Rattle.machine.specs.Bank.{Bank, bank_of};

    ghost Value = { Bank };

    ghost view = { λ a. bank_of a.numbers };

    ghost invariant = { λ a. length a.numbers ≡ 16 };
}

/// Numbers of 16 bits are words of two bytes.
fn words(numbers: &[u16])
    ensures { FitsBank (bank_of numbers.now) }
{}

#[tactic(auto, using(crate::proofs::Banks::of_banks))]
impl Scratchpad {
    /// All 0.
    fn new() -> Scratchpad
        ensures { result ≡ zeros }
    {
        Scratchpad { numbers: [0; 16] }
    }

    /// The sixteen numbers, R(0) first.
    fn of(numbers: [u16; 16]) -> Scratchpad
        ensures bank { result ≡ bank_of numbers }
        ensures fits { FitsBank result }
    {
        words(&numbers);
        Scratchpad { numbers }
    }

    /// R(n).
    fn get(&self, n: u8) -> u16
        requires { n < 16 }
        ensures { get self.now n ≡ word_of result }
    {
        self.numbers[usize::from(n % 16)]
    }

    /// R(n) = number.
    fn set(&mut self, n: u8, number: u16)
        requires { n < 16 }
        ensures { self.new ≡ put self.old n (word_of number) }
    {
        self.numbers[usize::from(n % 16)] = number;
    }
}

/// All registers of the processor, and whether it idles.
#[derive(Drop)]
pub struct Registers {
    r: Scratchpad,
    d: u8,
    t: u8,
    p: u8,
    x: u8,
    df: bool,
    q: bool,
    ie: bool,
    idle: bool,
}

impl Model for Registers {
    ghost use Rattle.std.specs.Prelude.{◌<◌};
    ghost use Rattle.machine.specs.Instruction.{Regs};
    ghost use Rattle.machine.specs.Bit.{bit};

    ghost Value = { Regs };

    ghost view = { λ a. record { r = a.r; d = a.d; df = bit a.df; p = a.p; x = a.x; t = a.t; q = a.q; ie = a.ie; idle = a.idle } };

    ghost invariant = { λ a. (a.p < 16) × (a.x < 16) };
}

/// Where a short branch whose second byte is at this address goes on. The sum says it by a distance, since clang 22.1.8 loses the high
/// byte of a number with a new low byte where it chooses between that and another.
fn branch_target(address: u16, taken: bool, next: u8) -> u16
    ensures { word_of result ≡ (if taken then word (word_of address).hi next else up (word_of address)) }
{
    let distance = if taken {
        (next as u16).wrapping_sub(address % 256)
    } else {
        1
    };
    address.wrapping_add(distance)
}

/// A byte is below 256.
fn byte(value: u8) -> u8
    ensures value { result ≡ value }
    ensures below { result < 256 }
{
    value
}

#[tactic(auto, using(crate::proofs::Words::of_words))]
impl Registers {
    /// After reset.
    pub fn reset() -> Registers
        ensures { result ≡ regs_after_reset }
    {
        Registers {
            r: Scratchpad::new(),
            d: 0,
            t: 0,
            p: 0,
            x: 0,
            df: false,
            q: false,
            ie: true,
            idle: false,
        }
    }

    /// With these parts, interrupts enabled, and not idling.
    pub fn of(parts: &Parts) -> Registers
        requires p { parts.now.p < 16 }
        requires x { parts.now.x < 16 }
        ensures registers { result ≡ regs_of parts.now }
        ensures fits { FitsRegs result }
    {
        Registers {
            r: Scratchpad::of(parts.r),
            d: byte(parts.d),
            t: byte(parts.t),
            p: parts.p,
            x: parts.x,
            df: parts.df,
            q: parts.q,
            ie: true,
            idle: false,
        }
    }

    /// Enables interrupts or disables them, and lets the processor idle or not.
    pub fn switch(&mut self, interrupts: bool, idle: bool)
        ensures { self.new ≡ record self.old { ie = interrupts; idle = idle } }
    {
        self.ie = interrupts;
        self.idle = idle;
    }

    // ---- what they hold

    /// R(n).
    pub fn r(&self, n: u8) -> u16
        requires { n < 16 }
        ensures number { result ≡ at self.now n }
        ensures word { get self.now.r n ≡ word_of result }
    {
        self.r.get(n)
    }

    /// R(P), the address of the next byte of the program.
    pub fn program_counter(&self) -> u16
        ensures { result ≡ at self.now self.now.p }
    {
        self.r(self.p)
    }

    /// R(X), the address of the operand.
    pub fn data_pointer(&self) -> u16
        ensures { result ≡ at self.now self.now.x }
    {
        self.r(self.x)
    }

    /// R(n).0.
    pub fn low(&self, n: u8) -> u8
        requires { n < 16 }
        ensures { result ≡ (get self.now.r n).lo }
    {
        (self.r(n) % 256) as u8
    }

    /// R(n).1.
    pub fn high(&self, n: u8) -> u8
        requires { n < 16 }
        ensures { result ≡ (get self.now.r n).hi }
    {
        (self.r(n) / 256) as u8
    }

    pub fn d(&self) -> u8
        ensures { result ≡ self.now.d }
    {
        self.d
    }

    pub fn df(&self) -> bool
        ensures number { bit result ≡ self.now.df }
        ensures set { result ≡ (self.now.df == 1) }
    {
        self.df
    }

    pub fn t(&self) -> u8
        ensures { result ≡ self.now.t }
    {
        self.t
    }

    pub fn p(&self) -> u8
        ensures value { result ≡ self.now.p }
        ensures below { result < 16 }
    {
        self.p
    }

    pub fn x(&self) -> u8
        ensures value { result ≡ self.now.x }
        ensures below { result < 16 }
    {
        self.x
    }

    pub fn q(&self) -> bool
        ensures { result ≡ self.now.q }
    {
        self.q
    }

    pub fn ie(&self) -> bool
        ensures { result ≡ self.now.ie }
    {
        self.ie
    }

    pub fn idle(&self) -> bool
        ensures { result ≡ self.now.idle }
    {
        self.idle
    }

    // ---- one register

    /// R(n) = number.
    fn set(&mut self, n: u8, number: u16)
        requires { n < 16 }
        ensures { self.new ≡ with_reg self.old n (word_of number) }
    {
        self.r.set(n, number);
    }

    /// R(n) = (high, low).
    fn set_bytes(&mut self, n: u8, high: u8, low: u8)
        requires { n < 16 }
        ensures { self.new ≡ with_reg self.old n (word high low) }
    {
        self.set(n, high as u16 * 256 + low as u16);
    }

    /// R(n) + 1.
    pub fn increment(&mut self, n: u8)
        requires { n < 16 }
        ensures { self.new ≡ stepped self.old n }
    {
        self.set(n, self.r(n).wrapping_add(1));
    }

    /// R(n) - 1.
    pub fn decrement(&mut self, n: u8)
        requires { n < 16 }
        ensures { self.new ≡ stepped_back self.old n }
    {
        self.set(n, self.r(n).wrapping_sub(1));
    }

    /// R(n).0 = D.
    pub fn put_low(&mut self, n: u8)
        requires { n < 16 }
        ensures { self.new ≡ with_reg self.old n (word (get self.old.r n).hi self.old.d) }
    {
        self.set_bytes(n, self.high(n), self.d);
    }

    /// R(n).1 = D.
    pub fn put_high(&mut self, n: u8)
        requires { n < 16 }
        ensures { self.new ≡ with_reg self.old n (word self.old.d (get self.old.r n).lo) }
    {
        self.set_bytes(n, self.d, self.low(n));
    }

    /// D = byte.
    pub fn load(&mut self, byte: u8)
        ensures { self.new ≡ loaded self.old byte }
    {
        self.d = byte;
    }

    pub fn set_p(&mut self, n: u8)
        requires { n < 16 }
        ensures { self.new ≡ record self.old { p = n } }
    {
        self.p = n;
    }

    pub fn set_x(&mut self, n: u8)
        requires { n < 16 }
        ensures { self.new ≡ record self.old { x = n } }
    {
        self.x = n;
    }

    pub fn set_q(&mut self, on: bool)
        ensures { self.new ≡ record self.old { q = on } }
    {
        self.q = on;
    }

    /// IDL.
    pub fn start_idling(&mut self)
        ensures { self.new ≡ record self.old { idle = true } }
    {
        self.idle = true;
    }

    // ---- D and DF

    /// DF, D = a + b + the carry.
    pub fn add(&mut self, a: u8, b: u8, carry: bool)
        ensures { self.new ≡ df_d self.old (a + b + bit carry) }
    {
        let sum = a as u16 + b as u16 + carry as u16;
        self.d = (sum % 256) as u8;
        self.df = sum > 255;
    }

    /// DF, D = a - b - the borrow; DF is 1 where there was no borrow.
    pub fn subtract(&mut self, a: u8, b: u8, borrow: bool)
        ensures { self.new ≡ df_d self.old (a + 256 - b - bit borrow) }
    {
        let difference = a as u16 + 256 - b as u16 - borrow as u16;
        self.d = (difference % 256) as u8;
        self.df = difference > 255;
    }

    /// D is shifted right: `top` enters, and the bit lost becomes DF.
    pub fn shift_right(&mut self, top: bool)
        ensures { self.new ≡ record self.old { d = self.old.d / 2 + 128 * bit top; df = self.old.d % 2 } }
    {
        let old = self.d;
        self.d = old / 2 + 128 * top as u8;
        self.df = old % 2 == 1;
    }

    /// D is shifted left: `bottom` enters, and the bit lost becomes DF.
    pub fn shift_left(&mut self, bottom: bool)
        ensures { self.new ≡ df_d self.old (self.old.d * 2 + bit bottom) }
    {
        let old = self.d;
        self.d = (old as u16 * 2 % 256) as u8 + bottom as u8;
        self.df = old >= 128;
    }

    // ---- branches and skips

    /// A short branch: R(P).0 = next where it is taken, else R(P) + 1.
    pub fn branch(&mut self, taken: bool, next: u8)
        ensures { self.new ≡ branched self.old taken next }
    {
        let address = self.r(self.p);
        self.set(self.p, branch_target(address, taken, next));
    }

    /// A long branch: R(P) = (next, after) where it is taken, else R(P) + 2.
    pub fn long_branch(&mut self, taken: bool, next: u8, after: u8)
        ensures { self.new ≡ long_branched self.old taken next after }
    {
        if taken {
            self.set_bytes(self.p, next, after);
        } else {
            self.skip_two();
        }
    }

    /// A long skip: R(P) + 2 where it applies.
    pub fn skip(&mut self, applies: bool)
        ensures { self.new ≡ skipped self.old applies }
    {
        if applies {
            self.skip_two();
        }
    }

    /// R(P) + 2.
    fn skip_two(&mut self)
        ensures { self.new ≡ skipped self.old true }
    {
        self.set(self.p, self.program_counter().wrapping_add(2));
    }

    // ---- interrupt and DMA

    /// The byte (X,P).
    fn xp(&self) -> u8
        ensures { result ≡ self.now.x * 16 + self.now.p }
    {
        self.x * 16 + self.p
    }

    /// RET and DIS: X and P are the halves of the byte that R(X) points to; R(X) + 1, and IE.
    pub fn return_to(&mut self, byte: u8, enable: bool)
        ensures { self.new ≡ returned self.old byte enable }
    {
        self.increment(self.x);
        self.x = byte / 16;
        self.p = byte % 16;
        self.ie = enable;
    }

    /// MARK: T = (X,P), X = P, R(2) - 1. Answers (X,P), which goes to where R(2) pointed.
    pub fn mark(&mut self) -> u8
        ensures byte { result ≡ self.old.x * 16 + self.old.p }
        ensures marked { self.new ≡ marked self.old }
    {
        let xp = self.xp();
        self.decrement(2);
        self.t = xp;
        self.x = self.p;
        xp
    }

    /// An interrupt cycle: T = (X,P), P = 1, X = 2, IE = 0; idling ends.
    pub fn interrupt(&mut self)
        ensures { self.new ≡ interrupted self.old }
    {
        self.t = self.xp();
        self.p = 1;
        self.x = 2;
        self.ie = false;
        self.idle = false;
    }

    /// A DMA cycle: R(0) + 1; idling ends.
    pub fn dma(&mut self)
        ensures { self.new ≡ after_dma self.old }
    {
        self.increment(0);
        self.idle = false;
    }
}
