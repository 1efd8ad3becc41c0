//! The board.

ghost use Rattle.std.specs.Prelude.{◌≡◌, ◌+◌, ◌-◌, ◌⊎◌, ◌≤◌, ◌<◌, ◌^◌, ◌↔◌, ℕ, true, false, [], IsTrue, IfOk, length, take};
ghost use Rattle.machine.specs.Instruction.{at};
ghost use Rattle.machine.specs.Ranges.{FitsMachine, FitsRom};
ghost use Rattle.machine.specs.Signals.{int_at, dma_at};
ghost use Rattle.vip_video.specs.Quiet.{IsQuiet};
ghost use Rattle.vip_board.specs.Shown.{HasPictures, HasPicturesSince, CarriesOn};
ghost use Rattle.vip_board.specs.Seen.{byte_in};

use crate::port::{Joined, Wire};
use crate::stops::Stops;
use crate::wires::Wires;
use std::alloc::{AllocError, Global};
use std::marker::Model;
use vip_cpu::{Bus, Cpu, Did, Next, Parts, Phase, plain_cycles};
use vip_isa::cycles;
use vip_keypad::{Keypad, Keys, Script};
use vip_memory::Memory;
use vip_video::{Requests, Video};

/// A move, the atomic step of the board: one DMA cycle, one interrupt cycle, one idle cycle, or one whole instruction with the address
/// of its opcode.
#[derive(Clone, Copy, PartialEq, Eq)]
pub enum Move {
    Dma,
    Interrupt,
    Idle,
    Instruction(u16),
}

/// What `to_boundary` did: it made a move, or the next move would have ended after the limit.
#[derive(Clone, Copy, PartialEq, Eq)]
pub enum Moved {
    Done(Move),
    End,
}

/// The switches of a machine.
#[derive(Clone, Copy)]
pub struct Switches {
    /// Whether the boot latch is set.
    pub latch: bool,
    /// Whether the display is on.
    pub display: bool,
    /// Whether interrupts are enabled.
    pub interrupts: bool,
    /// Whether the processor idles.
    pub idle: bool,
}

/// A memory with 2,048 bytes of ROM and 4,096 of RAM, whose boot latch is set or clear.
fn memory_with(alloc: Global, rom: &[u8], ram: &[u8], latch: bool) -> Result<Memory, AllocError>
    requires rom { length rom.now ≡ 0x800 }
    requires ram { length ram.now ≡ 0x1000 }
    ensures { IfOk result (λ m. m ≡ record { ram = ram.now; rom = rom.now; latch = latch }) }
{
    let mut memory = Memory::new(alloc, rom)?;
    memory.load(0, ram);
    if !latch {
        memory.clear_latch();
    }
    Ok(memory)
}

/// A keypad with a key script and a latched key, below 16.
fn keypad_with(alloc: Global, script: &Script, key: u8) -> Result<Keypad<Script>, AllocError>
    requires { key < 16 }
    ensures { IfOk result (λ k. k ≡ record { script = script.now; latched = key }) }
{
    let mut keypad = Keypad::new(alloc, script)?;
    keypad.latch(key);
    Ok(keypad)
}

/// The byte that a DMA cycle put on the bus.
fn byte_in(did: Did) -> Option<u8>
    ensures { result ≡ byte_in did }
{
    match did {
        Did::Dma(byte) => Some(byte),
        _ => None,
    }
}

/// A board with its ROM and what holds its keys down: a key script, where nothing else is said.
#[derive(Drop)]
pub struct Board<K: Keys = Script> {
    cpu: Cpu,
    wires: Wires<K>,
}

impl<K: Keys> Model for Board<K> {
    ghost use Rattle.std.specs.Prelude.{◌≡◌};
    ghost use Rattle.vip_board.specs.Seen.{Seen};

    ghost Value = { Seen };

    ghost use Rattle.vip_board.specs.Wired.{seen_of};

    ghost view = { λ a. seen_of a.cpu a.wires };

    ghost invariant = { λ a. a.wires.video.cycle_on ≡ a.wires.video.on };
}

impl Board<Script> {
    ghost use Rattle.machine.specs.Board.{after_reset};
    ghost use Rattle.vip_cpu.specs.Parts.{regs_of};
    ghost use Rattle.vip_video.specs.Chip.{nothing_yet, nothing_before};

    /// A board after reset, at a boundary, with a ROM of 2,048 bytes and a key script.
    pub fn reset(alloc: Global, rom: &[u8], script: &Script) -> Result<Board<Script>, AllocError>
        requires { length rom.now ≡ 0x800 }
        ensures board { IfOk result (λ b. b ≡ record { machine = after_reset; phase = Phase.Boundary; pictures = nothing_yet; rom = rom.now; script = script.now }) }
        ensures pictures { IfOk result (λ b. HasPictures b.rom [] b.machine.cycle b.pictures) }
        ensures fits { IfOk result (λ b. FitsMachine b.machine × FitsRom b.rom) }
    {
        let memory = Memory::new(alloc, rom)?;
        let keypad = Keypad::new(alloc, script)?;
        let video = Video::new();
        let cpu = Cpu::reset();
        Ok(Board {
            cpu,
            wires: Wires {
                memory,
                video,
                keypad,
            },
        })
    }

    /// A board at a boundary before machine cycle t, whose processor has these parts: with a ROM of 2,048 bytes, a key script, 4,096
    /// bytes of RAM and a latched key, below 16; X and P are below 16 too. Interrupts are enabled, the processor doesn't idle, the boot latch
    /// is clear, and the display is on. There is no picture yet, and the frame that is under way has one only where its interrupt starts at
    /// or after t.
    pub fn restore(
        alloc: Global,
        rom: &[u8],
        script: &Script,
        parts: &Parts,
        ram: &[u8],
        key: u8,
        t: u64,
    ) -> Result<Board<Script>, AllocError>
        requires rom { length rom.now ≡ 0x800 }
        requires ram { length ram.now ≡ 0x1000 }
        requires key { key < 16 }
        requires p { parts.now.p < 16 }
        requires x { parts.now.x < 16 }
        ensures board { IfOk result (λ b. b ≡ record { machine = record { regs = regs_of parts.now; ram = ram.now; latch = false; on = true; key = key; cycle = t }; phase = Phase.Boundary; pictures = nothing_before t; rom = rom.now; script = script.now }) }
        ensures pictures { IfOk result (λ b. HasPicturesSince t b.rom [] b.machine.cycle b.pictures) }
        ensures fits { IfOk result (λ b. FitsMachine b.machine × FitsRom b.rom) }
    {
        let switches = Switches {
            latch: false,
            display: true,
            interrupts: true,
            idle: false,
        };
        Board::stand(alloc, rom, script, parts, ram, key, t, switches)
    }

    /// A board that stands at a boundary before machine cycle t, in any machine: with a processor of these parts, a ROM of 2,048 bytes, a key script, 4,096
    /// bytes of RAM, a latched key, below 16, and these switches; X and P are below 16 too. There is no picture yet.
    pub fn stand(
        alloc: Global,
        rom: &[u8],
        script: &Script,
        parts: &Parts,
        ram: &[u8],
        key: u8,
        t: u64,
        switches: Switches,
    ) -> Result<Board<Script>, AllocError>
        requires rom { length rom.now ≡ 0x800 }
        requires ram { length ram.now ≡ 0x1000 }
        requires key { key < 16 }
        requires p { parts.now.p < 16 }
        requires x { parts.now.x < 16 }
        ensures board { IfOk result (λ b. b ≡ record { machine = record { regs = record (regs_of parts.now) { ie = switches.interrupts; idle = switches.idle }; ram = ram.now; latch = switches.latch; on = switches.display; key = key; cycle = t }; phase = Phase.Boundary; pictures = nothing_before t; rom = rom.now; script = script.now }) }
        ensures fits { IfOk result (λ b. FitsMachine b.machine × FitsRom b.rom) }
    {
        let memory = memory_with(alloc, rom, ram, switches.latch)?;
        let keypad = keypad_with(alloc, script, key)?;
        let video = Video::before(t, switches.display);
        let mut cpu = Cpu::from_parts(parts);
        cpu.switch(switches.interrupts, switches.idle);
        Ok(Board {
            cpu,
            wires: Wires {
                memory,
                video,
                keypad,
            },
        })
    }
}

impl<K: Keys> Board<K> {
    ghost use Rattle.vip_memory.specs.Contents.{loaded};
    ghost use Rattle.vip_board.specs.Seen.{cycle_of, cycled};

    /// A board of these chips, which stand where they stand: its cycle is that of the video chip, whose display is as it was when the
    /// last cycle ended. It needs no allocator.
    #[inline(always)]
    pub fn of(cpu: Cpu, memory: Memory, video: Video, keypad: Keypad<K>) -> Board<K>
        requires { video.cycle_on ≡ video.on }
        ensures { result ≡ record { machine = record { regs = cpu.regs; ram = memory.ram; latch = memory.latch; on = video.on; key = keypad.latched; cycle = video.cycles }; phase = cpu.phase; pictures = video.pictures; rom = memory.rom; script = keypad.script } }
    {
        Board {
            cpu,
            wires: Wires {
                memory,
                video,
                keypad,
            },
        }
    }

    /// Puts bytes into RAM from an address on, whatever the latch is. They have to fit below address 1000.
    pub fn load(&mut self, address: u16, bytes: &[u8])
        requires { address + length bytes.now ≤ 0x1000 }
        ensures { self.new ≡ record self.old { machine = record self.old.machine { ram = loaded self.old.machine.ram address bytes.now } } }
    {
        self.wires.memory.load(address, bytes);
    }

    /// Clears the boot latch, as OUT 4 does. Nothing sets it again.
    pub fn clear_latch(&mut self)
        ensures { self.new ≡ record self.old { machine = record self.old.machine { latch = false } } }
    {
        self.wires.memory.clear_latch();
    }

    /// The number of machine cycles since reset.
    pub fn now(&self) -> u64
        ensures { result ≡ self.now.machine.cycle }
    {
        self.wires.video.now()
    }

    /// The processor.
    pub fn cpu(&self) -> &Cpu
        ensures { result.now ≡ record { regs = self.now.machine.regs; phase = self.now.phase } }
    {
        &self.cpu
    }

    /// The memory.
    pub fn memory(&self) -> &Memory
        ensures { result.now ≡ record { ram = self.now.machine.ram; rom = self.now.rom; latch = self.now.machine.latch } }
    {
        &self.wires.memory
    }

    /// The keypad.
    pub fn keypad(&self) -> &Keypad<K>
        ensures { result.now ≡ record { script = self.now.script; latched = self.now.machine.key } }
    {
        &self.wires.keypad
    }

    /// The video chip.
    pub fn video(&self) -> &Video
        ensures { result.now ≡ record { cycles = self.now.machine.cycle; on = self.now.machine.on; cycle_on = self.now.machine.on; pictures = self.now.pictures } }
    {
        &self.wires.video
    }

    /// Makes one machine cycle, the next one of the move that the board is in or starts. Answers what kind of cycle it
    /// was.
    pub fn cycle(&mut self) -> Did
        requires { self.old.machine.cycle + 1 < 2 ^ 64 }
        ensures board { self.new ≡ cycled self.old }
        ensures did { result ≡ (cycle_of self.old).did }
    {
        let now = self.wires.video.now();
        let requests = self.wires.video.requests();
        let did = self.cpu.cycle(&mut self.wires, requests.dma, requests.int);
        self.wires.video.end_cycle(now, byte_in(did));
        did
    }

    /// The requests of the present cycle.
    #[inline(always)]
    fn requests(&self) -> Requests
        ensures int { result.int ≡ int_at self.now.machine.cycle self.now.machine.on }
        ensures dma { result.dma ≡ dma_at self.now.machine.cycle self.now.machine.on }
    {
        self.wires.video.requests()
    }

    /// Makes the first machine cycle of a move, which has these requests.
    #[inline(always)]
    fn begin(&mut self, requests: Requests) -> Did
        requires boundary { self.old.phase ≡ Phase.Boundary }
        requires fits { self.old.machine.cycle + 1 < 2 ^ 64 }
        requires int { requests.int ≡ int_at self.old.machine.cycle self.old.machine.on }
        requires dma { requests.dma ≡ dma_at self.old.machine.cycle self.old.machine.on }
        ensures board { self.new ≡ cycled self.old }
        ensures did { result ≡ (cycle_of self.old).did }
    {
        let now = self.wires.video.now();
        let did = self.cpu.begin(&self.wires, requests.dma, requests.int);
        self.wires.video.end_cycle(now, byte_in(did));
        did
    }

    /// Makes one machine cycle of an instruction after its fetch. No request is looked at in it.
    #[inline(always)]
    fn go_on(&mut self)
        requires fits { self.old.machine.cycle + 1 < 2 ^ 64 }
        requires middle { self.old.phase ≡ Phase.Boundary → ⊥ }
        ensures { self.new ≡ cycled self.old }
    {
        let now = self.wires.video.now();
        self.cpu.cycle(&mut self.wires, false, false);
        self.wires.video.end_cycle(now, None);
    }
}

impl<K: Keys> Board<K> {
    ghost use Rattle.machine.specs.Board.{length_of};
    ghost use Rattle.vip_board.specs.Moves.{name_of, moved, moved_by, sleeps, IfDone, StartsInstruction, Aside, Made, Works, Worked, taken_by, dma_bytes};
    ghost use Rattle.vip_board.specs.Seen.{contents_of};

    /// The name of the next move, by the requests of the present cycle.
    #[inline(always)]
    fn next_by(&self, requests: Requests) -> Move
        requires int { requests.int ≡ int_at self.now.machine.cycle self.now.machine.on }
        requires dma { requests.dma ≡ dma_at self.now.machine.cycle self.now.machine.on }
        ensures { result ≡ name_of self.now.machine }
    {
        match self.cpu.next(requests.dma, requests.int) {
            Next::Dma => Move::Dma,
            Next::Interrupt => Move::Interrupt,
            Next::Idle => Move::Idle,
            Next::Fetch => Move::Instruction(self.counter()),
        }
    }

    /// The name of the next move. The board is at a boundary.
    pub fn next_move(&self) -> Move
        ensures { result ≡ name_of self.now.machine }
    {
        self.next_by(self.requests())
    }

    /// Whether the next move is an instruction. The board is at a boundary.
    pub fn next_is_instruction(&self) -> bool
        requires { self.now.phase ≡ Phase.Boundary }
        ensures { IsTrue result ↔ StartsInstruction self.now.machine }
    {
        match self.next_move() {
            Move::Instruction(_) => true,
            Move::Dma | Move::Interrupt | Move::Idle => false,
        }
    }

    /// Whether the processor idles and no signal can wake it, since the display is off.
    #[inline(always)]
    pub fn sleeps(&self) -> bool
        ensures { result ≡ sleeps self.now.machine }
    {
        self.cpu.idle() && !self.wires.video.is_on()
    }

    /// The address of the next opcode, R(P).
    #[inline(always)]
    fn counter(&self) -> u16
        ensures { result ≡ at self.now.machine.regs self.now.machine.regs.p }
    {
        self.cpu.r(self.cpu.p())
    }

    /// The machine cycles of the next move. The board is at a boundary.
    pub fn next_length(&self) -> u64
        ensures { result ≡ length_of self.now.rom self.now.machine }
    {
        self.length_by(self.requests())
    }

    /// The machine cycles of the next move, by the requests of the present cycle.
    #[inline(always)]
    fn length_by(&self, requests: Requests) -> u64
        requires int { requests.int ≡ int_at self.now.machine.cycle self.now.machine.on }
        requires dma { requests.dma ≡ dma_at self.now.machine.cycle self.now.machine.on }
        ensures { result ≡ length_of self.now.rom self.now.machine }
    {
        match self.next_by(requests) {
            Move::Dma => 1,
            Move::Interrupt => 1,
            Move::Idle => 1,
            Move::Instruction(address) => u64::from(cycles(self.wires.read(address))),
        }
    }

    /// Lets the video chip look ahead for cycles in which it has nothing to do but count.
    #[inline(always)]
    fn look_ahead(&mut self)
        ensures { self.new ≡ self.old }
    {
        self.wires.video.look_ahead();
    }

    /// Makes the next move, which takes so many cycles, and names it. The requests are those of its first cycle.
    #[inline(always)]
    fn make(&mut self, requests: Requests, length: u64) -> Move
        requires boundary { self.old.phase ≡ Phase.Boundary }
        requires long { length ≡ length_of self.old.rom self.old.machine }
        requires fits { self.old.machine.cycle + length < 2 ^ 64 }
        requires int { requests.int ≡ int_at self.old.machine.cycle self.old.machine.on }
        requires dma { requests.dma ≡ dma_at self.old.machine.cycle self.old.machine.on }
        ensures moved { self.new ≡ moved self.old }
        ensures named { result ≡ name_of self.old.machine }
    {
        let address = self.counter();
        match self.begin(requests) {
            Did::Dma(_) => Move::Dma,
            Did::Interrupt => Move::Interrupt,
            Did::Idle => Move::Idle,
            Did::Fetch => {
                if length == 3 {
                    self.go_on();
                }
                self.go_on();
                Move::Instruction(address)
            }
            Did::Execute => unreachable!(),
        }
    }

    /// Makes the next move and names it, or answers `End` where it would end after cycle `limit` and changes nothing. The board is at a
    /// boundary, before and after. Where the video chip had the pictures of the moves made so far, it has them after this move too.
    #[inline(always)]
    pub fn to_boundary(&mut self, limit: u64) -> Moved
        requires { self.old.phase ≡ Phase.Boundary }
        ensures end { (result ≡ Moved.End) ↔ (limit < self.old.machine.cycle + length_of self.old.rom self.old.machine) }
        ensures rests { self.new.phase ≡ Phase.Boundary }
        ensures kept { result ≡ Moved.End → self.new ≡ self.old }
        ensures moved { IfDone result (λ m. (self.new ≡ moved self.old) × (m ≡ name_of self.old.machine)) }
        ensures pictures { IfDone result (λ _. CarriesOn self.old self.new) }
        ensures fits { FitsRom self.old.rom → FitsMachine self.old.machine → FitsMachine self.new.machine }
    {
        self.look_ahead();
        let requests = self.requests();
        let length = self.length_by(requests);
        if length > limit || self.now() > limit - length {
            return Moved::End;
        }
        Moved::Done(self.make(requests, length))
    }

    /// Makes the next move where it is an instruction that tests no flag and uses no port and takes at most `left` machine cycles, but for
    /// the count of these cycles. Answers how many they are, or 0 where it isn't made. The board is at a boundary, before and after, and
    /// `address` is that of the next opcode.
    #[inline(always)]
    fn instruct(&mut self, address: u16, left: u64) -> u64
        requires boundary { self.old.phase ≡ Phase.Boundary }
        requires awake { self.old.machine.regs.idle ≡ false }
        requires address { address ≡ at self.old.machine.regs self.old.machine.regs.p }
        ensures worked { 0 < result → Works result self.old self.new }
        ensures few { result ≤ left }
        ensures kept { result ≡ 0 → self.new ≡ self.old }
    {
        let opcode = self.wires.read(address);
        let length = u64::from(plain_cycles(opcode));
        if length == 0 || length > left {
            return 0;
        }
        self.cpu.instruct(&mut self.wires, opcode);
        length
    }

    /// Whether an instruction before which moves end comes next.
    #[inline(always)]
    fn stands_at<S: Stops>(&self, stops: S) -> bool
        ensures { IsTrue result ↔ S.stands stops self.now.machine.regs (contents_of self.now) }
    {
        stops.has(&self.cpu, &self.wires.memory, self.counter())
    }

    /// Makes instructions one after another as `instruct` does, up to the first one behind which one of `stops` comes next, and as long as
    /// their cycles are at most `most`. Answers how many, and their cycles, which the video chip is still to count.
    #[inline(never)]
    fn work<S: Stops>(&mut self, most: u64, stops: S) -> (u64, u64)
        requires boundary { self.old.phase ≡ Phase.Boundary }
        requires awake { self.old.machine.regs.idle ≡ false }
        requires quiet { (k : ℕ) → k < most → IsQuiet self.old.machine.on self.old.machine.on self.old.pictures.shown (self.old.machine.cycle + k) }
        ensures { Worked most (S.stands stops) self.old self.new result.0 result.1 }
    {
        let mut made = 0;
        let mut passed = 0;
        let mut address = self.counter();
        loop {
            let length = self.instruct(address, most - passed);
            if length == 0 {
                break;
            }
            made += 1;
            passed += length;
            address = self.counter();
            if stops.has(&self.cpu, &self.wires.memory, address) {
                break;
            }
        }
        (made, passed)
    }

    /// Makes instructions that come next, as far as they end at or before cycle `limit` and the video chip is known to have nothing to do in
    /// their cycles but count, up to the first one behind which one of `stops` comes next. Answers how many.
    #[inline(always)]
    fn instructions<S: Stops>(&mut self, limit: u64, stops: S) -> u64
        requires { self.old.phase ≡ Phase.Boundary }
        ensures made { Made limit (S.stands stops) self.old self.new result }
        ensures awake { 0 < result → sleeps self.old.machine ≡ false }
    {
        if self.cpu.idle() {
            return 0;
        }
        let ahead = self.wires.video.quiet_ahead();
        let most = ahead.min(limit.saturating_sub(self.now()));
        let (made, passed) = self.work(most, stops);
        self.wires.video.pass(passed);
        made
    }

    /// Makes the idle cycles that come next, as far as they end at or before cycle `limit` and the video chip is known to have nothing to
    /// do in them but count, and answers how many.
    #[inline(always)]
    fn rest(&mut self, limit: u64) -> u64
        requires { self.old.phase ≡ Phase.Boundary }
        ensures moved { self.new ≡ moved_by result self.old }
        ensures aside { Aside result self.old }
        ensures within { 0 < result → self.new.machine.cycle ≤ limit }
    {
        if !self.cpu.idle() {
            return 0;
        }
        let count = self
            .wires
            .video
            .quiet_ahead()
            .min(limit.saturating_sub(self.now()));
        self.wires.video.pass(count);
        count
    }

    /// Makes the processor's part of so many DMA cycles, and answers their bytes, followed by 00.
    #[inline(always)]
    fn take_bytes(&mut self, count: usize) -> [u8; 8]
        requires boundary { self.old.phase ≡ Phase.Boundary }
        requires few { count ≤ 8 }
        ensures board { self.new ≡ taken_by count self.old }
        ensures bytes { take count result ≡ dma_bytes count self.old }
        ensures size { length result ≡ 8 }
    {
        let mut bytes = [0; 8];
        for k in 0..count {
            if let Did::Dma(byte) = self.cpu.begin(&self.wires, true, false) {
                bytes[k] = byte;
            }
        }
        bytes
    }

    /// Makes the DMA cycles that come next in the raster line, as far as they end at or before cycle `limit`, and answers how many.
    #[inline(always)]
    fn scan(&mut self, limit: u64) -> u64
        requires { self.old.phase ≡ Phase.Boundary }
        ensures moved { self.new ≡ moved_by result self.old }
        ensures aside { Aside result self.old }
        ensures within { 0 < result → self.new.machine.cycle ≤ limit }
        ensures awake { 0 < result → sleeps self.old.machine ≡ false }
    {
        let ahead = self.wires.video.dma_ahead().min(8);
        let count = ahead.min(limit.saturating_sub(self.now()));
        if count == 0 {
            return 0;
        }
        let bytes = self.take_bytes(count as usize);
        self.wires.video.scan(&bytes[..count as usize]);
        count
    }

    /// Makes one move, or some idle cycles; or none where the next one would end after cycle `limit`. Answers how many.
    #[inline(always)]
    fn wait(&mut self, limit: u64) -> u64
        requires { self.old.phase ≡ Phase.Boundary }
        ensures moved { self.new ≡ moved_by result self.old }
        ensures aside { Aside result self.old }
        ensures within { 0 < result → self.new.machine.cycle ≤ limit }
        ensures none { result ≡ 0 → limit < self.old.machine.cycle + length_of self.old.rom self.old.machine }
    {
        let rested = self.rest(limit);
        if rested > 0 {
            return rested;
        }
        match self.to_boundary(limit) {
            Moved::End => 0,
            Moved::Done(_) => 1,
        }
    }

    /// Makes one idle cycle, or some, of a processor that sleeps; or none where the next one would end after cycle `limit`. Answers how many.
    #[cold]
    #[inline(never)]
    fn sleep(&mut self, limit: u64) -> u64
        requires { self.old.phase ≡ Phase.Boundary }
        ensures moved { self.new ≡ moved_by result self.old }
        ensures aside { Aside result self.old }
        ensures within { 0 < result → self.new.machine.cycle ≤ limit }
        ensures none { result ≡ 0 → limit < self.old.machine.cycle + length_of self.old.rom self.old.machine }
    {
        self.wait(limit)
    }

    /// Makes one move, or some behind none of which but the last one the board has to be looked at; or none where the processor sleeps or the
    /// next one would end after cycle `limit`. Answers how many.
    #[inline(always)]
    fn some<S: Stops>(&mut self, limit: u64, stops: S) -> u64
        requires { self.old.phase ≡ Phase.Boundary }
        ensures made { Made limit (S.stands stops) self.old self.new result }
        ensures none { result ≡ 0 → (limit < self.old.machine.cycle + length_of self.old.rom self.old.machine) ⊎ (sleeps self.old.machine ≡ true) }
        ensures awake { 0 < result → sleeps self.old.machine ≡ false }
    {
        let scanned = self.scan(limit);
        if scanned > 0 {
            return scanned;
        }
        self.look_ahead();
        let instructed = self.instructions(limit, stops);
        if instructed > 0 {
            return instructed;
        }
        if self.sleeps() {
            return 0;
        }
        self.wait(limit)
    }

    /// Makes moves up to the first one behind which one of `stops` comes next, which finishes a picture, or behind which the processor falls
    /// asleep, or some idle cycles where it sleeps already; fewer where the next move would end after cycle `limit`. Answers how many. The board
    /// is at a boundary, before and after.
    #[inline(always)]
    pub fn run<S: Stops>(&mut self, limit: u64, stops: S) -> u64
        requires { self.old.phase ≡ Phase.Boundary }
        ensures made { Made limit (S.stands stops) self.old self.new result }
        ensures none { result ≡ 0 → limit < self.old.machine.cycle + length_of self.old.rom self.old.machine }
        ensures few { result ≤ limit }
    {
        if self.sleeps() {
            return self.sleep(limit);
        }
        let pictures = self.wires.video.count();
        let mut made = 0;
        loop {
            let some = self.some(limit, stops);
            made += some;
            if some == 0 || self.stands_at(stops) || self.wires.video.count() != pictures {
                return made;
            }
        }
    }
}

impl<K: Keys> Board<K> {
    ghost use Rattle.vip_board.specs.Moves.{name_of};
    ghost use Rattle.vip_board.specs.Linked.{incoming_after, outgoing_after};
    ghost use Rattle.vip_board.specs.Joins.{linked, linked_moved, IsLast, last_cycle, last_cycled};

    /// Makes the last machine cycle of an instruction, with two wires at port 3.
    fn end_linked(&mut self, incoming: &mut Wire, outgoing: &mut Wire)
        requires fits { self.old.machine.cycle + 1 < 2 ^ 64 }
        requires last { IsLast self.old.phase }
        ensures board { self.new ≡ last_cycled self.old incoming.old outgoing.old }
        ensures incoming { incoming.new ≡ incoming_after (last_cycle self.old incoming.old outgoing.old).effect.port incoming.old }
        ensures outgoing { outgoing.new ≡ outgoing_after (last_cycle self.old incoming.old outgoing.old).effect.port outgoing.old }
    {
        let now = self.wires.video.now();
        let mut joined = Joined {
            wires: &mut self.wires,
            incoming: incoming.full(),
            outgoing: outgoing.full(),
        };
        self.cpu.cycle(&mut joined, false, false);
        incoming.set(joined.incoming);
        outgoing.set(joined.outgoing);
        self.wires.video.end_cycle(now, None);
    }

    /// Makes the next move with two wires at port 3, and names it. The board is at a boundary, before and after.
    ///
    /// EF2 is 1 where the incoming wire is full at the start of the move, and EF4 where the outgoing one is. INP 3 takes the byte of the
    /// incoming wire, which is then empty, and 00 where it was empty. OUT 3 puts its byte on the outgoing wire, and loses it where that one
    /// is full.
    pub fn linked(&mut self, incoming: &mut Wire, outgoing: &mut Wire) -> Move
        requires boundary { self.old.phase ≡ Phase.Boundary }
        requires fits { self.old.machine.cycle + 3 < 2 ^ 64 }
        ensures moved { self.new ≡ linked_moved self.old incoming.old outgoing.old }
        ensures incoming { incoming.new ≡ (linked self.old incoming.old outgoing.old).incoming }
        ensures outgoing { outgoing.new ≡ (linked self.old incoming.old outgoing.old).outgoing }
        ensures named { result ≡ name_of self.old.machine }
    {
        let length = self.next_length();
        let address = self.counter();
        match self.cycle() {
            Did::Dma(_) => Move::Dma,
            Did::Interrupt => Move::Interrupt,
            Did::Idle => Move::Idle,
            Did::Fetch => {
                if length == 3 {
                    self.cycle();
                }
                self.end_linked(incoming, outgoing);
                Move::Instruction(address)
            }
            Did::Execute => unreachable!(),
        }
    }
}
