//! The language by its page, `docs/LANGUAGE.md`: a state, and where a step of it may lead. This is written from that page alone, and stands on none of
//! the definitions that contracts cite.

use crate::interpreter::edition::{GAME, MOST_SCREEN, Places, copy_pages};
use chip8_image::IMAGE;
use chip8_lang::{StateView, Stop};
use vip_board::Board;

/// The addresses of the font in the ROM, and where it begins there.
const FONT: u16 = 0x8700;

const FONT_END: u16 = 0x8750;

const FONT_PLACE: usize = 0x700;

/// The most addresses on the stack.
const MOST_ADDRESSES: usize = 12;

/// A language state but for game memory and screen.
#[derive(Clone, Copy, PartialEq, Eq)]
pub struct State {
    v: [u8; 16],
    i: u16,
    pc: u16,
    /// The oldest address first, and 0 behind the newest.
    stack: [u16; MOST_ADDRESSES],
    depth: usize,
    dt: u8,
    st: u8,
    tone: bool,
    n: u16,
    b: u8,
}

impl State {
    /// The state of a view.
    pub fn of(view: &StateView) -> State {
        let v = view.v;
        let mut stack = [0; MOST_ADDRESSES];
        for place in 0..MOST_ADDRESSES {
            stack[place] = view.stack.get(place).copied().unwrap_or(0);
        }
        State {
            v,
            i: view.i,
            pc: view.pc,
            stack,
            depth: view.stack.len(),
            dt: view.dt,
            st: view.st,
            tone: view.tone,
            n: view.n,
            b: view.b,
        }
    }

    /// The count of ticks.
    pub fn n(&self) -> u16 {
        self.n
    }

    /// Makes so many ticks.
    fn tick(mut self, ticks: u16) -> State {
        for _ in 0..ticks {
            self.n = self.n.wrapping_add(1);
            self.dt = self.dt.saturating_sub(1);
            self.tone = self.st != 0;
            self.st = self.st.saturating_sub(1);
        }
        self
    }

    fn skip(&mut self) {
        self.pc = self.pc.wrapping_add(2);
    }

    // 0MMM, 1MMM, 2MMM and BMMM; pc is already that of the next instruction.
    fn jump(&mut self, opcode: u16) -> Result<(), Stop> {
        let address = opcode % 0x1000;
        match opcode / 0x1000 {
            1 => self.pc = address,
            2 => {
                let Some(place) = self.stack.get_mut(self.depth) else {
                    return Err(Stop::StackFull);
                };
                *place = self.pc;
                self.depth = self.depth.saturating_add(1);
                self.pc = address;
            }
            0xB => self.pc = address.wrapping_add(u16::from(self.v[0])),
            _ if opcode == 0x00E0 => {}
            _ if opcode == 0x00EE => {
                let depth = self.depth.checked_sub(1).ok_or(Stop::StackEmpty)?;
                if let Some(place) = self.stack.get_mut(depth) {
                    self.pc = *place;
                    *place = 0;
                }
                self.depth = depth;
            }
            _ => return Err(Stop::MachineCall),
        }
        Ok(())
    }

    // 3XKK, 4XKK, 5XY0, 9XY0, EX9E and EXA1, with all keys up
    fn skips(&self, opcode: u16) -> Result<bool, Stop> {
        let vx = self.v[usize::from(opcode / 256 % 16)];
        let vy = self.v[usize::from(opcode / 16 % 16)];
        let kk = (opcode % 256) as u8;
        match opcode / 0x1000 {
            3 => Ok(vx == kk),
            4 => Ok(vx != kk),
            5 if opcode % 16 == 0 => Ok(vx == vy),
            9 if opcode % 16 == 0 => Ok(vx != vy),
            0xE if kk == 0x9E => Ok(false),
            0xE if kk == 0xA1 => Ok(true),
            _ => Err(Stop::Unknown),
        }
    }

    // The next random byte.
    fn random(&mut self) -> u8 {
        let n = (self.n % 256) as u8;
        self.b = self.b.wrapping_mul(5).wrapping_add(n).wrapping_add(113);
        self.b
    }

    // 8XYN: the flag is written last
    fn compute(&mut self, opcode: u16) -> Result<(), Stop> {
        let x = usize::from(opcode / 256 % 16);
        let vx = self.v[x];
        let vy = self.v[usize::from(opcode / 16 % 16)];
        let (value, flag) = match opcode % 16 {
            0 => (vy, self.v[15]),
            1 => (vx | vy, 0),
            2 => (vx & vy, 0),
            3 => (vx ^ vy, 0),
            4 => (vx.wrapping_add(vy), u8::from(vx.checked_add(vy).is_none())),
            5 => (vx.wrapping_sub(vy), u8::from(vx >= vy)),
            6 => (vy / 2, vy % 2),
            7 => (vy.wrapping_sub(vx), u8::from(vy >= vx)),
            0xE => (vy.wrapping_add(vy), vy / 128),
            _ => return Err(Stop::Unknown),
        };
        if opcode % 16 == 0 {
            self.v[x] = value;
        } else {
            self.v[x] = value;
            self.v[15] = flag;
        }
        Ok(())
    }
}

/// Game memory and the screen of a run of the language, in an edition.
#[derive(Drop)]
pub struct Language {
    places: Places,
    /// RAM up to the end of game memory.
    memory: [u8; 0x1000],
    screen: [u8; MOST_SCREEN],
    /// The key that is let go while a step may wait for it.
    pub let_go: Option<u8>,
}

impl Language {
    /// Those that lie in a board.
    pub fn on(board: &Board, places: Places) -> Language {
        let mut memory = [0; 0x1000];
        copy_pages(board.memory(), 0, &mut memory);
        let mut screen = [0; MOST_SCREEN];
        copy_pages(board.memory(), places.screen_page, &mut screen);
        Language {
            places,
            memory,
            screen,
            let_go: None,
        }
    }

    /// Whether these lie in a board.
    pub fn is_on(&self, board: &Board) -> bool {
        let there = Language::on(board, self.places);
        self.screen == there.screen && self.game() == there.game()
    }

    // Game memory.
    fn game(&self) -> &[u8] {
        &self.memory[usize::from(GAME)..usize::from(self.places.game_end.clamp(GAME, 0x1000))]
    }

    fn is_in_memory(&self, address: u16, count: u16) -> bool {
        match address.checked_add(count) {
            Some(end) => address >= GAME && end <= self.places.game_end,
            None => false,
        }
    }

    // The byte at an address of game memory or of the font.
    fn byte(&self, address: u16) -> u8 {
        let found = if address >= FONT {
            IMAGE.get(usize::from(address - FONT).saturating_add(FONT_PLACE))
        } else {
            self.memory.get(usize::from(address))
        };
        found.copied().unwrap_or(0)
    }

    fn can_read(&self, address: u16, count: u16) -> Result<(), Stop> {
        let in_font = match address.checked_add(count) {
            Some(end) => address >= FONT && end <= FONT_END,
            None => false,
        };
        if in_font || self.is_in_memory(address, count) {
            Ok(())
        } else {
            Err(Stop::ReadOutside)
        }
    }

    fn can_write(&self, address: u16, count: u16) -> Result<(), Stop> {
        if self.is_in_memory(address, count) {
            Ok(())
        } else {
            Err(Stop::WriteOutside)
        }
    }

    /// The opcode at an address, where both its bytes lie in game memory.
    pub fn opcode(&self, pc: u16) -> Option<u16> {
        if !self.is_in_memory(pc, 2) {
            return None;
        }
        Some(u16::from_be_bytes([self.byte(pc), self.byte(pc.wrapping_add(1))]))
    }

    /// The state behind a step, with no tick in it, or the stop.
    pub fn step(&self, from: &State) -> Result<State, Stop> {
        let opcode = self.opcode(from.pc).ok_or(Stop::FetchOutside)?;
        let x = usize::from(opcode / 256 % 16);
        let kk = (opcode % 256) as u8;
        let mut to = *from;
        to.skip();
        match opcode / 0x1000 {
            0 | 1 | 2 | 0xB => to.jump(opcode)?,
            6 => to.v[x] = kk,
            7 => to.v[x] = to.v[x].wrapping_add(kk),
            8 => to.compute(opcode)?,
            0xA => to.i = opcode % 0x1000,
            0xC => to.v[x] = to.random() & kk,
            0xD => to.v[15] = self.put_out(from, opcode)?,
            0xF => self.other(&mut to, opcode)?,
            _ => {
                if to.skips(opcode)? {
                    to.skip();
                }
            }
        }
        Ok(to)
    }

    // FX..: timers, the index, and memory
    fn other(&self, to: &mut State, opcode: u16) -> Result<(), Stop> {
        let x = usize::from(opcode / 256 % 16);
        let count = opcode / 256 % 16 + 1;
        match opcode % 256 {
            0x07 => to.v[x] = to.dt,
            0x0A => to.v[x] = self.let_go.unwrap_or(0),
            0x15 => to.dt = to.v[x],
            0x18 => to.st = to.v[x],
            0x1E => to.i = to.i.wrapping_add(u16::from(to.v[x])),
            0x29 => to.i = FONT + 5 * u16::from(to.v[x] % 16),
            0x33 => self.can_write(to.i, 3)?,
            0x55 => {
                self.can_write(to.i, count)?;
                to.i = to.i.wrapping_add(count);
            }
            0x65 => self.fetch(to, count)?,
            _ => return Err(Stop::Unknown),
        }
        Ok(())
    }

    // FX65
    fn fetch(&self, to: &mut State, count: u16) -> Result<(), Stop> {
        self.can_read(to.i, count)?;
        for k in 0..count.min(16) {
            to.v[usize::from(k)] = self.byte(to.i.wrapping_add(k));
        }
        to.i = to.i.wrapping_add(count);
        Ok(())
    }

    // The dots of a row of a sprite that lie on the screen: the place of their first byte there, and two bytes.
    fn row(&self, from: &State, opcode: u16, row: u16) -> Option<(usize, u16)> {
        let left = usize::from(from.v[usize::from(opcode / 256 % 16)] % 64);
        let top = usize::from(from.v[usize::from(opcode / 16 % 16)]) % self.places.rows.max(1);
        let y = top.saturating_add(usize::from(row));
        if y >= self.places.rows {
            return None;
        }
        let dots = u16::from(self.byte(from.i.wrapping_add(row))) << (8 - left % 8);
        let dots = if left / 8 == 7 {
            dots / 256 * 256
        } else {
            dots
        };
        Some((y.saturating_mul(8).saturating_add(left / 8), dots))
    }

    // The flag of a sprite: whether it puts out a lit dot.
    fn put_out(&self, from: &State, opcode: u16) -> Result<u8, Stop> {
        let rows = opcode % 16;
        if rows > 0 {
            self.can_read(from.i, rows)?;
        }
        let mut flag = 0;
        for row in 0..rows {
            if let Some((place, dots)) = self.row(from, opcode, row) {
                let bytes = dots.to_be_bytes();
                for (k, byte) in bytes.iter().enumerate() {
                    let lit = self
                        .screen
                        .get(place.saturating_add(k))
                        .copied()
                        .unwrap_or(0);
                    if lit & *byte != 0 {
                        flag = 1;
                    }
                }
            }
        }
        Ok(flag)
    }

    /// What a step writes into game memory and onto the screen. Answers whether it may write.
    pub fn act(&mut self, from: &State) -> bool {
        let opcode = self.opcode(from.pc).unwrap_or(0);
        let vx = from.v[usize::from(opcode / 256 % 16)];
        match (opcode / 0x1000, opcode % 256) {
            (0, _) if opcode == 0x00E0 => self.screen.fill(0),
            (0xD, _) => self.draw(from, opcode),
            (0xF, 0x33) => self.store(from.i, &[vx / 100, vx / 10 % 10, vx % 10]),
            (0xF, 0x55) => self.store(from.i, &from.v[..usize::from(opcode / 256 % 16) + 1]),
            _ => return false,
        }
        true
    }

    fn store(&mut self, address: u16, bytes: &[u8]) {
        for (k, byte) in bytes.iter().enumerate() {
            if let Some(place) = self.memory.get_mut(usize::from(address).saturating_add(k)) {
                *place = *byte;
            }
        }
    }

    fn draw(&mut self, from: &State, opcode: u16) {
        for row in 0..opcode % 16 {
            if let Some((place, dots)) = self.row(from, opcode, row) {
                let bytes = dots.to_be_bytes();
                for (k, byte) in bytes.iter().enumerate() {
                    if let Some(lit) = self.screen.get_mut(place.saturating_add(k)) {
                        *lit ^= *byte;
                    }
                }
            }
        }
    }

    /// Whether one step leads from a state to another, with so many ticks between: those before the step, and the others behind it. Before a display
    /// wait's step are all of them, and one at least. FX0A has no step where no key is let go.
    pub fn leads(&self, from: &State, to: &State, ticks: u16) -> bool {
        let opcode = self.opcode(from.pc).unwrap_or(0);
        if opcode / 0x1000 == 0xF && opcode % 256 == 0x0A && self.let_go.is_none() {
            return false;
        }
        let waits = opcode == 0x00E0 || opcode / 0x1000 == 0xD;
        let first = if waits { ticks.max(1) } else { 0 };
        (first..=ticks).any(|early| match self.step(&from.tick(early)) {
            Ok(state) => state.tick(ticks.saturating_sub(early)) == *to,
            Err(_) => false,
        })
    }
}
