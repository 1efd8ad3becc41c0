//! What is seen of runs while they go on.

use crate::interpreter::console::{Console, Next};
use crate::interpreter::costs::{Costs, Interval, Kind, kind_of};
use crate::interpreter::edition::MOST_SCREEN;
use vip_board::{Move, Moved};
use vip_video::Picture;

/// The cycles of a frame, and the one at which the interrupt is to be taken.
pub const FRAME: u64 = 3_668;

pub const INTERRUPT: u64 = 1_092;

/// The cycle of a frame at which its window has ended.
pub const WINDOW_END: u64 = 2_912;

/// The lines of a picture.
const LINES: usize = 128;

/// The addresses of FX0A's first test of a key and of its last one.
#[derive(Clone, Copy)]
pub struct KeyTests {
    pub first: u16,
    pub last: u16,
}

/// What was seen of some runs, and of the present one.
#[derive(Drop)]
pub struct Watch {
    pub costs: Costs,
    /// Dispatch points.
    pub dispatches: u64,
    /// Interrupts, and those of them that were taken at another cycle of the frame.
    pub interrupts: u64,
    pub strays: u64,
    /// Frames whose interrupt is past.
    pub frames: u64,
    /// Windows that have ended.
    pub windows: u64,
    /// Finished pictures, and those of them that aren't the screen of the last dispatch point.
    pub pictures: u64,
    pub wrong_pictures: u64,
    /// Interrupts that came behind a write to the screen and before the next dispatch point.
    pub torn: u64,
    // The screen at the last dispatch point of the present run.
    screen: [u8; MOST_SCREEN],
    interval: Interval,
    in_routine_since: Option<u64>,
    // Main code has written to the screen since the last dispatch point.
    has_written: bool,
    pictures_before: u64,
    key_tests: KeyTests,
}

impl Watch {
    pub fn new(key_tests: KeyTests) -> Watch {
        Watch {
            costs: Costs::NONE,
            dispatches: 0,
            interrupts: 0,
            strays: 0,
            frames: 0,
            windows: 0,
            pictures: 0,
            wrong_pictures: 0,
            torn: 0,
            screen: [0; MOST_SCREEN],
            interval: Interval::new(Kind::Boot, 0),
            in_routine_since: None,
            has_written: false,
            pictures_before: 0,
            key_tests,
        }
    }

    /// Runs a board that was just reset up to its stop point or to a limit.
    pub fn run(&mut self, console: &mut Console, limit: u64) {
        self.begin(console);
        for _ in 0..=limit {
            if !self.go_on(console, limit) {
                break;
            }
        }
        self.end(console);
    }

    /// Begins the run of a board that was just reset.
    pub fn begin(&mut self, console: &Console) {
        self.screen = [0; MOST_SCREEN];
        self.interval = Interval::new(Kind::Boot, console.now());
        self.in_routine_since = None;
        self.has_written = false;
        self.pictures_before = 0;
    }

    /// The cycle of the last dispatch point of the run, or the one in which it began.
    pub fn since(&self) -> u64 {
        self.interval.since
    }

    /// Ends the run of a board.
    pub fn end(&mut self, console: &Console) {
        let end = console.now();
        self.frames = self
            .frames
            .saturating_add(end.saturating_add(FRAME - INTERRUPT - 1) / FRAME);
        self.windows = self
            .windows
            .saturating_add(end.saturating_add(FRAME - WINDOW_END) / FRAME);
    }

    /// Makes the next move. Answers whether it was made: not at the stop point, nor where it would end after a limit.
    pub fn go_on(&mut self, console: &mut Console, limit: u64) -> bool {
        let next = console.next();
        match next {
            Next::Dispatch => self.dispatch(console),
            Next::Stop => {
                self.stop(console);
                return false;
            }
            Next::Main(_, _) if console.writes_screen() => self.has_written = true,
            _ => {}
        }
        let before = console.now();
        match console.step(limit) {
            Moved::Done(made) => {
                self.note_move(console, next, made, before);
                true
            }
            Moved::End => false,
        }
    }

    fn dispatch(&mut self, console: &Console) {
        let now = console.now();
        self.end_routine(now);
        let all = now.saturating_sub(self.interval.since);
        self.costs.add_step(all, &self.interval);
        self.interval = Interval::new(kind_of(console.opcode()), now);
        self.has_written = false;
        self.dispatches = self.dispatches.saturating_add(1);
        self.screen = console.screen();
    }

    fn stop(&mut self, console: &Console) {
        let now = console.now();
        self.end_routine(now);
        let all = now.saturating_sub(self.interval.since);
        self.costs.add_stop(all, &self.interval);
    }

    // Main code goes on at a cycle.
    fn end_routine(&mut self, now: u64) {
        if let Some(since) = self.in_routine_since {
            self.costs.routine.add(now.saturating_sub(since));
            self.in_routine_since = None;
        }
    }

    // A move was made that began at a cycle.
    fn note_move(&mut self, console: &Console, next: Next, made: Move, before: u64) {
        if made == Move::Interrupt {
            self.interrupts = self.interrupts.saturating_add(1);
            self.torn = self.torn.saturating_add(u64::from(self.has_written));
            if before % FRAME != INTERRUPT {
                self.strays = self.strays.saturating_add(1);
            }
            self.in_routine_since = Some(before);
        }
        match next {
            Next::Main(address, p) => self.main_code(console, address, p, before),
            Next::Dispatch => self.interval.main = console.now().saturating_sub(before),
            _ => {}
        }
        let (count, picture) = console.pictures();
        if count != self.pictures_before
            && let Some(picture) = picture
        {
            self.pictures_before = count;
            self.picture(picture, console.places().rows);
        }
    }

    fn main_code(&mut self, console: &Console, address: u16, p: u8, before: u64) {
        self.end_routine(before);
        let interval = &mut self.interval;
        let has_opcode = interval.kind != Kind::Boot && interval.kind != Kind::Outside;
        if p == 3 && !interval.dispatched && has_opcode {
            interval.dispatched = true;
            self.costs.dispatch.add(interval.main);
        }
        interval.main = interval
            .main
            .saturating_add(console.now().saturating_sub(before));
        if address == self.key_tests.first && interval.first_test == 0 {
            interval.first_test = interval.main;
        }
        if address == self.key_tests.last {
            interval.last_test = interval.main;
        }
        if console.waits() {
            interval.before_wait = interval.main;
        }
    }

    // A picture was finished: its lines are the rows of the screen, each as high as fits.
    fn picture(&mut self, picture: &Picture, rows: usize) {
        self.pictures = self.pictures.saturating_add(1);
        let height = if rows == 64 { 2 } else { 4 };
        for line in 0..LINES {
            let at = line / height * 8;
            let row = &self.screen[at..at + 8];
            if row != picture.lines[line].as_slice() {
                self.wrong_pictures = self.wrong_pictures.saturating_add(1);
                return;
            }
        }
    }
}
