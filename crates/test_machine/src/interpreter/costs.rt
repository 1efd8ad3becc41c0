//! The machine cycles that steps of the language take, and their bounds (`docs/MACHINE.md`, "Bounds").

use chip8_lang::{Instr, read_instr};

/// The steps that share a bound.
#[derive(Clone, Copy, PartialEq, Eq)]
pub enum Kind {
    /// From reset to the first dispatch point.
    Boot,
    /// Every instruction but those below.
    Ordinary,
    /// FX33
    Decimal,
    /// FX55
    Store,
    /// FX65
    Fetch,
    /// DXYN
    Draw,
    /// 00E0
    Clear,
    /// FX0A, which has no bound of its own.
    WaitKey,
    /// No opcode: pc is outside game memory.
    Outside,
}

/// The kind of an opcode's step.
pub fn kind_of(opcode: Option<u16>) -> Kind {
    let Some(opcode) = opcode else {
        return Kind::Outside;
    };
    match read_instr(opcode) {
        Instr::Clear => Kind::Clear,
        Instr::Draw(_, _, _) => Kind::Draw,
        Instr::Decimal(_) => Kind::Decimal,
        Instr::Store(_) => Kind::Store,
        Instr::Fetch(_) => Kind::Fetch,
        Instr::WaitKey(_) => Kind::WaitKey,
        _ => Kind::Ordinary,
    }
}

/// The most cycles of some intervals: all of them, and those of main code.
#[derive(Clone, Copy)]
pub struct Most {
    pub all: u64,
    pub main: u64,
}

impl Most {
    const NONE: Most = Most { all: 0, main: 0 };

    fn add(&mut self, all: u64, main: u64) {
        self.all = self.all.max(all);
        self.main = self.main.max(main);
    }
}

/// The least and the most of some counts.
#[derive(Clone, Copy)]
pub struct Range {
    pub least: u64,
    pub most: u64,
}

impl Range {
    const NONE: Range = Range {
        least: u64::MAX,
        most: 0,
    };

    pub fn add(&mut self, count: u64) {
        self.least = self.least.min(count);
        self.most = self.most.max(count);
    }
}

/// What was measured in some runs.
#[derive(Clone, Copy)]
pub struct Costs {
    pub boot: Most,
    pub ordinary: Most,
    pub decimal: Most,
    pub store: Most,
    pub fetch: Most,
    pub draw: Most,
    pub clear: Most,
    pub stop: Most,
    /// Main code from a dispatch point to the routine of its opcode.
    pub dispatch: Range,
    /// The interrupt routine, with the DMA cycles in it.
    pub routine: Range,
    /// Main code of DXYN up to the display wait.
    pub prepare: u64,
    /// Main code of DXYN and of 00E0 after the display wait.
    pub drawn: u64,
    pub cleared: u64,
    /// Main code of FX0A up to its first test of a key, and after its last.
    pub first_test: u64,
    pub after_test: u64,
}

impl Costs {
    pub const NONE: Costs = Costs {
        boot: Most::NONE,
        ordinary: Most::NONE,
        decimal: Most::NONE,
        store: Most::NONE,
        fetch: Most::NONE,
        draw: Most::NONE,
        clear: Most::NONE,
        stop: Most::NONE,
        dispatch: Range::NONE,
        routine: Range::NONE,
        prepare: 0,
        drawn: 0,
        cleared: 0,
        first_test: 0,
        after_test: 0,
    };

    /// An interval that ended at a dispatch point.
    pub fn add_step(&mut self, all: u64, interval: &Interval) {
        let main = interval.main;
        match interval.kind {
            Kind::Boot => self.boot.add(all, main),
            Kind::Ordinary | Kind::Outside => self.ordinary.add(all, main),
            Kind::Decimal => self.decimal.add(all, main),
            Kind::Store => self.store.add(all, main),
            Kind::Fetch => self.fetch.add(all, main),
            Kind::Draw => {
                self.draw.add(all, main);
                self.prepare = self.prepare.max(interval.before_wait);
                self.drawn = self.drawn.max(main.saturating_sub(interval.before_wait));
            }
            Kind::Clear => {
                self.clear.add(all, main);
                self.cleared = self.cleared.max(main.saturating_sub(interval.before_wait));
            }
            Kind::WaitKey => {
                self.first_test = self.first_test.max(interval.first_test);
                self.after_test = self.after_test.max(main.saturating_sub(interval.last_test));
            }
        }
    }

    /// An interval that ended at a stop point.
    pub fn add_stop(&mut self, all: u64, interval: &Interval) {
        self.stop.add(all, interval.main);
    }
}

/// The interval that a run is in: from reset or a dispatch point on.
#[derive(Clone, Copy)]
pub struct Interval {
    pub kind: Kind,
    /// The cycle at which it begins.
    pub since: u64,
    /// Its cycles of main code so far.
    pub main: u64,
    /// Main code has left the fetch.
    pub dispatched: bool,
    /// Its cycles of main code up to the display wait.
    pub before_wait: u64,
    /// Those up to its first test of a key, or 0, and those up to its last.
    pub first_test: u64,
    pub last_test: u64,
}

impl Interval {
    pub fn new(kind: Kind, since: u64) -> Interval {
        Interval {
            kind,
            since,
            main: 0,
            dispatched: false,
            before_wait: 0,
            first_test: 0,
            last_test: 0,
        }
    }
}
