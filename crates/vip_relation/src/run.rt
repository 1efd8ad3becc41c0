//! A run from event to event.

ghost use Rattle.std.specs.Prelude.{◌≡◌, ◌+◌, ◌<◌, ◌⊎◌, ◌↔◌, ℕ, [], IsTrue, IfOk, Some, None, if◌then◌else◌, length, true, false};
ghost use Rattle.std.specs.Option.{option_map};
ghost use Rattle.chip8_lang.specs.View.{seen, view_at};
ghost use Rattle.vip_relation.specs.Kept.{named};
ghost use Rattle.vip_relation.specs.State.{screen_bytes, screen_size};
ghost use Rattle.vip_relation.specs.Waiting.{waits_by};

use crate::point::{Point, point_at, stop_of_number};
use crate::start::{ResumeFault, StartFault, most_bytes};
use crate::view::{Screen, copy_screen, opcode, stop_number, view};
use chip8_image::{GAME, Places};
use chip8_lang::{Edition, StateView, StopRecord};
use std::alloc::Global;
use std::marker::Model;
use vip_board::{Board, Moved, Stops};
use vip_keypad::Script;
use vip_text::Limit;
use vip_text::state_file::{KEY, RAM, check_state, cycle, parts};

/// What `advance` met: a picture that the video chip has finished, a dispatch point, the stop point, or the limit.
#[derive(Clone, Copy)]
pub enum Met {
    Picture,
    Dispatch,
    Stopped(StopRecord),
    End,
}

// The first event that waits at the present state of the board: a picture, or that of the point that it is, if it is one.
#[derive(Clone, Copy)]
enum Waits {
    Picture,
    Point,
    Nothing,
}

// What a run started from: a reset with a game, or a file of the machine's state.
#[derive(Clone, Copy)]
enum Origin {
    Game,
    File,
}

// What a stop names of a dispatch point.
#[derive(Clone, Copy)]
struct Named {
    pc: u16,
    opcode: Option<u16>,
}

/// A run: a board with the interpreter's ROM of an edition and a key script, from event to event, from a reset with a game in its memory or
/// from the machine state of a file.
///
/// Of the last dispatch point met it keeps what a stop names, and no more. The language state and the screen are read off the board for
/// whoever asks while it stands there; `Vip` keeps both for whoever asks later.
#[derive(Drop)]
pub struct Run {
    edition: Edition,
    // the start, with the bytes of the game or the file
    origin: Origin,
    bytes: Vec<u8>,
    board: Board,
    // how many moves were made, and how many events were met
    moves: u64,
    met: u64,
    // what the present state is, and which of its events wait
    point: Point,
    waits: Waits,
    // the last dispatch point met
    last: Option<Named>,
}

impl Model for Run {
    ghost use Rattle.vip_relation.specs.State.{VipState};

    ghost Value = { VipState };

    ghost use Rattle.vip_relation.specs.Kept.{state_of, IsKept};

    ghost view = { state_of };

    ghost invariant = { IsKept };
}

impl Run {
    ghost use Rattle.machine.specs.Board.{length_of};
    ghost use Rattle.chip8_lang.specs.Events.{is_stop};
    ghost use Rattle.vip_board.specs.Moves.{IfDone};
    ghost use Rattle.vip_relation.specs.State.{interpreter, events_to, events_left, events_waiting};
    ghost use Rattle.vip_relation.specs.Stops.{stop_record};
    ghost use Rattle.vip_relation.specs.Follows.{Follows};
    ghost use Rattle.vip_relation.specs.Meets.{StartAnswers, ResumeAnswers, MeetsNext, HasStopped, StopsAgain, Rests};
    ghost use Rattle.vip_relation.specs.Parts.{Makes, MeetsHere, Runs, Steps};

    /// A board after reset with the ROM of an edition, a game in its memory and a key script. No move has been made. A game that is
    /// larger than the edition's game memory, of 3,232 or 2,976 bytes, is refused.
    pub fn start_as(
        alloc: Global,
        edition: Edition,
        game: &[u8],
        script: &Script,
    ) -> Result<Run, StartFault>
        ensures answer { StartAnswers edition game.now script.now result }
        ensures follows { IfOk result (λ run. Follows run) }
        ensures runs { IfOk result (λ run. HasStopped run → ⊥) }
    {
        if game.len() > most_bytes(edition) {
            return Err(StartFault::GameTooLarge(game.len()));
        }
        let bytes = Vec::from_slice(alloc, game)?;
        let rom = Places::of(edition).rom;
        let mut board = Board::reset(alloc, rom, script)?;
        board.load(GAME, game);
        Ok(Run {
            edition,
            origin: Origin::Game,
            bytes,
            board,
            moves: 0,
            met: 0,
            point: Point::Other,
            waits: Waits::Nothing,
            last: None,
        })
    }

    /// A board at the state that a file shows, with the ROM of its edition and a key script. No move has been made, and the file's own dispatch
    /// point counts as met. A file that isn't accepted is refused for its first fault.
    pub fn resume(alloc: Global, file: &[u8], script: &Script) -> Result<Run, ResumeFault>
        ensures answer { ResumeAnswers file.now script.now result }
        ensures follows { IfOk result (λ run. Follows run) }
        ensures runs { IfOk result (λ run. HasStopped run → ⊥) }
    {
        let edition = check_state(file)?;
        let bytes = Vec::from_slice(alloc, file)?;
        let registers = parts(file);
        let rom = Places::of(edition).rom;
        let board = Board::restore(
            alloc,
            rom,
            script,
            &registers,
            &file[RAM..],
            file[KEY],
            cycle(file),
        )?;
        let point = point_at(edition, &board);
        let last = name_point(edition, &board);
        Ok(Run {
            edition,
            origin: Origin::File,
            bytes,
            board,
            moves: 0,
            met: 1,
            point,
            waits: Waits::Nothing,
            last: Some(last),
        })
    }

    /// The edition.
    pub fn edition(&self) -> Edition
        ensures edition { result ≡ self.now.edition }
        ensures follows { Follows self.now }
    {
        self.edition
    }

    /// The board. It is the state of the defined run after the moves made.
    pub fn board(&self) -> &Board
        ensures board { result.now ≡ self.now.board }
        ensures follows { Follows self.now }
    {
        &self.board
    }

    /// The pc of the last dispatch point met. None comes exactly where none was met.
    pub fn last_pc(&self) -> Option<u16>
        ensures { result ≡ option_map (λ view. view.pc) self.now.last }
    {
        match self.last {
            Some(last) => Some(last.pc),
            None => None,
        }
    }

    /// The language state that lies in the board. At a dispatch point it is the state that the board stands for.
    pub fn view(&self) -> StateView
        ensures { seen result ≡ view_at self.now.edition self.now.board.machine }
    {
        view(self.edition, &self.board)
    }

    /// Copies the bytes of the screen that lies in the board, 256 of them or 512 in the tall edition, over what was there. At a dispatch
    /// point it is the screen of the language.
    pub fn copy_screen(&self, into: &mut Screen)
        ensures bytes { into.new.items ≡ screen_bytes self.now.edition self.now.board.machine }
        ensures size { length into.new.items ≡ screen_size self.now.edition }
    {
        copy_screen(self.edition, self.board.memory(), into);
    }

    /// The stop where the board is at a stop point, met or not; None elsewhere.
    pub fn stop(&self) -> Option<StopRecord>
        ensures { result ≡ (if is_stop (interpreter self.now) self.now.board.machine then Some (stop_record self.now.last self.now.board.machine) else None) }
    {
        match self.point {
            Point::Stop => Some(self.stop_record()),
            _ => None,
        }
    }

    /// Makes moves up to the first event that wasn't met yet and whose cycle is at most `limit`, and answers it. After a stop it answers
    /// that stop again. `End` comes where there is no such event; the board then stands after the last move that ends at or before
    /// `limit`, or where it stood if that is later.
    pub fn advance(&mut self, limit: Limit) -> Met
        ensures follows { Follows self.new }
        ensures again { HasStopped self.old → StopsAgain self.old self.new result }
        ensures next { (HasStopped self.old → ⊥) → MeetsNext limit self.old self.new (events_left self.old limit) result }
    {
        if self.has_stopped() {
            return Met::Stopped(self.stop_record());
        }
        if self.board.now() > limit.cycles() {
            return Met::End;
        }
        loop {
            if let Some(met) = self.meet() {
                return met;
            }
            if self.run(limit, ()) == 0 {
                return Met::End;
            }
        }
    }

    /// Whether a stop was met.
    fn has_stopped(&self) -> bool
        ensures { IsTrue result ↔ HasStopped self.now }
    {
        match (self.point, self.waits) {
            (Point::Stop, Waits::Nothing) => true,
            _ => false,
        }
    }

    /// The record of a stop at the present state.
    fn stop_record(&self) -> StopRecord
        ensures { result ≡ stop_record self.now.last self.now.board.machine }
    {
        let (pc, opcode) = match self.last {
            Some(last) => (last.pc, last.opcode),
            None => (0, None),
        };
        StopRecord {
            stop: stop_of_number(stop_number(&self.board)),
            pc,
            opcode,
            cycle: self.board.now(),
        }
    }

    /// Whether the board is at a stop point, or its next move would end after the limit.
    pub(crate) fn rests(&self, limit: Limit) -> bool
        ensures follows { Follows self.now }
        ensures rests { IsTrue result ↔ Rests limit self.now }
    {
        match self.point {
            Point::Stop => true,
            _ => self.board.now() + self.board.next_length() > limit.cycles(),
        }
    }

    /// Meets the first event that waits at the present state, if there is one.
    #[inline(always)]
    pub(crate) fn meet(&mut self) -> Option<Met>
        ensures follows { Follows self.new }
        ensures first { MeetsHere self.old self.new result }
    {
        match (self.waits, self.point) {
            (Waits::Picture, _) => {
                self.waits = Waits::Point;
                self.met += 1;
                Some(Met::Picture)
            }
            (Waits::Point, Point::Dispatch) => {
                self.waits = Waits::Nothing;
                self.met += 1;
                self.last = Some(name_point(self.edition, &self.board));
                Some(Met::Dispatch)
            }
            (Waits::Point, Point::Stop) => {
                let stop = self.stop_record();
                self.waits = Waits::Nothing;
                self.met += 1;
                Some(Met::Stopped(stop))
            }
            (Waits::Point, Point::Other) | (Waits::Nothing, _) => None,
        }
    }

    /// Makes moves up to the first one behind which an event may wait or one of `stops` comes next, or some of them; none where the next one
    /// would end after the limit. Answers how many. No event waits, and the board is at no stop point.
    #[inline(always)]
    pub(crate) fn run<S: Stops>(&mut self, limit: Limit, stops: S) -> u64
        requires met { events_waiting self.old ≡ [] }
        requires runs { is_stop (interpreter self.old) self.old.board.machine ≡ false }
        ensures follows { Follows self.new }
        ensures end { result ≡ 0 → limit < self.old.board.machine.cycle + length_of self.old.board.rom self.old.board.machine }
        ensures kept { result ≡ 0 → self.new ≡ self.old }
        ensures moved { 0 < result → Runs limit self.old self.new }
        ensures made { 0 < result → Makes (S.stands stops) self.old self.new result }
    {
        let places = Places::of(self.edition);
        let pictures = self.board.video().count();
        let made = self
            .board
            .run(limit.cycles(), ((places.fetch, places.halt), stops));
        if made == 0 {
            return 0;
        }
        self.moves += made;
        self.point = point_at(self.edition, &self.board);
        self.waits = waits_by(pictures, self.board.video().count());
        made
    }

    /// Makes one move, which leads to a new state whose events wait, or changes nothing where it would end after the limit. No event waits,
    /// and the board is at no stop point.
    #[inline(always)]
    pub(crate) fn step(&mut self, limit: Limit) -> Moved
        requires met { events_waiting self.old ≡ [] }
        requires runs { is_stop (interpreter self.old) self.old.board.machine ≡ false }
        ensures follows { Follows self.new }
        ensures end { (result ≡ Moved.End) ↔ (limit < self.old.board.machine.cycle + length_of self.old.board.rom self.old.board.machine) }
        ensures kept { result ≡ Moved.End → self.new ≡ self.old }
        ensures moved { IfDone result (λ move. Steps self.old self.new move) }
    {
        let pictures = self.board.video().count();
        match self.board.to_boundary(limit.cycles()) {
            Moved::End => Moved::End,
            Moved::Done(name) => {
                self.moves += 1;
                self.point = point_at(self.edition, &self.board);
                self.waits = waits_by(pictures, self.board.video().count());
                Moved::Done(name)
            }
        }
    }
}

/// What a stop names of the dispatch point where a board stands.
fn name_point(edition: Edition, board: &Board) -> Named
    ensures { result ≡ named (view_at edition board.now.machine) }
{
    let pc = board.cpu().r(5);
    Named {
        pc,
        opcode: opcode(edition, board.memory(), pc),
    }
}

/// The event that waits first after a move, by the counts of finished pictures before and after.
fn waits_by(before: u64, after: u64) -> Waits
    ensures { result ≡ waits_by before after }
{
    if after == before {
        Waits::Point
    } else {
        Waits::Picture
    }
}
