//! A board that runs a game, and what it tells of the last dispatch point met.

ghost use Rattle.std.specs.Prelude.{◌≡◌, ◌<◌, ◌↔◌, IfOk, Some, None, if◌then◌else◌, length};
ghost use Rattle.std.specs.Option.{option_map};
ghost use Rattle.chip8_lang.specs.View.{seen, view_at};
ghost use Rattle.vip_relation.specs.State.{screen_bytes, screen_size};

use crate::run::{Met, Run};
use crate::start::StartFault;
use crate::view::{Screen, dark};
use chip8_lang::{Edition, StateView, StopRecord};
use std::alloc::Global;
use std::marker::Model;
use vip_board::{Board, Moved, Stops};
use vip_keypad::Script;
use vip_text::Limit;

/// A run of a game that keeps the language state and the screen at the last dispatch point met, for whoever asks once the board has gone
/// on. A run alone, `Run`, keeps neither.
#[derive(Drop)]
pub struct Vip {
    run: Run,
    last: Option<StateView>,
    shown: Screen,
}

impl Model for Vip {
    ghost use Rattle.vip_relation.specs.State.{VipState};

    ghost Value = { VipState };

    ghost use Rattle.vip_relation.specs.Told.{vip_of, KeepsLast};

    ghost view = { vip_of };

    ghost invariant = { KeepsLast };
}

impl Vip {
    ghost use Rattle.chip8_lang.specs.Events.{is_stop};
    ghost use Rattle.vip_board.specs.Moves.{IfDone};
    ghost use Rattle.vip_relation.specs.State.{begun, interpreter, events_left};
    ghost use Rattle.vip_relation.specs.Stops.{stop_record};
    ghost use Rattle.vip_relation.specs.Follows.{Follows};
    ghost use Rattle.vip_relation.specs.Meets.{StartAnswers, MeetsNext, HasStopped, StopsAgain, Rests, MovesOn, MovesBy};
    ghost use Rattle.vip_relation.specs.Parts.{MeetsHere, MeetsAll};

    /// A board after reset with the usual edition's ROM, a game in its memory and a key script.
    pub fn start(alloc: Global, game: &[u8], script: &Script) -> Result<Vip, StartFault>
        ensures answer { StartAnswers Edition.Usual game.now script.now result }
        ensures follows { IfOk result (λ vip. Follows vip) }
        ensures runs { IfOk result (λ vip. HasStopped vip → ⊥) }
    {
        Vip::start_as(alloc, Edition::Usual, game, script)
    }

    /// A board after reset with the ROM of an edition, a game in its memory and a key script. No move has been made. A game that is
    /// larger than the edition's game memory, of 3,232 or 2,976 bytes, is refused.
    pub fn start_as(
        alloc: Global,
        edition: Edition,
        game: &[u8],
        script: &Script,
    ) -> Result<Vip, StartFault>
        ensures answer { StartAnswers edition game.now script.now result }
        ensures follows { IfOk result (λ vip. Follows vip) }
        ensures runs { IfOk result (λ vip. HasStopped vip → ⊥) }
    {
        Ok(Vip::of(Run::start_as(alloc, edition, game, script)?))
    }

    /// A run that begins, with a game or from a file, kept from here on. A file's own dispatch point counts as met, so it is told of.
    pub fn of(run: Run) -> Vip
        requires { run ≡ begun run.edition run.start run.board.script }
        ensures { result ≡ run }
    {
        let mut last = None;
        let mut shown = dark(run.edition());
        match run.last_pc() {
            Some(_) => keep(&run, &mut last, &mut shown),
            None => {}
        }
        Vip { run, last, shown }
    }

    /// The run alone, without what is kept of its dispatch points.
    pub fn as_run(&self) -> &Run
        ensures { result.now ≡ self.now }
    {
        &self.run
    }

    /// The edition.
    pub fn edition(&self) -> Edition
        ensures { result ≡ self.now.edition }
    {
        self.run.edition()
    }

    /// The board. It is the state of the defined run after the moves made.
    pub fn board(&self) -> &Board
        ensures board { result.now ≡ self.now.board }
        ensures follows { Follows self.now }
    {
        self.run.board()
    }

    /// The language state at the last dispatch point met. None comes exactly where none was met.
    pub fn last(&self) -> Option<&StateView>
        ensures { option_map (λ view. seen view.now) result ≡ self.now.last }
    {
        self.last.as_ref()
    }

    /// The bytes of the screen at the last dispatch point met, 256 of them or 512 in the tall edition; zeros where none was met.
    pub fn shown(&self) -> &[u8]
        ensures bytes { result.now ≡ self.now.shown }
        ensures size { length result.now ≡ screen_size self.now.edition }
    {
        self.shown.as_slice()
    }

    /// The stop where the board is at a stop point, met or not; None elsewhere.
    pub fn stop(&self) -> Option<StopRecord>
        ensures { result ≡ (if is_stop (interpreter self.now) self.now.board.machine then Some (stop_record self.now.last self.now.board.machine) else None) }
    {
        self.run.stop()
    }

    /// Makes moves up to the first event that wasn't met yet and whose cycle is at most `limit`, and answers it. After a stop it answers
    /// that stop again. `End` comes where there is no such event; the board then stands after the last move that ends at or before
    /// `limit`, or where it stood if that is later.
    pub fn advance(&mut self, limit: Limit) -> Met
        ensures follows { Follows self.new }
        ensures again { HasStopped self.old → StopsAgain self.old self.new result }
        ensures next { (HasStopped self.old → ⊥) → MeetsNext limit self.old self.new (events_left self.old limit) result }
    {
        let met = self.run.advance(limit);
        if let Met::Dispatch = met {
            keep(&self.run, &mut self.last, &mut self.shown);
        }
        met
    }

    /// Makes one move and names it. `End` comes exactly where the move would end after `limit` or the board is at a stop point, and
    /// changes nothing. Every event up to the board's new cycle then counts as met.
    pub fn one_move(&mut self, limit: Limit) -> Moved
        ensures follows { Follows self.new }
        ensures end { (result ≡ Moved.End) ↔ Rests limit self.old }
        ensures kept { result ≡ Moved.End → self.new ≡ self.old }
        ensures moved { IfDone result (λ move. MovesOn self.old self.new move) }
    {
        if self.run.rests(limit) {
            return Moved::End;
        }
        self.meet_all();
        let moved = self.run.step(limit);
        self.meet_all();
        moved
    }

    /// Makes some of the next moves: none behind which one of `stops` comes next, which leads to a stop point, or which ends after `limit`, but
    /// for the last one, which ends by then too. Answers how many: none comes exactly where the next move would end after `limit` or the board
    /// is at a stop point, and changes nothing. Every event up to the board's new cycle then counts as met.
    pub fn move_on<S: Stops>(&mut self, limit: Limit, stops: S) -> u64
        ensures follows { Follows self.new }
        ensures end { (result ≡ 0) ↔ Rests limit self.old }
        ensures kept { result ≡ 0 → self.new ≡ self.old }
        ensures moved { 0 < result → MovesBy limit (S.stands stops) self.old self.new result }
    {
        if self.run.rests(limit) {
            return 0;
        }
        self.meet_all();
        let made = self.run.run(limit, stops);
        self.meet_all();
        made
    }

    /// Meets the first event that waits at the present state, if there is one.
    fn meet(&mut self) -> Option<Met>
        ensures follows { Follows self.new }
        ensures first { MeetsHere self.old self.new result }
    {
        let met = self.run.meet();
        if let Some(event) = met {
            if let Met::Dispatch = event {
                keep(&self.run, &mut self.last, &mut self.shown);
            }
        }
        met
    }

    /// Meets all events that wait at the present state.
    fn meet_all(&mut self)
        ensures follows { Follows self.new }
        ensures all { MeetsAll self.old self.new }
    {
        while self.meet().is_some() {}
    }
}

/// Reads what is told of a dispatch point off the board that stands there, over what was there.
fn keep(run: &Run, last: &mut Option<StateView>, shown: &mut Screen)
    ensures last { option_map seen last.new ≡ Some (view_at run.now.edition run.now.board.machine) }
    ensures shown { shown.new.items ≡ screen_bytes run.now.edition run.now.board.machine }
    ensures size { length shown.new.items ≡ screen_size run.now.edition }
{
    *last = Some(run.view());
    run.copy_screen(shown);
}
