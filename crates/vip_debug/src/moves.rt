//! The commands that make moves, whatever runs on the board.

ghost use Rattle.std.specs.Prelude.{◌≡◌, ◌<◌, ◌≤◌, ◌↔◌, ◌++◌, ◌∷◌, [], nat_le, option_map, true};
ghost use Rattle.vip_board.specs.Seen.{held_by};
ghost use Rattle.vip_program.specs.Lines.{line_of};
ghost use Rattle.vip_debug.specs.Answered.{move_end};
ghost use Rattle.vip_cpu.specs.declared.cpu.Phase.{Phase};
ghost use Rattle.vip_debug.specs.TargetRun.{Makes, Rests, run_from};
ghost use Rattle.vip_debug.specs.Commands.{after_steps, at_address, at_change, at_cycle, came, starts_at};
ghost use Rattle.vip_debug.specs.BoardParts.{Arrives, HasMoved, IsChange, IsShown};

use crate::bytes::{Stretch, read_stretch};
use crate::sought::Sought;
use crate::target::Target;
use crate::watched::Watched;
use asm_core::Origins;
use vip_board::{Board, Moved, Stops};
use vip_byte::{Buffer, MOST_CYCLE, put};
use vip_program::{move_text, next_place, put_line_end};
use vip_text::Limit;
use vip_words::Running;

/// Makes at least one move, and at most so many, of which there is one. Answers how many; none comes exactly where the run has ended or the next
/// move would end after the limit, and changes nothing.
fn make_some<T: Target>(target: &mut T, most: u64, limit: Limit) -> u64
    requires boundary { (T.seen target.old).phase ≡ Phase.Boundary }
    requires within { (T.seen target.old).machine.cycle ≤ limit }
    requires some { 0 < most }
    requires few { most ≤ 0xFFFFFFFF }
    ensures few { result ≤ most }
    ensures end { (result ≡ 0) ↔ Rests (T.ends target.old) limit (T.seen target.old) }
    ensures kept { result ≡ 0 → target.new ≡ target.old }
    ensures moved { 0 < result → Makes (λ regs memory. ⊥) (T.ends target.old) limit (T.seen target.old) (T.seen target.new) result × (T.ends target.new ≡ T.ends target.old) × T.leads result target.old target.new }
{
    // each move takes a cycle at least
    let end = limit.cycles().min(target.board().now() + most);
    let made = target.move_on(Limit::up_to(end), ());
    if made > 0 {
        return made;
    }
    match target.one_move(limit) {
        Moved::End => 0,
        Moved::Done(_) => 1,
    }
}

/// Makes so many moves, or those up to the limit and the end of the run. Answers whether it made all.
fn make_moves<T: Target>(target: &mut T, moves: u32, limit: Limit) -> bool
    requires boundary { (T.seen target.old).phase ≡ Phase.Boundary }
    requires within { (T.seen target.old).machine.cycle ≤ limit }
    ensures comes { let r = run_from (T.ends target.old) (T.seen target.old) in Arrives limit r (after_steps r limit moves) (T.seen target.new) result }
    ensures moved { let r = run_from (T.ends target.old) (T.seen target.old) in HasMoved T.leads (after_steps r limit moves).moves target.old target.new }
{
    let mut left = u64::from(moves);
    while left > 0 {
        let made = make_some(target, left, limit);
        if made == 0 {
            return false;
        }
        left -= made;
    }
    true
}

/// Makes the moves that end at or before a cycle, up to the limit and the end of the run. A cycle in the past makes none.
fn move_to_cycle<T: Target>(target: &mut T, cycle: u64, limit: Limit)
    requires boundary { (T.seen target.old).phase ≡ Phase.Boundary }
    requires within { (T.seen target.old).machine.cycle ≤ limit }
    ensures comes { let r = run_from (T.ends target.old) (T.seen target.old) in Arrives limit r (at_cycle r limit cycle) (T.seen target.new) (nat_le cycle limit) }
    ensures moved { let r = run_from (T.ends target.old) (T.seen target.old) in HasMoved T.leads (at_cycle r limit cycle).moves target.old target.new }
{
    let last = Limit::up_to(cycle.min(limit.cycles()));
    while target.move_on(last, ()) > 0 {}
}

/// Whether the next move is the instruction at an address, or one that is read from it. The board is at a boundary.
fn starts_at(board: &Board, address: u16) -> bool
    requires { board.now.phase ≡ Phase.Boundary }
    ensures { result ≡ starts_at address board.now.machine }
{
    let cpu = board.cpu();
    let sought = Sought { address };
    board.next_is_instruction() && sought.has(cpu, board.memory(), cpu.r(cpu.p()))
}

/// Makes at least one move, and moves until the next one is the instruction at an address, or one that is read from it, up to the limit and the end of the run. Answers
/// whether it came there.
fn move_to_address<T: Target>(target: &mut T, address: u16, limit: Limit) -> bool
    requires boundary { (T.seen target.old).phase ≡ Phase.Boundary }
    requires within { (T.seen target.old).machine.cycle ≤ limit }
    ensures comes { let r = run_from (T.ends target.old) (T.seen target.old) in Arrives limit r (at_address r limit address) (T.seen target.new) result }
    ensures moved { let r = run_from (T.ends target.old) (T.seen target.old) in HasMoved T.leads (at_address r limit address).moves target.old target.new }
{
    while target.move_on(limit, Sought { address }) > 0 {
        if starts_at(target.board(), address) {
            return true;
        }
    }
    false
}

/// What a change of memory is shown by: the line of the move that made it, with the address from which its opcode was read, if it is an instruction, and the bytes that
/// are watched, before and after.
#[derive(Drop)]
pub struct Change {
    pub place: Option<u16>,
    pub line: Buffer,
    pub before: Stretch,
    pub after: Stretch,
}

impl Change {
    /// With nothing in it.
    pub fn new() -> Change {
        Change {
            place: None,
            line: Buffer::new(),
            before: Stretch::new(),
            after: Stretch::new(),
        }
    }
}

/// Writes the line that a board's next move has alone into an empty buffer, with the source's line that gave it where a source tells. The board is at a
/// boundary.
fn write_move(board: &Board, told: Option<&Origins>, into: &mut Buffer)
    requires boundary { board.now.phase ≡ Phase.Boundary }
    requires cycle { board.now.machine.cycle ≤ MOST_CYCLE }
    requires empty { into.old.items ≡ [] }
    ensures { into.new.items ≡ line_of board.now.rom (held_by board.now) (board.now.machine ∷ []) ++ move_end (option_map (λ origins. origins.now) told.entry) board.now.rom board.now.machine }
{
    move_text(board, into);
    match told {
        Some(origins) => put_line_end(board, origins, into),
        None => put(into, b"\n"),
    }
}

/// Makes at least one move, and moves until one of so many bytes from an address on has changed, up to the limit and the end of the run.
/// Answers whether one has; what shows it is then in `change`, with what a source tells of the move.
fn move_to_change<T: Target>(
    target: &mut T,
    address: u16,
    count: u32,
    limit: Limit,
    told: Option<&Origins>,
    change: &mut Change,
) -> bool
    requires boundary { (T.seen target.old).phase ≡ Phase.Boundary }
    requires within { (T.seen target.old).machine.cycle ≤ limit }
    ensures comes { let r = run_from (T.ends target.old) (T.seen target.old) in Arrives limit r (at_change r limit address count) (T.seen target.new) result }
    ensures moved { let r = run_from (T.ends target.old) (T.seen target.old) in HasMoved T.leads (at_change r limit address count).moves target.old target.new }
    ensures shown { let r = run_from (T.ends target.old) (T.seen target.old) in result ≡ true → IsChange (option_map (λ origins. origins.now) told.entry) r address count (at_change r limit address count).moves change.new }
{
    read_stretch(target.board().memory(), address, count, &mut change.before);
    let watched = Watched { address, count };
    while target.board().now() < limit.cycles() {
        if !watched.may_change_next(target.board()) {
            if target.move_on(limit, watched) == 0 {
                return false;
            }
            continue;
        }
        change.place = next_place(target.board());
        change.line.clear();
        write_move(target.board(), told, &mut change.line);
        if let Moved::End = target.one_move(limit) {
            return false;
        }
        read_stretch(target.board().memory(), address, count, &mut change.after);
        if change.before.as_slice() != change.after.as_slice() {
            return true;
        }
    }
    false
}

/// Runs a board as a command says, up to the limit and the end of its run. Answers whether the command is completed; what shows it then besides
/// the board is in `change`, with what a source tells of a move.
pub fn go<T: Target>(
    target: &mut T,
    running: Running,
    limit: Limit,
    told: Option<&Origins>,
    change: &mut Change,
) -> bool
    requires boundary { (T.seen target.old).phase ≡ Phase.Boundary }
    requires within { (T.seen target.old).machine.cycle ≤ limit }
    ensures comes { let r = run_from (T.ends target.old) (T.seen target.old) in Arrives limit r (came r limit running) (T.seen target.new) result }
    ensures moved { let r = run_from (T.ends target.old) (T.seen target.old) in HasMoved T.leads (came r limit running).moves target.old target.new }
    ensures shown { let r = run_from (T.ends target.old) (T.seen target.old) in result ≡ true → IsShown (option_map (λ origins. origins.now) told.entry) running r (came r limit running).moves change.new }
{
    match running {
        Running::Step(moves) => make_moves(target, moves, limit),
        Running::To(cycle) => {
            move_to_cycle(target, cycle, limit);
            cycle <= limit.cycles()
        }
        Running::At(address) => move_to_address(target, address, limit),
        Running::Watch(address, count) => {
            move_to_change(target, address, count, limit, told, change)
        }
    }
}
