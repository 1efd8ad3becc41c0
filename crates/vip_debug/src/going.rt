//! The commands that look for a dispatch point.

ghost use Rattle.std.specs.Prelude.{◌≡◌, ◌-◌, ◌≤◌, find, slice_get};
ghost use Rattle.chip8_lang.specs.View.{view_at};
ghost use Rattle.vip_relation.specs.Follows.{Follows};
ghost use Rattle.vip_debug.specs.Answers.{has_pc};
ghost use Rattle.vip_debug.specs.Parts.{Arrives, FindAnswers, PassAnswers, TellsPresent, points_left};

use vip_relation::{Met, Vip};
use vip_text::Limit;
use vip_words::Seeking;

/// Runs to the next dispatch point, past pictures, or to the end of the run. Answers whether there is one.
fn pass(vip: &mut Vip, limit: Limit) -> bool
    requires follows { Follows vip.old }
    requires within { vip.old.board.machine.cycle ≤ limit }
    ensures follows { Follows vip.new }
    ensures answer { PassAnswers limit vip.old vip.new result }
{
    loop {
        match vip.advance(limit) {
            Met::Dispatch => return true,
            Met::Picture => {}
            Met::Stopped(_) => return false,
            Met::End => return false,
        }
    }
}

/// Runs to the so-many-th next dispatch point. Answers whether there is one.
fn pass_points(vip: &mut Vip, points: u32, limit: Limit) -> bool
    requires follows { Follows vip.old }
    requires within { vip.old.board.machine.cycle ≤ limit }
    ensures follows { Follows vip.new }
    ensures answer { FindAnswers limit vip.old vip.new (slice_get (points_left vip.old limit) (points - 1)) result }
{
    for _point in 1..points {
        if !pass(vip, limit) {
            return false;
        }
    }
    pass(vip, limit)
}

/// Whether the last dispatch point met, at which the board is, has this pc.
fn is_at_pc(vip: &Vip, pc: u16) -> bool
    requires { TellsPresent vip.now }
    ensures { result ≡ has_pc vip.now pc vip.now.board.machine }
{
    match vip.last() {
        Some(view) => view.pc == pc,
        None => false,
    }
}

/// Runs to the next dispatch point with this pc. Answers whether there is one.
fn pass_to_pc(vip: &mut Vip, pc: u16, limit: Limit) -> bool
    requires follows { Follows vip.old }
    requires within { vip.old.board.machine.cycle ≤ limit }
    ensures follows { Follows vip.new }
    ensures answer { FindAnswers limit vip.old vip.new (find (has_pc vip.old pc) (points_left vip.old limit)) result }
{
    while pass(vip, limit) {
        if is_at_pc(vip, pc) {
            return true;
        }
    }
    false
}

/// Runs to the dispatch point that a command looks for, or to the end of the run. Answers whether there is one.
pub fn seek(vip: &mut Vip, seeking: Seeking, limit: Limit) -> bool
    requires follows { Follows vip.old }
    requires within { vip.old.board.machine.cycle ≤ limit }
    ensures follows { Follows vip.new }
    ensures arrives { Arrives limit seeking vip.old vip.new result }
{
    match seeking {
        Seeking::Next(points) => pass_points(vip, points, limit),
        Seeking::Break(pc) => pass_to_pc(vip, pc, limit),
    }
}
