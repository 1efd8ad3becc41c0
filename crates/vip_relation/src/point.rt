//! What a state of the run is to the language.

ghost use Rattle.std.specs.Prelude.{◌≡◌};
ghost use Rattle.chip8_image.specs.Interpreters.{interpreter_of};
ghost use Rattle.vip_relation.specs.Stops.{stop_numbered};
ghost use Rattle.vip_relation.specs.Points.{point_of};

use chip8_image::Places;
use chip8_lang::{Edition, Stop};
use vip_board::Board;
use vip_cpu::Phase;
use vip_keypad::Keys;

/// A dispatch point, a stop point, or neither.
#[derive(Clone, Copy)]
pub enum Point {
    Dispatch,
    Stop,
    Other,
}

/// What the state of a board at a boundary is.
pub fn point_at<K: Keys>(edition: Edition, board: &Board<K>) -> Point
    requires { board.now.phase ≡ Phase.Boundary }
    ensures { result ≡ point_of (interpreter_of edition) board.now.machine }
{
    let places = Places::of(edition);
    let cpu = board.cpu();
    match cpu.p() {
        3 if cpu.r(3) == places.halt && board.next_is_instruction() => Point::Stop,
        4 if cpu.r(4) == places.fetch && board.next_is_instruction() => Point::Dispatch,
        _ => Point::Other,
    }
}

/// The stop of a number from 1 to 7.
pub fn stop_of_number(number: u8) -> Stop
    ensures { result ≡ stop_numbered number }
{
    match number {
        1 => Stop::MachineCall,
        2 => Stop::Unknown,
        3 => Stop::FetchOutside,
        4 => Stop::ReadOutside,
        5 => Stop::WriteOutside,
        6 => Stop::StackFull,
        _ => Stop::StackEmpty,
    }
}
