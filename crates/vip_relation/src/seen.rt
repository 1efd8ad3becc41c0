//! What a layer above reads off a board that it runs itself: the language state, and which stop it is.

ghost use Rattle.std.specs.Prelude.{◌≡◌};
ghost use Rattle.chip8_lang.specs.View.{seen, view_at};
ghost use Rattle.vip_relation.specs.Stops.{stop_at};

use crate::point::stop_of_number;
use crate::view::{stop_number, view};
use chip8_lang::{Edition, StateView, Stop};
use vip_board::Board;
use vip_keypad::Keys;

/// The view of the language state that lies in the board's machine. At a dispatch point it is the state that the board stands for.
pub fn view_of<K: Keys>(board: &Board<K>, edition: Edition) -> StateView
    ensures { seen result ≡ view_at edition board.now.machine }
{
    view(edition, board)
}

/// The stop whose number stands in the machine's cell. At a stop point it is that of the language.
pub fn stop_of<K: Keys>(board: &Board<K>) -> Stop
    ensures { result ≡ stop_at board.now.machine }
{
    stop_of_number(stop_number(board))
}
