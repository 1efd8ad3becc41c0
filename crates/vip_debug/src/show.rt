//! The commands that tell of the last dispatch point met.

ghost use Rattle.vip_outside.specs.Sink.{PutAnswers};
ghost use Rattle.vip_debug.specs.Shown.{screen_text, state_line};

use crate::looks::Looks;
use vip_byte::{Buffer, put};
use vip_outside::{Failed, Sink};
use vip_relation::Vip;
use vip_text::{TraceColumns, told_text};

/// Puts the language state there, in these looks with its time, or that there is none.
pub fn put_state<O: Sink>(vip: &Vip, looks: &Looks, out: &mut O) -> Result<(), Failed>
    ensures { PutAnswers (state_line looks.now.origins looks.now.columns vip.now.last) (O.meaning out.old) (O.meaning out.new) result }
{
    let mut text = Buffer::new();
    let timed = TraceColumns {
        time: true,
        ..looks.columns
    };
    match vip.last() {
        Some(view) => told_text(view, timed, &looks.origins, &mut text),
        None => put(&mut text, b"none\n"),
    }
    out.put(text.as_slice())
}

/// Puts the screen there, as one piece.
pub fn put_screen<O: Sink>(vip: &Vip, out: &mut O) -> Result<(), Failed>
    ensures { PutAnswers (screen_text vip.now.edition vip.now.shown) (O.meaning out.old) (O.meaning out.new) result }
{
    let mut text = Buffer::new();
    vip_text::screen_text(vip.shown(), &mut text);
    out.put(text.as_slice())
}
