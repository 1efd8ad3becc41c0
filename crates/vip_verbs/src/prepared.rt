//! A verb that is ready to write, and its work.

ghost use Rattle.vip_verbs.specs.Prepared.{IsReady, PerformAnswers, outcome_of};

use crate::linked::run_link;
use crate::program::{perform_board, perform_program};
use crate::work::{perform_run, put_text, put_told};
use asm_core::Origins;
use asm_listing::CheckText;
use vip_board::Board;
use vip_debug::Looks;
use vip_link::Link;
use vip_outside::Sink;
use vip_program::{Page, ProgramProfile};
use vip_relation::Run;
use vip_show::Profile;
use vip_text::{Limit, TraceColumns};
use vip_tools::{Ended, PerformFault};
use vip_words::{Commands, Moves};

/// A verb that is ready: its files are read and judged, and it needs no more memory. What it comes to is settled: what it writes and how it ends, or
/// that a run that is to be saved has no dispatch point.
#[derive(Drop)]
pub enum Prepared {
    /// A run of the language that begins, up to a limit, and what is shown of it.
    Run {
        run: Run,
        limit: Limit,
        show: ReadyShow,
    },
    /// A run of a program for the processor that begins, up to a limit, and what is shown of it.
    Program {
        board: Board,
        limit: Limit,
        show: ReadyProgramShow,
    },
    /// A run of a program that goes on in the machine of its board, up to a limit, and what is shown of it.
    Resumed {
        board: Board,
        limit: Limit,
        show: ReadyBoardShow,
    },
    /// Two boards that are joined, which make so many moves by the schedule of a number.
    Link {
        link: Link,
        number: u32,
        moves: Moves,
    },
    /// A text, all of the output.
    Text(Vec<u8>),
    /// What is told of a source, all of the output.
    Checked(CheckText),
}

/// What is shown of a run of the language, with what it needs.
#[derive(Drop)]
pub enum ReadyShow {
    /// A line for each dispatch point behind the start, with the source's line that gave it, where it is told, and what is asked for besides.
    Trace {
        columns: TraceColumns,
        origins: Origins,
    },
    /// Each finished picture.
    Pictures,
    /// The answers to these commands of the debugger, which are shown so.
    Commands {
        commands: Commands,
        looks: Looks,
    },
    /// The last dispatch point, as a state file.
    State,
    /// Where its time goes, by its dispatch points, with the memory for it.
    Profile {
        counts: Profile,
        page: Page,
    },
    /// One line that counts a demonstration game of this number.
    Summary(u32),
}

/// What is shown of a run of a program for the processor, with what it needs.
#[derive(Drop)]
pub enum ReadyProgramShow {
    /// A line for each move or stretch of moves, behind those of the labels of this source.
    Trace(Origins),
    /// Each finished picture.
    Pictures,
    /// Where its time goes, by its instructions, with the memory for it.
    Profile { counts: ProgramProfile, page: Page },
    /// What needs the board alone.
    Board(ReadyBoardShow),
}

/// What is shown of a program's board, with what it needs.
#[derive(Drop)]
pub enum ReadyBoardShow {
    /// The answers to these commands of the debugger, with the labels of this source.
    Commands {
        commands: Commands,
        origins: Origins,
    },
    /// The state in which the run ends, as a state file.
    State,
}

/// Does the work of a verb that is ready: its output goes out piece by piece, each by one put, up to the first put that fails. A run that is to be
/// saved is refused where it has no dispatch point, and nothing is put. It takes no memory, and so never wants any.
pub fn perform<O: Sink>(prepared: Prepared, out: &mut O) -> Result<Ended, PerformFault>
    requires { IsReady prepared }
    ensures { PerformAnswers (outcome_of prepared) (O.meaning out.old) (O.meaning out.new) result }
{
    match prepared {
        Prepared::Run { run, limit, show } => perform_run(run, limit, show, out),
        Prepared::Program {
            mut board,
            limit,
            show,
        } => perform_program(&mut board, limit, show, out),
        Prepared::Resumed {
            mut board,
            limit,
            show,
        } => perform_board(&mut board, limit, show, out),
        Prepared::Link {
            mut link,
            number,
            moves,
        } => run_link(&mut link, number, moves, out),
        Prepared::Text(text) => put_text(text, out),
        Prepared::Checked(told) => put_told(told, out),
    }
}
