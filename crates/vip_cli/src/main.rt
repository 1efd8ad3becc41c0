//! The program `vip`.
//!
//! It makes the call `vip_main` of `vip_call` on the arguments of its command line, the files of the
//! file system, standard output and standard error, and exits with the status of that call. The crate
//! stands on that call, on the files and streams of `vip_outside`, on the statuses of `vip_tools` and
//! on the remarks of `vip_words`.
//!
//! `process` is generic over the file system and the two streams, and proved as such:
//!
//! - The arguments are all those after the program's name.
//! - What is opened and what goes to the streams is what the call promises.
//! - The remark of `vip_words` on the arguments follows the report if the reports go to a terminal
//!   and the arguments were rejected or something ran. Otherwise nothing follows it.
//! - The process exits with the number of its status.
//!
//! `main` is one call of `process` with the real file system and streams. No contract can say what
//! they contain, nor which of them are terminals.
#![tactic(auto)]

ghost use Rattle.std.specs.Prelude.{◌≡◌, ◌&&◌, IfOk, map, string_bytes};
ghost use Rattle.std.specs.Process.{exit_status};
ghost use Rattle.vip_cli.specs.Process.{ProcessAnswers, RemarkAnswers, WordsAnswer, is_remarked, words_behind};

use std::alloc::{AllocError, Global};
use std::env;
use std::io::{self, ErrorKind, IsTerminal};
use std::process::ExitCode;
use vip_call::vip_main;
use vip_outside::{Host, RealFiles, Sink, StdSink, Stream, System, Writer};
use vip_tools::{Refusal, Status, put_refusal};
use vip_words::remark;

/// The words behind the program's name, all of them.
fn words_after_name(alloc: Global, args: env::Args) -> Result<Vec<String>, AllocError>
    ensures { IfOk result (λ words. words.items ≡ words_behind args) }
{
    args.skip(1).collect(alloc)
}

/// The words of a command line. One that isn't UTF-8 makes it a faulty one.
fn words_of(alloc: Global, args: io::Result<env::Args>) -> Result<Vec<String>, Refusal<'static>>
    ensures { WordsAnswer args result }
{
    match args {
        Ok(args) => match words_after_name(alloc, args) {
            Ok(words) => Ok(words),
            Err(_) => Err(Refusal::NoMemory),
        },
        Err(e) if e.kind() == ErrorKind::OutOfMemory => Err(Refusal::NoMemory),
        Err(_) => Err(Refusal::Usage),
    }
}

/// Whether a remark may follow the report of a call with this status: its arguments were rejected, or
/// something ran.
fn is_remarked(status: Status) -> bool
    ensures { result ≡ is_remarked status }
{
    matches!(status, Status::Usage | Status::Done | Status::Stopped)
}

/// Whether a remark is shown: only on a terminal.
fn is_shown(is_terminal: bool, status: Status) -> bool
    ensures { result ≡ (is_terminal && is_remarked status) }
{
    is_terminal && is_remarked(status)
}

/// Writes the remark on the arguments after the report, in one line, if it is to be shown and there is
/// one.
fn put_remark<E: Sink>(alloc: Global, shown: bool, words: &[String], err: &mut E)
    ensures { RemarkAnswers shown (map string_bytes words.now) (E.meaning err.old) (E.meaning err.new) }
{
    if !shown {
        return;
    }
    let Ok(line) = remark(alloc, words) else {
        return;
    };
    if !line.is_empty() {
        let _ = err.put(line.as_bytes());
    }
}

/// Runs the program on a command line, on the files of a system, and on a sink over a stream for its output and one for its report, which may be that of a
/// terminal.
fn process<S: System, O: Stream, E: Stream>(
    alloc: Global,
    args: io::Result<env::Args>,
    is_terminal: bool,
    files: &mut RealFiles<S>,
    out: &mut StdSink<O>,
    err: &mut StdSink<E>,
) -> ExitCode
    ensures { ProcessAnswers args is_terminal files.old files.new out.old out.new err.old err.new (exit_status result) }
{
    match words_of(alloc, args) {
        Ok(words) => {
            let words = words.as_slice();
            let status = vip_main(alloc, words, files, out, err);
            let shown = is_shown(is_terminal, status);
            put_remark(alloc, shown, words, err);
            ExitCode::from(status.number())
        }
        Err(refusal) => {
            let status = put_refusal(alloc, err, &refusal);
            ExitCode::from(status.number())
        }
    }
}

fn main(rt: HostRuntime) -> ExitCode {
    process(
        rt.alloc(),
        env::args(&rt),
        rt.stderr().is_terminal(),
        &mut RealFiles::new(Host::new(&rt)),
        &mut StdSink::new(Writer::new(rt.stdout())),
        &mut StdSink::new(Writer::new(rt.stderr())),
    )
}
