//! The program for callers in C: one call with everything in the caller's memory, the words, the files that they name, and the output and the report. It stands
//! on `run_words` of `vip_call`, which keeps what the program promises, on the files in memory of `vip_outside`, and on the statuses of `vip_tools`. Whoever calls
//! it may rely on this: where words and files are as `specs/Given.antt` says, status, output and report are those that `vip_main` promises for these words and
//! files, the output's first bytes and its whole length as C's `snprintf` has it; and where they aren't, the answer says so and nothing is written. Nothing is
//! kept between calls. `include/vip.h` declares the call; that C keeps to it, no proof can say.
#![tactic(auto)]

ghost use Rattle.std.specs.Prelude.{IfOk};
ghost use Rattle.vip_c.specs.Answers.{CallAnswers, Fills, RunAnswers};

mod given;
mod kept;

use crate::given::{files_of, words_of};
use crate::kept::Kept;
use std::alloc::{AllocError, Global};
use vip_call::run_words;
use vip_tools::Status;

/// A file that the words may name: where its name and its contents stand among the bytes of a call.
#[repr(C)]
#[derive(Clone, Copy)]
pub struct VipFile {
    /// Where the name begins.
    pub name: usize,
    /// How many bytes the name has.
    pub name_length: usize,
    /// Where the contents begin.
    pub content: usize,
    /// How many bytes the contents have.
    pub content_length: usize,
}

/// How many bytes a call wrote, or would have written where there was no room.
#[repr(C)]
#[derive(Clone, Copy)]
pub struct VipLengths {
    /// Those of the output.
    pub out: usize,
    /// Those of the report.
    pub err: usize,
}

/// What a call came to.
#[derive(Drop)]
struct Ran {
    status: Status,
    out: Vec<u8>,
    err: Vec<u8>,
}

/// Runs the program on its words and the files, where these are given.
fn run(
    alloc: Global,
    words: &[u8],
    files: &[VipFile],
    bytes: &[u8],
) -> Result<Option<Ran>, AllocError>
    ensures { IfOk result (RunAnswers words.now files.now bytes.now) }
{
    let Some(words) = words_of(alloc, words)? else {
        return Ok(None);
    };
    let Some(mut files) = files_of(alloc, files, bytes)? else {
        return Ok(None);
    };
    let mut out = Kept::new(alloc);
    let mut err = Kept::new(alloc);
    let status = run_words(alloc, words.as_slice(), &mut files, &mut out, &mut err);
    Ok(Some(Ran {
        status,
        out: out.bytes,
        err: err.bytes,
    }))
}

/// Puts a text into a room, as much of it as there is room for, and gives its length.
fn fill(room: &mut [u8], text: &[u8]) -> usize
    ensures { Fills text.now room.old room.new result }
{
    let count = room.len().min(text.len());
    room[..count].copy_from_slice(&text[..count]);
    text.len()
}

/// Runs the program on `words`, each ended by a byte 00, on the files at these places in `bytes`. Its output goes to `out` and its report to `err`, as much as
/// there is room for, and `lengths` has how many bytes each has. The answer is the number of its status: 2 also where a word or a name isn't UTF-8, the last word
/// isn't ended, a place isn't within `bytes`, or two files have one name; then, and where no memory was found before the program ran, nothing is written.
#[unsafe(no_mangle)]
pub extern "C" fn vip_run(
    alloc: Global,
    words: &[u8],
    files: &[VipFile],
    bytes: &[u8],
    out: &mut [u8],
    err: &mut [u8],
    lengths: &mut VipLengths,
) -> u8
    ensures { CallAnswers words.now files.now bytes.now out.old out.new err.old err.new lengths.new result }
{
    lengths.out = 0;
    lengths.err = 0;
    match run(alloc, words, files, bytes) {
        Ok(Some(ran)) => {
            lengths.out = fill(out, ran.out.as_slice());
            lengths.err = fill(err, ran.err.as_slice());
            ran.status.number()
        }
        Ok(None) => Status::Usage.number(),
        Err(AllocError) => Status::NoMemory.number(),
    }
}
