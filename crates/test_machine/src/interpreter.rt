//! Runs the whole interpreter's ROM on the board, in both editions, and says what it did.
//!
//! Short sources are compared with a ROM. The source's form is looked at: which of its lines are data, where its labels lie, and that the text of each part
//! gives the bytes at that part's addresses and no others. Some thousand frames of random games and each instruction of
//! `data/costs.txt` are measured: the most machine cycles of each kind of step, which `docs/MACHINE.md` sets beside the bounds, the place
//! and the length of each interrupt, each picture against the screen of the last dispatch point before it, whether each window has one, and whether
//! an interrupt comes between a write to the screen and the next dispatch point. The same is said of the wrong interpreters of `data/wrong.txt`, and at
//! how many points the language doesn't lead on from the one before: a law of `rom_run` is false of each, so that it shows there.
//!
//! Then machine states in files are made by random numbers, and each is gone on from: every point is compared with the step of the language from the
//! one before it, as `docs/LANGUAGE.md` has it. Then runs of random games are saved and gone on with, and compared with the trace in one go. Last, runs that
//! keep what is told of a dispatch point are started, by calls that the program doesn't make.
//!
//! That the ROM is CHIP-8 within the bounds is proved in `rom_run`; what is measured here says how far below them it stays.

mod comparison;
mod console;
mod costs;
mod cuts;
mod edition;
mod files;
mod follower;
mod game;
mod language;
mod numbers;
mod parts;
mod report;
mod runs;
mod source;
mod starts;
mod watch;
mod wrong;

use crate::interpreter::comparison::compare_sources;
use crate::interpreter::cuts::cut_runs;
use crate::interpreter::edition::{EDITIONS, name};
use crate::interpreter::files::run_files;
use crate::interpreter::parts::write_parts;
use crate::interpreter::report::{
    write_costs, write_cuts, write_files, write_form, write_frames, write_wrong,
};
use crate::interpreter::runs::{run_demos, run_instructions};
use crate::interpreter::source::form_of;
use crate::interpreter::starts::start_runs;
use crate::interpreter::watch::{KeyTests, Watch};
use crate::interpreter::wrong::Wrong;
use anyhow::{Context, bail};
use chip8_lang::Edition;

/// Looks at an edition's source, and writes its form. Answers where it tests keys.
fn look_at_source(rt: &HostRuntime, edition: Edition) -> anyhow::Result<KeyTests> {
    let form = form_of(rt.alloc(), edition)?;
    write_form(rt, edition, &form)?;
    Ok(form.key_tests)
}

/// Measures an edition, and writes what was seen.
fn measure(
    rt: &HostRuntime,
    edition: Edition,
    text: &str,
    key_tests: KeyTests,
) -> anyhow::Result<()> {
    let mut watch = Watch::new(key_tests);
    run_demos(rt.alloc(), edition, &mut watch);
    write_frames(rt, edition, "random games", &watch)?;
    if !run_instructions(rt.alloc(), edition, text, &mut watch) {
        bail!("not an instruction");
    }
    write_frames(rt, edition, "these and each instruction", &watch)?;
    write_costs(rt, &watch.costs)
}

/// Runs the wrong interpreters of an edition, and writes what was seen of each.
fn run_wrong_ones(
    rt: &HostRuntime,
    edition: Edition,
    text: &str,
    key_tests: KeyTests,
) -> anyhow::Result<()> {
    println!(rt; "{}, wrong interpreters:", name(edition))?;
    for line in text.lines() {
        if !line.starts_with('#') {
            let wrong = Wrong::read(edition, line).context("not a wrong interpreter")?;
            let mut watch = Watch::new(key_tests);
            let came = wrong.run(rt.alloc(), edition, &mut watch)?;
            write_wrong(rt, wrong.name, &came, &watch)?;
        }
    }
    Ok(())
}

/// Runs the ROM of both editions, with the texts of what is measured and of what is wrong, and writes what was seen.
pub fn run(rt: &HostRuntime, costs: &str, wrong: &str) -> anyhow::Result<()> {
    compare_sources(rt.alloc()).write(rt, "short sources against a ROM")?;
    for edition in EDITIONS {
        let key_tests = look_at_source(rt, edition)?;
        write_parts(rt, edition)?;
        measure(rt, edition, costs, key_tests)?;
        run_wrong_ones(rt, edition, wrong, key_tests)?;
    }
    write_files(rt, &run_files(rt.alloc()))?;
    write_cuts(rt, &cut_runs(rt.alloc())?)?;
    start_runs(rt.alloc()).write(rt, "starts of runs")
}
