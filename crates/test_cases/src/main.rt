//! Runs the cases of `data/cases.txt` through the program, `vip_main`, on files and sinks in memory.
//!
//! A case says with which words and files the program is run, which read or put fails, and the output, the report and the status that
//! are due; the head of that file says how, and `docs/HOW_TO_TEST_AN_EMULATOR.md` with examples. For each group of cases one line says that all are
//! as they must be, and that they are as many as its head has. Of a case that isn't the first thing that was due and didn't come is
//! written, and what came.
//!
//! What no words put out is looked at behind them: a demonstration game, the reports of a ROM that isn't what its source gives, the text of each
//! variant of each error type, and what the real sink and the real files do with streams and files.
//!
//! It stands on the program's call, on the files and sinks of `vip_outside`, and, but for the faults whose texts it looks at, on nothing of what
//! lies below. What is expected was worked out by hand from the rules: this is a test of the definitions that the proofs cite, and nothing
//! here is proved but that it is safe.
#![tactic(auto)]

mod block;
mod counts;
mod due;
mod fault_texts;
mod outside;
mod pattern;
mod run;
mod screen;
mod texts;

use crate::block::{split_block, words_of};
use crate::counts::Counts;
use crate::due::is_met;
use crate::fault_texts::try_fault_texts;
use crate::outside::{try_files, try_streams};
use crate::pattern::number;
use crate::run::Run;
use crate::texts::{try_game, try_number, try_refusals};
use anyhow::Context;
use std::alloc::Global;
use std::fs;

/// How many bytes of an output are written where it isn't as it must be.
const SHOWN: usize = 2_000;

/// The first block of what was due to a case that didn't come. A case to which nothing is due is none.
fn missed<'a>(alloc: Global, lines: &'a str, run: &Run) -> Option<&'a str> {
    let mut rest = lines;
    let mut has_due = false;
    for _block in 0..lines.len() {
        let Some((block, behind)) = split_block(rest) else {
            break;
        };
        rest = behind;
        if block.is_due() {
            has_due = true;
            if !is_met(alloc, &block, run) {
                return Some(block.text);
            }
        }
    }
    if has_due { None } else { Some("nothing") }
}

/// Runs a case in an edition, and writes what isn't as it must be.
fn judge<'a>(
    rt: &HostRuntime,
    name: &'a str,
    tall: bool,
    lines: &str,
    counts: &mut Counts<'a>,
) -> anyhow::Result<()> {
    let mut run = Run::new(rt.alloc())?;
    let missed = if run.make(rt.alloc(), lines, tall) {
        missed(rt.alloc(), lines, &run)
    } else {
        Some("a case that can be run")
    };
    counts.add(missed.is_none(), name);
    match missed {
        Some(due) => write_missed(rt, name, tall, due, &run),
        None => Ok(()),
    }
}

/// Writes what was due to a case and didn't come, and what came.
fn write_missed(
    rt: &HostRuntime,
    name: &str,
    tall: bool,
    due: &str,
    run: &Run,
) -> anyhow::Result<()> {
    let out = run.out.bytes();
    println!(rt;
        "{name}{}, due:\n{due}\ncame: status {}, report {}, bytes {}, puts {}, reports {}, records {}:\n{}",
        if tall { ", tall" } else { "" },
        run.status,
        run.err.bytes().escape_ascii(),
        out.len(),
        run.out.calls(),
        run.err.calls(),
        run.records(),
        out[..out.len().min(SHOWN)].escape_ascii()
    )?;
    Ok(())
}

/// Whether a case is for both editions.
fn is_for_both(case: &str) -> bool {
    for line in case.lines() {
        if words_of(line).0 == "both" {
            return true;
        }
    }
    false
}

/// Runs a case, and one for both editions in each.
fn run_case<'a>(rt: &HostRuntime, case: &'a str, counts: &mut Counts<'a>) -> anyhow::Result<()> {
    let (name, lines) = case.split_once('\n').context("not a case")?;
    judge(rt, name, false, lines, counts)?;
    if is_for_both(lines) {
        judge(rt, name, true, lines, counts)?;
    }
    Ok(())
}

/// The number of runs that these lines say, or 0. None where a line says something else.
fn runs_due(lines: &str) -> Option<u64> {
    let mut due = 0;
    for line in lines.lines() {
        match words_of(line) {
            ("", _) => {}
            ("runs", count) => due = number(count)?,
            _ => return None,
        }
    }
    Some(due)
}

/// Runs the cases of a group, and writes how they went.
fn run_group(rt: &HostRuntime, group: &str) -> anyhow::Result<()> {
    let (head, cases) = group.split_once("\ncase ").context("no cases")?;
    let (name, more) = head.split_once('\n').unwrap_or((head, ""));
    let due = runs_due(more).context("not a group")?;
    let mut counts = Counts::NONE;
    for case in cases.split("\ncase ") {
        run_case(rt, case, &mut counts)?;
    }
    counts.add(counts.are(due), "the number of runs");
    counts.write(rt, name)
}

/// Runs the groups of a text.
fn run_groups(rt: &HostRuntime, text: &str) -> anyhow::Result<()> {
    let (head, groups) = text.split_once("\ngroup ").context("no groups")?;
    runs_due(head).context("a case outside a group")?;
    for group in groups.split("\ngroup ") {
        run_group(rt, group)?;
    }
    Ok(())
}

fn main(rt: HostRuntime) -> anyhow::Result<()> {
    run_groups(&rt, &fs::read_to_string(&rt, "cases.txt")?)?;
    for (what, counts) in [
        ("a demonstration game", try_game(rt.alloc())),
        ("refusals", try_refusals(rt.alloc())),
        ("a large number", try_number()),
        ("texts of faults", try_fault_texts(rt.alloc())),
        ("streams", try_streams()),
        ("files", try_files(&rt)),
    ] {
        counts.write(&rt, what)?;
    }
    Ok(())
}
