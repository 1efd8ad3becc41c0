//! Tries the definitions of `machine` and what the interpreter's ROM does on the board, by what was measured elsewhere, worked out by hand, or is
//! seen of many runs.
//!
//! `processor` runs the CDP1802 of `vip_cpu` through the vectors of `data/processor.txt`, alone and on a board of `vip_board`, small ROMs on a board, and
//! two boards that are joined by port 3, also with wrong ROMs. `interpreter` measures both editions of the ROM. The stored output is what all of this must give: what
//! passed and failed, each count of what failed with the first that did, and the figures that `docs/MACHINE.md` sets beside the bounds.
//!
//! Where a file `steps.txt` is there, which `vectors/to_json` puts, it runs the vectors in that and tells each access of the bus, and does nothing else.
//!
//! It stands on the board, the assembler, the ROM and `vip_show`, and not on the program. Nothing here is proved but that it is safe.
#![tactic(auto)]

mod changes;
mod counts;
mod interpreter;
mod keys;
mod processor;

use std::fs;

fn main(rt: HostRuntime) -> anyhow::Result<()> {
    if let Ok(steps) = fs::read_to_string(&rt, "steps.txt") {
        return processor::write_steps(&rt, &steps);
    }
    let vectors = fs::read_to_string(&rt, "processor.txt")?;
    processor::run(&rt, &vectors, &fs::read_to_string(&rt, "boards.txt")?)?;
    processor::run_wrong_links(&rt, &fs::read_to_string(&rt, "links.txt")?)?;
    let costs = fs::read_to_string(&rt, "costs.txt")?;
    interpreter::run(&rt, &costs, &fs::read_to_string(&rt, "wrong.txt")?)
}
