//! Vectors with each access of the bus, for `vectors/to_json`.
//!
//! Of each vector a line `step` is written; then for each machine cycle a line `cycle` and one for each access in it: its kind, its address or port and
//! its byte, F a fetch, R a read, W a write, D a DMA cycle, O an output and I an input; and then a line for each register that the vector has changed, by the
//! names of the seventh field. All numbers are decimal. What field 7 and those behind it say is looked at only for the moves that the signals make.

use crate::processor::processor_before;
use crate::processor::test_bus::TestBus;
use crate::processor::vector::{State, Vector};
use anyhow::Context;
use vip_cpu::{Bus, Cpu, Did};

/// Makes a machine cycle, and writes its accesses.
fn write_cycle(
    rt: &HostRuntime,
    cpu: &mut Cpu,
    bus: &mut TestBus,
    dma: bool,
    int: bool,
) -> anyhow::Result<()> {
    let made = bus.calls().len();
    let did = cpu.cycle(bus, dma, int);
    println!(rt; "cycle")?;
    let kind = match did {
        Did::Fetch => "F",
        Did::Dma(_) => "D",
        _ => "R",
    };
    for &address in bus.take_reads().as_slice().iter() {
        println!(rt; "{kind} {address} {}", bus.read(address))?;
    }
    bus.take_reads();
    for call in bus.calls().iter().skip(made) {
        let (n, address, byte) = call.parts();
        match n {
            0 => println!(rt; "W {address} {byte}")?,
            1..=7 => println!(rt; "O {n} {byte}")?,
            _ => println!(rt; "I {} {byte}", n % 8)?,
        }
    }
    Ok(())
}

/// Writes the registers that differ.
fn write_changes(rt: &HostRuntime, before: &State, after: &State) -> anyhow::Result<()> {
    for (n, (old, new)) in before.r.iter().zip(after.r.iter()).enumerate() {
        if old != new {
            println!(rt; "{n} {new}")?;
        }
    }
    for (name, old, new) in [
        (16, before.d, after.d),
        (17, before.t, after.t),
        (18, before.xp, after.xp),
        (19, before.bits, after.bits),
    ] {
        if old != new {
            println!(rt; "{name} {new}")?;
        }
    }
    Ok(())
}

/// Makes the moves of a vector, and writes the accesses of each machine cycle.
fn write_moves(
    rt: &HostRuntime,
    cpu: &mut Cpu,
    bus: &mut TestBus,
    vector: &Vector,
) -> anyhow::Result<()> {
    let signalled = vector.signals.cycles();
    let mut left = vector.cycles.saturating_sub(signalled);
    if vector.kind.has_instruction {
        write_cycle(rt, cpu, bus, false, false)?;
        left = left.saturating_sub(1);
        for _cycle in 0..2 {
            if !cpu.at_boundary() {
                write_cycle(rt, cpu, bus, false, false)?;
                left = left.saturating_sub(1);
            }
        }
    }
    for _idle in 0..left {
        write_cycle(rt, cpu, bus, false, false)?;
    }
    if vector.signals.takes_int {
        write_cycle(rt, cpu, bus, false, true)?;
    }
    for _dma in 0..vector.signals.dma_cycles {
        write_cycle(rt, cpu, bus, true, true)?;
    }
    Ok(())
}

/// Runs the vectors of a text, and writes what they access and change.
pub fn write_steps(rt: &HostRuntime, text: &str) -> anyhow::Result<()> {
    let mut bus = TestBus::new(rt.alloc())?;
    for line in text.lines() {
        if line.starts_with('#') {
            continue;
        }
        let vector = Vector::read(line).context("not a vector")?;
        let mut cpu = processor_before(&vector, &mut bus);
        bus.prepare(&vector);
        bus.take_reads();
        println!(rt; "step")?;
        write_moves(rt, &mut cpu, &mut bus, &vector)?;
        write_changes(rt, &vector.before, &State::of(&cpu))?;
    }
    Ok(())
}
