//! Two joined boards with a ROM that is wrong on purpose: SENDER and RECEIVER as their sources give them, with other bytes at some addresses.

ghost use Rattle.std.specs.Prelude.{◌≤◌, length};

use crate::changes::{ROM, change};
use anyhow::Context;
use asm_core::assemble;
use asm_lex::Isa;
use hex::FromHex;
use std::alloc::{AllocError, Global};
use vip_board::{Board, Wire};
use vip_keypad::Script;
use vip_link::{receiver_text, sender_text};

/// Where A's RAM has the length of the message, and behind it the message.
const LENGTH: u16 = 0x01FE;

/// Where B's RAM has what came.
const STORE: u16 = 0x0200;

/// How many moves B makes before A begins, so that it waits for the first byte.
const AHEAD: u32 = 20;

/// How many times A then makes four moves, and B one, so that A waits for B.
const ROUNDS: u32 = 500;

/// The machine cycles that the moves of a run don't come to.
const CYCLES: u64 = 100_000;

/// The length of a message, and four bytes.
type Message = [u8; 6];

/// The ROM of each board.
#[derive(Clone, Copy)]
struct Roms {
    sender: [u8; 2048],
    receiver: [u8; 2048],
}

/// The ROM that a source gives.
fn rom_of(alloc: Global, text: &[u8]) -> Option<[u8; 2048]>
    requires { length text.now ≤ 1048576 }
{
    let made = assemble(alloc, Isa::Cdp1802, text).ok()?;
    let mut rom = [0; 2048];
    for (place, byte) in rom.iter_mut().enumerate() {
        *byte = made.byte(ROM | place as u16).unwrap_or(0);
    }
    Some(rom)
}

impl Roms {
    /// Those of `vip_link`.
    fn right(alloc: Global) -> Option<Roms> {
        Some(Roms {
            sender: rom_of(alloc, sender_text())?,
            receiver: rom_of(alloc, receiver_text())?,
        })
    }
}

/// A line of `data/links.txt`.
#[derive(Clone, Copy)]
struct Row<'a> {
    name: &'a str,
    roms: Roms,
    message: Message,
}

impl<'a> Row<'a> {
    /// That of a line, by the ROMs that it changes.
    fn read(right: &Roms, line: &'a str) -> Option<Row<'a>> {
        let (name, rest) = line.split_once('|')?;
        let (sender, rest) = rest.split_once('|')?;
        let (receiver, message) = rest.split_once('|')?;
        let mut roms = *right;
        change(&mut roms.sender, sender)?;
        change(&mut roms.receiver, receiver)?;
        Some(Row {
            name: name.trim_end(),
            roms,
            message: Message::from_hex(message.trim_start()).ok()?,
        })
    }
}

/// A board at reset with a ROM, and with these bytes where A has its message.
fn board(alloc: Global, rom: &[u8; 2048], message: &Message) -> Result<Board, AllocError> {
    let mut board = Board::reset(alloc, rom, &Script::empty(alloc))?;
    board.load(LENGTH, message);
    Ok(board)
}

/// Makes a move of a board.
fn step(board: &mut Board, incoming: &mut Wire, outgoing: &mut Wire) {
    if board.cpu().at_boundary() && board.now() < CYCLES {
        board.linked(incoming, outgoing);
    }
}

/// Two joined boards, and how many bytes came onto the wire to B, and from it.
#[derive(Drop)]
struct Pair {
    a: Board,
    b: Board,
    to_b: Wire,
    to_a: Wire,
    sent: u32,
    received: u32,
}

impl Pair {
    /// That of a line, before the first move.
    fn new(alloc: Global, row: &Row<'_>) -> Result<Pair, AllocError> {
        let a = board(alloc, &row.roms.sender, &row.message)?;
        let b = board(alloc, &row.roms.receiver, &[0; 6])?;
        Ok(Pair {
            a,
            b,
            to_b: Wire::new(),
            to_a: Wire::new(),
            sent: 0,
            received: 0,
        })
    }

    /// Makes a move of A.
    fn step_a(&mut self) {
        let empty = self.to_b.full().is_none();
        step(&mut self.a, &mut self.to_a, &mut self.to_b);
        if empty && self.to_b.full().is_some() {
            self.sent = self.sent.saturating_add(1);
        }
    }

    /// Makes a move of B.
    fn step_b(&mut self) {
        let full = self.to_b.full().is_some();
        step(&mut self.b, &mut self.to_b, &mut self.to_a);
        if full && self.to_b.full().is_none() {
            self.received = self.received.saturating_add(1);
        }
    }

    /// Makes the moves of B before A begins.
    fn begin(&mut self) {
        for _move in 0..AHEAD {
            self.step_b();
        }
    }

    /// Makes the moves of both boards behind these.
    fn go_on(&mut self) {
        for _round in 0..ROUNDS {
            self.step_a();
            self.step_a();
            self.step_a();
            self.step_a();
            self.step_b();
        }
    }

    /// The first four bytes that B stored.
    fn stored(&self) -> u32 {
        let ram = self.b.memory();
        u32::from_be_bytes([
            ram.read(STORE),
            ram.read(STORE + 1),
            ram.read(STORE + 2),
            ram.read(STORE + 3),
        ])
    }

    /// Writes what came of a run.
    fn write(&self, rt: &HostRuntime, name: &str) -> anyhow::Result<()> {
        println!(rt;
            "  {name}: {} bytes sent, {} received, {:08X} stored, display of A on {}, of B {}",
            self.sent,
            self.received,
            self.stored(),
            self.a.video().is_on(),
            self.b.video().is_on()
        )?;
        Ok(())
    }
}

/// Runs the pairs of a text, and writes what came of each.
pub fn run_wrong_links(rt: &HostRuntime, text: &str) -> anyhow::Result<()> {
    println!(rt; "two boards, the right ROMs and wrong ones:")?;
    let right = Roms::right(rt.alloc()).context("no ROMs")?;
    for line in text.lines() {
        if !line.starts_with('#') {
            let row = Row::read(&right, line).context("not a pair of ROMs")?;
            let mut pair = Pair::new(rt.alloc(), &row)?;
            pair.begin();
            pair.go_on();
            pair.write(rt, row.name)?;
        }
    }
    Ok(())
}
