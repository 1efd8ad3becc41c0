//! The link.

ghost use Rattle.std.specs.Prelude.{◌≡◌, ◌+◌, ◌<◌, ◌≤◌, ◌++◌, [], length, option_to_list, vec_capacity, IfOk};
ghost use Rattle.vip_link.specs.Pair.{stepped, scheduled, entered, left};
ghost use Rattle.vip_link.specs.Roms.{sender_rom, receiver_rom};
ghost use Rattle.vip_link.specs.Laws.{most_bytes, start, Delivers};
ghost use Rattle.vip_link.specs.Schedules.{schedule_by};
ghost use Rattle.vip_board.specs.Moves.{name_of};
ghost use Rattle.vip_link.specs.Links.{Starts, started, machine_of};
ghost use Rattle.vip_link.specs.Kept.{AtStart};
ghost use Rattle.machine.specs.Board.{after_reset};

use crate::fault::LinkFault;
use crate::image::{receiver_image, sender_image};
use crate::schedule::{next_random, side_by};
use crate::side::Side;
use std::alloc::{AllocError, Global};
use std::marker::Model;
use vip_board::{Board, Move, Wire};
use vip_keypad::Script;

/// The longest message, in bytes.
const MOST_BYTES: usize = 3000;

/// Where the message begins in A's RAM.
const MESSAGE: u16 = 0x0200;

/// Where its length stands, the high byte first.
const LENGTH: u16 = 0x01FE;

/// How many bytes entered a wire, by what it held before and after.
fn bytes_entered(before: Option<u8>, after: Option<u8>) -> u32
    ensures { result ≡ length (entered before after) }
{
    match (before, after) {
        (None, Some(_)) => 1,
        _ => 0,
    }
}

/// The byte that left a wire, by what it held before and after.
fn byte_left(before: Option<u8>, after: Option<u8>) -> Option<u8>
    ensures { option_to_list result ≡ left before after }
{
    if after.is_none() { before } else { None }
}

/// Appends a byte, if there is one, where there is room for it.
fn store(received: &mut Vec<u8>, byte: Option<u8>)
    requires { length received.old.items + length (option_to_list byte) ≤ vec_capacity received.old }
    ensures items { received.new.items ≡ received.old.items ++ option_to_list byte }
    ensures room { vec_capacity received.old ≤ vec_capacity received.new }
{
    if let Some(byte) = byte {
        received.push(byte).unwrap();
    }
}

/// A board at reset with this ROM, and no key held down.
fn at_reset(alloc: Global, rom: &[u8; 2048]) -> Result<Board, AllocError>
    ensures { IfOk result (AtStart rom.now after_reset) }
{
    Board::reset(alloc, rom, &Script::empty(alloc))
}

/// A's board at reset, with the message in its RAM from 0200 on and the message's length at 01FE.
fn board_a(alloc: Global, message: &[u8]) -> Result<Board, AllocError>
    requires { length message.now ≤ most_bytes }
    ensures { IfOk result (AtStart sender_rom (start message.now).a) }
{
    let mut a = at_reset(alloc, &sender_image())?;
    let length = message.len();
    a.load(LENGTH, &[(length / 256) as u8, (length % 256) as u8]);
    a.load(MESSAGE, message);
    Ok(a)
}

/// A copy of the message, and an empty vector with room for the longest.
fn copies(alloc: Global, message: &[u8]) -> Result<(Vec<u8>, Vec<u8>), AllocError>
    ensures { IfOk result (λ c. (c.0.items ≡ message.now) × (c.1.items ≡ []) × (most_bytes ≤ vec_capacity c.1)) }
{
    let copy = Vec::from_slice(alloc, message)?;
    let received = Vec::with_capacity(alloc, MOST_BYTES)?;
    Ok((copy, received))
}

/// Two boards that are joined by two wires, the message that A sends, and the bytes that B received.
///
/// Clauses see it as a `Linking`: the pair of machines with the bytes that were sent and received, the message, and the number of moves.
#[derive(Drop)]
pub struct Link {
    a: Board,
    b: Board,
    to_b: Wire,
    to_a: Wire,
    message: Vec<u8>,
    received: Vec<u8>,
    sent: u32,
    moves: u32,
}

impl Model for Link {
    ghost use Rattle.vip_link.specs.Links.{Linking};

    ghost Value = { Linking };

    ghost use Rattle.vip_link.specs.Kept.{linking_of, IsKept};

    ghost view = { linking_of };

    ghost invariant = { IsKept };
}

impl Link {
    /// Both boards at reset with empty wires, A with the message in its RAM from 0200 on and the message's length at 01FE. All the memory that
    /// the link ever needs is taken here.
    ///
    /// # Errors
    ///
    /// `MessageTooLarge` is a message of more than 3,000 bytes.
    pub fn new(alloc: Global, message: &[u8]) -> Result<Link, LinkFault>
        ensures { Starts message.now result }
    {
        if message.len() > MOST_BYTES {
            return Err(LinkFault::MessageTooLarge(message.len()));
        }
        let a = board_a(alloc, message)?;
        Ok(Link::with_b(alloc, a, message)?)
    }

    // `new` is split into small calls, as each place where memory may be lacking drops the boards and bytes that are alive there, and the cost
    // of a function's proof grows faster than the number of those drops.

    /// A's board joined to a new one of B.
    fn with_b(alloc: Global, a: Board, message: &[u8]) -> Result<Link, AllocError>
        requires a { AtStart sender_rom (start message.now).a a }
        requires short { length message.now ≤ most_bytes }
        ensures { IfOk result (λ l. l ≡ started message.now) }
    {
        let b = at_reset(alloc, &receiver_image())?;
        Link::with_copies(alloc, a, b, message)
    }

    /// Both boards joined, with a copy of the message and room for the longest.
    fn with_copies(alloc: Global, a: Board, b: Board, message: &[u8]) -> Result<Link, AllocError>
        requires a { AtStart sender_rom (start message.now).a a }
        requires b { AtStart receiver_rom after_reset b }
        requires short { length message.now ≤ most_bytes }
        ensures { IfOk result (λ l. l ≡ started message.now) }
    {
        let (message, received) = copies(alloc, message)?;
        Ok(Link::joining(a, b, message, received))
    }

    /// Both boards with empty wires between them, before the first move.
    fn joining(a: Board, b: Board, message: Vec<u8>, received: Vec<u8>) -> Link
        requires a { AtStart sender_rom (start message.items).a a }
        requires b { AtStart receiver_rom after_reset b }
        requires short { length message.items ≤ most_bytes }
        requires empty { received.items ≡ [] }
        requires room { most_bytes ≤ vec_capacity received }
        ensures { result ≡ started message.items }
    {
        Link {
            a,
            b,
            to_b: Wire::new(),
            to_a: Wire::new(),
            message,
            received,
            sent: 0,
            moves: 0,
        }
    }

    /// Makes one linked move of a side's board, and names it. It takes no memory.
    pub fn step(&mut self, side: Side) -> Move
        requires { self.old.moves < 20000000 }
        ensures stepped { self.new ≡ record self.old { pair = stepped sender_rom receiver_rom side self.old.pair; moves = self.old.moves + 1 } }
        ensures named { result ≡ name_of (machine_of side self.old.pair) }
    {
        match side {
            Side::A => self.step_a(),
            Side::B => self.step_b(),
        }
    }

    /// Makes so many moves by the schedule that a number gives. It takes no memory.
    pub fn run(&mut self, number: u32, moves: u32)
        requires { self.old.moves + moves ≤ 20000000 }
        ensures { self.new ≡ record self.old { pair = scheduled sender_rom receiver_rom (schedule_by number moves) self.old.pair; moves = self.old.moves + moves } }
    {
        let mut x = number;
        for _move in 0..moves {
            x = next_random(x);
            self.step(side_by(x));
        }
    }

    /// A move of A, which may put the next byte of the message on the wire.
    fn step_a(&mut self) -> Move
        requires { self.old.moves < 20000000 }
        ensures stepped { self.new ≡ record self.old { pair = stepped sender_rom receiver_rom Side.A self.old.pair; moves = self.old.moves + 1 } }
        ensures named { result ≡ name_of self.old.pair.a }
    {
        let before = self.to_b.full();
        let made = self.a.linked(&mut self.to_a, &mut self.to_b);
        self.sent += bytes_entered(before, self.to_b.full());
        self.moves += 1;
        made
    }

    /// A move of B, which may take the byte from the wire.
    fn step_b(&mut self) -> Move
        requires { self.old.moves < 20000000 }
        ensures stepped { self.new ≡ record self.old { pair = stepped sender_rom receiver_rom Side.B self.old.pair; moves = self.old.moves + 1 } }
        ensures named { result ≡ name_of self.old.pair.b }
    {
        let before = self.to_b.full();
        let made = self.b.linked(&mut self.to_b, &mut self.to_a);
        store(&mut self.received, byte_left(before, self.to_b.full()));
        self.moves += 1;
        made
    }

    /// The bytes that B received, in order. They lie in its RAM from 0200 on, and are a prefix of the message.
    pub fn received(&self) -> &[u8]
        ensures value { result.now ≡ self.now.pair.received }
        ensures delivers { Delivers self.now.message self.now.pair }
    {
        &self.received
    }

    /// How many bytes A sent: as many as B received, or one more, which is on the wire.
    pub fn sent(&self) -> u32
        ensures value { result ≡ length self.now.pair.sent }
        ensures delivers { Delivers self.now.message self.now.pair }
    {
        self.sent
    }

    /// The number of moves made so far, of both boards.
    pub fn moves(&self) -> u32
        ensures { result ≡ self.now.moves }
    {
        self.moves
    }
}
