//! Two boards that are joined by port 3, under many schedules.
//!
//! After each schedule, and after each move of the short ones, the bytes that B received are the first ones of the message, and A sent as many or
//! one more. In the end B received the whole message. Before them come the rows that were worked out by hand.

use crate::counts::Counts;
use std::alloc::Global;
use vip_board::{Board, Wire};
use vip_keypad::Script;
use vip_link::{Link, LinkFault, Side, check_link};

/// The lengths of the messages under random schedules.
const LENGTHS: [usize; 7] = [0, 1, 2, 255, 256, 257, 3_000];

/// The bytes of the longest message, and a message with one more.
const MOST_BYTES: usize = 3_000;

const TOO_LONG: [u8; 3_001] = [0; 3_001];

/// How many random schedules there are.
const RANDOM: u32 = 1_000;

/// The message of the short schedules.
const SHORT: &[u8] = b"HI";

/// The moves of both boards in turn that bring it.
const ENOUGH: u32 = 100;

/// The moves of a schedule that are tried in every order, and how many of them come before a hand-over.
const TRIED: u32 = 16;

const BEFORE: u32 = 8;

/// Makes a move of a side, unless too many were made.
fn step(link: &mut Link, side: Side) {
    if link.moves() < 20_000_000 {
        link.step(side);
    }
}

/// The side of a move where both move in turn.
fn in_turn(number: u32) -> Side {
    if number % 2 == 0 { Side::A } else { Side::B }
}

/// Makes so many moves of both boards in turn.
fn alternate(link: &mut Link, moves: u32) {
    for number in 0..moves {
        step(link, in_turn(number));
    }
}

/// Makes so many moves by the schedule of a number, unless too many were made.
fn run(link: &mut Link, number: u32, moves: u32) {
    if link.moves() < 10_000_000 && moves < 10_000_000 {
        link.run(number, moves);
    }
}

/// What was sent and received is a part of the message.
fn is_part(link: &Link, message: &[u8]) -> bool {
    let received = link.received();
    let ahead = (link.sent() as usize).wrapping_sub(received.len());
    message.starts_with(received) && ahead <= 1
}

/// Whether so many bytes were sent, and these received.
fn brought(link: &Link, sent: u32, received: &[u8]) -> bool {
    link.sent() == sent && link.received() == received
}

/// How a link is moved, and what comes of it.
#[derive(Clone, Copy)]
enum Plan {
    /// No move sends nothing.
    Rest,
    /// 1,000 moves of A alone send one byte.
    Alone,
    /// 160 pairs A, B bring the message.
    Pairs,
    /// Behind so many moves in turn the next one puts a byte on the wire or takes it.
    HandsOver(u32),
    /// Behind so many moves in turn come those of a schedule, a bit a move, and then enough to bring the message.
    Short(u32, u16),
    /// 40 times so many random moves bring the message, by the schedules of a number.
    Random(u32, u32),
}

/// Moves a link by a plan. False where not what is due comes of it, or a move leaves what is no part of the message.
fn comes_true(link: &mut Link, message: &[u8], plan: Plan) -> bool {
    match plan {
        Plan::Rest => brought(link, 0, b""),
        Plan::Alone => sends_one(link),
        Plan::Pairs => brings(link, 320),
        Plan::HandsOver(number) => hands_over(link, number),
        Plan::Short(before, schedule) => {
            alternate(link, before);
            follows(link, schedule) && brings(link, ENOUGH)
        }
        Plan::Random(number, moves) => {
            follows_random(link, message, number, moves) && link.received() == message
        }
    }
}

/// Tries a plan with a message.
fn tries(alloc: Global, message: &[u8], plan: Plan) -> bool {
    match Link::new(alloc, message) {
        Ok(mut link) => comes_true(&mut link, message, plan),
        Err(_) => false,
    }
}

/// Makes 1,000 moves of A alone. Answers whether they send one byte.
fn sends_one(link: &mut Link) -> bool {
    for _move in 0..1_000 {
        step(link, Side::A);
    }
    brought(link, 1, b"")
}

/// Makes so many moves in turn. Answers whether they bring the short message.
fn brings(link: &mut Link, moves: u32) -> bool {
    alternate(link, moves);
    brought(link, 2, SHORT)
}

/// Makes so many moves in turn and one more. Answers whether that one puts a byte on the wire or takes it.
fn hands_over(link: &mut Link, number: u32) -> bool {
    alternate(link, number);
    let sent = link.sent();
    let received = link.received().len();
    step(link, in_turn(number));
    link.sent() != sent || link.received().len() != received
}

/// Makes the moves of a schedule, a bit a move. False where a move leaves what is no part of the message.
fn follows(link: &mut Link, schedule: u16) -> bool {
    for bit in 0..TRIED {
        step(link, in_turn(u32::from(schedule) >> bit));
        if !is_part(link, SHORT) {
            return false;
        }
    }
    true
}

/// Makes 40 times so many random moves. False where some leave what is no part of the message.
fn follows_random(link: &mut Link, message: &[u8], number: u32, moves: u32) -> bool {
    for part in 0..40 {
        run(link, number.wrapping_add(part), moves);
        if !is_part(link, message) {
            return false;
        }
    }
    true
}

/// Whether a byte is lost that a board sends while its wire is full.
fn keeps(board: &mut Board) -> bool {
    let mut incoming = Wire::new();
    let mut outgoing = Wire::new();
    for _move in 0..2 {
        if board.cpu().at_boundary() && board.now() < 100 {
            board.linked(&mut incoming, &mut outgoing);
        }
    }
    outgoing.full() == Some(0x41) && board.cpu().r(0) == 4
}

/// Tries that with a board which sends 41 and then 42, and doesn't look at EF4.
fn full_wire_keeps(alloc: Global) -> bool {
    let mut rom = [0; 0x800];
    rom[..4].copy_from_slice(&[0x63, 0x41, 0x63, 0x42]);
    match Board::reset(alloc, &rom, &Script::empty(alloc)) {
        Ok(mut board) => keeps(&mut board),
        Err(_) => false,
    }
}

/// Whether a message with one byte too many is refused.
fn refuses_more(alloc: Global) -> bool {
    matches!(
        Link::new(alloc, &TOO_LONG),
        Err(LinkFault::MessageTooLarge(3_001))
    )
}

/// Tries the rows: no move, 1,000 moves of A alone, 160 pairs A, B, a byte on a full wire, one byte too many, and both ROMs against their texts.
pub fn rows(alloc: Global) -> Counts<'static> {
    let mut counts = Counts::NONE;
    for plan in [Plan::Rest, Plan::Alone, Plan::Pairs] {
        counts.add(tries(alloc, SHORT, plan), "");
    }
    counts.add(full_wire_keeps(alloc), "");
    counts.add(refuses_more(alloc), "");
    counts.add(check_link(alloc).is_ok(), "");
    counts
}

/// Tries every schedule of 16 moves behind so many in turn.
fn try_each(alloc: Global, before: u32, counts: &mut Counts<'_>) {
    for schedule in 0..=u16::MAX {
        counts.add(tries(alloc, SHORT, Plan::Short(before, schedule)), "");
    }
}

/// Tries every schedule of 16 moves around each move of a run in turn that puts a byte on the wire or takes it.
pub fn around_each_hand_over(alloc: Global) -> Counts<'static> {
    let mut counts = Counts::NONE;
    for number in 0..ENOUGH {
        if tries(alloc, SHORT, Plan::HandsOver(number)) {
            try_each(alloc, number.saturating_sub(BEFORE), &mut counts);
        }
    }
    counts
}

/// The longest message, in which all bytes come in turn, by the step of a number.
fn message_of(number: u32) -> [u8; MOST_BYTES] {
    let mut message = [0; MOST_BYTES];
    let step = (number % 256) as u8 | 1;
    let mut next = 0u8;
    for byte in message.iter_mut() {
        *byte = next;
        next = next.wrapping_add(step);
    }
    message
}

/// Tries random schedules, with messages of several lengths.
pub fn at_random(alloc: Global) -> Counts<'static> {
    let mut counts = Counts::NONE;
    for number in 0..RANDOM {
        let length = LENGTHS[(number % 7) as usize];
        let message = message_of(number);
        let plan = Plan::Random(number, (length as u32).saturating_add(4));
        counts.add(tries(alloc, &message[..length.min(MOST_BYTES)], plan), "");
    }
    counts
}
