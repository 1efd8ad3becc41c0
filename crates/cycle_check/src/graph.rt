//! The lines of a routine as a graph: which lines lead to which, and which of them take one from
//! the counter.

use crate::closed::{Instruction, instruction_at, lets_through, ways_from};
use crate::drawn::drawn_at;
use crate::forward::{ROM_SIZE, end_of};
use crate::grammar::{Bound, Fact, Line};
use crate::table::{Way, Ways};
use arrayvec::ArrayVec;
use std::alloc::{AllocError, Global};
use vip_isa::Kind;

/// The number of places in the ROM.
pub const PLACES: u16 = 2_048;

/// A line, its instruction and its ways.
#[derive(Clone, Copy)]
pub struct Node {
    pub line: Line,
    pub instruction: Instruction,
    pub ways: Ways,
    /// Whether the instruction takes one from the counter, which isn't 0 there.
    pub takes: bool,
    /// How much more the counter may be after it.
    pub raises: u8,
}

/// The lines of a routine by their place in the ROM.
#[derive(Drop)]
pub struct Graph {
    /// The number of the counter register.
    pub k: u8,
    pub nodes: Vec<Option<Node>>,
}

/// Returns the graph of the lines of a routine by their place in the ROM.
pub fn graph_of(
    alloc: Global,
    rom: &[u8],
    bound: &Bound,
    places: &[Option<Line>],
) -> Result<Graph, AllocError> {
    let mut nodes = Vec::new(alloc);
    for place in 0..ROM_SIZE {
        let node = match drawn_at(places, place) {
            Some(line) => Some(node_of(rom, bound, &line)),
            None => None,
        };
        nodes.push(node)?;
    }
    Ok(Graph { k: bound.k, nodes })
}

fn node_of(rom: &[u8], bound: &Bound, line: &Line) -> Node {
    let instruction = instruction_at(rom, line.address);
    let named = instruction.op.n == bound.k;
    let kind = instruction.op.kind;
    Node {
        line: *line,
        instruction,
        ways: ways_from(bound, line.address, &instruction),
        takes: named && matches!((kind, line.fact), (Kind::Dec, Fact::NonZero)),
        raises: if named { raised_by(kind, line.fact) } else { 0 },
    }
}

// How much more the counter may be after an instruction that names it, if a fact holds.
fn raised_by(kind: Kind, fact: Fact) -> u8 {
    match (kind, fact) {
        (Kind::Inc | Kind::Lda, _) => 1,
        (Kind::Plo, Fact::Is(byte)) => byte,
        (Kind::Plo, Fact::NonZero) => 254,
        (Kind::Plo, Fact::Copy) | (Kind::Dec, Fact::NonZero) => 0,
        (Kind::Plo | Kind::Dec, _) => 255,
        _ => 0,
    }
}

impl Node {
    // The place to which a way leads that the fact of the line lets through.
    fn target(&self, way: Way) -> Option<u16> {
        if lets_through(self.line.fact, way.when) {
            end_of(way)
        } else {
            None
        }
    }
}

impl Graph {
    /// Returns the node at a place.
    pub fn node(&self, place: u16) -> Option<Node> {
        match self.nodes.get(usize::from(place)) {
            Some(node) => *node,
            None => None,
        }
    }

    /// Returns the node at the end of a way.
    pub fn node_behind(&self, way: Way) -> Option<Node> {
        match end_of(way) {
            Some(place) => self.node(place),
            None => None,
        }
    }

    // The places to which one leads by all ways, or only if it doesn't take from the counter.
    fn targets(&self, place: u16, counts: bool) -> [Option<u16>; 2] {
        match self.node(place) {
            Some(node) if counts || !node.takes => {
                let second = match node.ways.second {
                    Some(second) => node.target(second),
                    None => None,
                };
                [node.target(node.ways.first), second]
            }
            _ => [None, None],
        }
    }

    /// Returns for each place from which one it was met first on the ways from a start on, by one
    /// step or more; by all ways, or only by those of lines that don't take from the counter.
    /// Nothing if no line starts.
    pub fn sources(
        &self,
        alloc: Global,
        start: u16,
        counts: bool,
    ) -> Result<Vec<Option<u16>>, AllocError> {
        if self.node(start).is_none() {
            return Ok(Vec::new(alloc));
        }
        let mut sources = vec![in alloc; None; ROM_SIZE]?;
        let mut waiting = ArrayVec::<u16, 2_049>::new();
        waiting.push(start);
        for _ in 0..=ROM_SIZE {
            let Some(place) = waiting.pop() else {
                break;
            };
            for target in self.targets(place, counts) {
                if let Some(target) = target {
                    let at = usize::from(target);
                    if at < sources.len() && sources[at].is_none() {
                        sources[at] = Some(place);
                        // each place is met once, so there is room
                        let _ = waiting.try_push(target);
                    }
                }
            }
        }
        Ok(sources)
    }
}
