//! The strongly connected components of a routine, from its leaves back, and the iterations in them
//! that aren't counted.

use crate::forward::ROM_SIZE;
use crate::graph::{Graph, Node, PLACES};
use std::alloc::{AllocError, Global};

/// A line in the order in which costs are found. Its component is after those that it leads to, and
/// the line is after those of its component that it leads to without taking from the counter.
#[derive(Clone, Copy)]
pub struct Member {
    pub place: u16,
    pub node: Node,
    /// How many places its component leads to, and the first place of its component.
    pub component: (usize, u16),
    /// Whether it leads back to itself.
    pub is_loop: bool,
    // how many places it leads to without taking from the counter
    rank: usize,
}

/// What is found of a routine.
#[derive(Drop)]
pub struct Found {
    /// The first iteration that isn't counted, as addresses each of which leads to the next one, and
    /// the last one to the first; none if there is no such iteration.
    pub turn: Vec<u16>,
    /// The lines of the routine, each component after those that it leads to.
    pub members: Vec<Member>,
}

// For each place with a line, from which ones those were met first to which it leads.
#[derive(Drop)]
struct Sources {
    sources: Vec<Vec<Option<u16>>>,
}

impl Sources {
    // From which place one was met first on the ways from a start on.
    fn source(&self, start: u16, place: u16) -> Option<u16> {
        let Some(sources) = self.sources.get(usize::from(start)) else {
            return None;
        };
        match sources.get(usize::from(place)) {
            Some(source) => *source,
            None => None,
        }
    }

    fn leads(&self, from: u16, to: u16) -> bool {
        self.source(from, to).is_some()
    }

    // How many places a place leads to, itself among them.
    fn count(&self, place: u16) -> usize {
        let mut count = 0usize;
        for other in 0..PLACES {
            if other == place || self.leads(place, other) {
                count = count.saturating_add(1);
            }
        }
        count
    }

    // The first place of the component of a place.
    fn first(&self, place: u16) -> u16 {
        for other in 0..place {
            if self.leads(place, other) && self.leads(other, place) {
                return other;
            }
        }
        place
    }

    // The iteration from a place back to it.
    fn turn_at(&self, alloc: Global, place: u16) -> Result<Vec<u16>, AllocError> {
        let mut turn = Vec::new(alloc);
        let mut at = place;
        for _ in 0..ROM_SIZE {
            let Some(source) = self.source(place, at) else {
                break;
            };
            at = source;
            turn.push(0x8000 + at % PLACES)?;
            if at == place {
                break;
            }
        }
        turn.reverse();
        Ok(turn)
    }
}

/// Finds the components of a routine, and an iteration in it that isn't counted.
pub fn find_components(alloc: Global, graph: &Graph) -> Result<Found, AllocError> {
    let reach = sources_in(alloc, graph, true)?;
    let unpaid = sources_in(alloc, graph, false)?;
    Ok(Found {
        turn: first_turn(alloc, graph, &reach, &unpaid)?,
        members: members_of(alloc, graph, &reach, &unpaid)?,
    })
}

// By all ways, or only by those of lines that don't take from the counter.
fn sources_in(alloc: Global, graph: &Graph, counts: bool) -> Result<Sources, AllocError> {
    let mut sources = Vec::new(alloc);
    for place in 0..PLACES {
        sources.push(graph.sources(alloc, place, counts)?)?;
    }
    Ok(Sources { sources })
}

// The iteration that isn't counted whose place is the first: it takes nothing from the counter, or
// its line there may raise it.
fn first_turn(
    alloc: Global,
    graph: &Graph,
    reach: &Sources,
    unpaid: &Sources,
) -> Result<Vec<u16>, AllocError> {
    for place in 0..PLACES {
        if let Some(node) = graph.node(place) {
            if unpaid.leads(place, place) {
                return unpaid.turn_at(alloc, place);
            }
            if node.raises > 0 && reach.leads(place, place) {
                return reach.turn_at(alloc, place);
            }
        }
    }
    Ok(Vec::new(alloc))
}

// The lines in the order in which costs are found.
fn members_of(
    alloc: Global,
    graph: &Graph,
    reach: &Sources,
    unpaid: &Sources,
) -> Result<Vec<Member>, AllocError> {
    let mut members = Vec::new(alloc);
    for place in 0..PLACES {
        if let Some(node) = graph.node(place) {
            members.push(Member {
                place,
                node,
                component: (reach.count(place), reach.first(place)),
                is_loop: reach.leads(place, place),
                rank: unpaid.count(place),
            })?;
        }
    }
    members.sort_unstable_by(|a, b| a.component.cmp(&b.component).then(a.rank.cmp(&b.rank)));
    Ok(members)
}
