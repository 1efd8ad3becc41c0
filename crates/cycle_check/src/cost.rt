//! What is left at each line: the least STEP of a component that pays for an iteration of it, and
//! then the least BASEs.

ghost use Rattle.std.specs.Prelude.{◌≤◌, length};

use crate::closed::{admits, counter_after, is_open, known_d, left, lets_through};
use crate::components::Member;
use crate::graph::{Graph, Node};
use crate::table::Way;

/// The values of the counter among which is one at which a line costs most: between 1 and 254 the
/// cost is linear.
const EXTREMES: [u8; 4] = [0, 1, 254, 255];

/// The number of times that a range of STEP is halved.
const MOST_HALVINGS: usize = 32;

/// Finds what is left at each line of a routine, from its leaves back.
pub fn find_costs(graph: &mut Graph, members: &[Member]) {
    let mut others = members;
    for _ in 0..members.len() {
        let (component, behind) = others.split_at(first_count(others));
        match component {
            [] => break,
            [member] if !member.is_loop => settle_line(graph, member),
            [..] => settle_loop(graph, component),
        }
        others = behind;
    }
}

// How many of the first members are of one component.
fn first_count(members: &[Member]) -> usize
    ensures { result ≤ length members.now }
{
    for count in 0..members.len() {
        if members[count].component != members[0].component {
            return count;
        }
    }
    members.len()
}

// A line that doesn't lead back to itself takes the least BASE with the STEPs of the lines after it,
// and then the least STEP with which its BASE is that.
fn settle_line(graph: &mut Graph, member: &Member) {
    let base = base_of(graph, &member.node, step_behind(graph, &member.node));
    set_costs(
        graph,
        member.place,
        base,
        step_with(graph, &member.node, base),
    );
}

// The greatest STEP of the lines after a line.
fn step_behind(graph: &Graph, node: &Node) -> u32 {
    let first = step_on(graph, node, node.ways.first);
    match node.ways.second {
        Some(second) => first.max(step_on(graph, node, second)),
        None => first,
    }
}

// The STEP of the line at the end of a way, if the line's fact lets the way through.
fn step_on(graph: &Graph, node: &Node, way: Way) -> u32 {
    match graph.node_behind(way) {
        Some(behind) if lets_through(node.line.fact, way.when) => behind.line.step,
        _ => 0,
    }
}

// The least STEP with which a line needs no more than a BASE.
fn step_with(graph: &Graph, node: &Node, base: u32) -> u32 {
    let mut step = 0u64;
    for counter in EXTREMES {
        if counter > 0 {
            let more = need_at(graph, node, counter).saturating_sub(u64::from(base));
            step = step.max(more.div_ceil(u64::from(counter)));
        }
    }
    step.min(u64::from(u32::MAX)) as u32
}

// The lines of a loop take the least STEP with which their BASEs come to rest.
fn settle_loop(graph: &mut Graph, members: &[Member]) {
    let mut low = 0;
    let mut high = cycles_of(members);
    for _ in 0..MOST_HALVINGS {
        if low >= high {
            break;
        }
        let middle = low + (high - low) / 2;
        if rests(graph, members, middle) {
            high = middle;
        } else {
            low = middle + 1;
        }
    }
    rests(graph, members, high);
}

// The cycles of all lines of a loop, more than which no iteration takes.
fn cycles_of(members: &[Member]) -> u32 {
    let mut total = 0u32;
    for member in members {
        total = total.saturating_add(u32::from(member.node.instruction.cycles));
    }
    total
}

// Gives the lines of a loop this STEP and the least BASEs. Whether these come to rest: each round
// takes them over one more line that takes from the counter.
fn rests(graph: &mut Graph, members: &[Member], step: u32) -> bool {
    let mut rounds = 2usize;
    for member in members {
        set_costs(graph, member.place, 0, step);
        if member.node.takes {
            rounds = rounds.saturating_add(1);
        }
    }
    for _ in 0..rounds {
        if !raise_all(graph, members, step) {
            return true;
        }
    }
    false
}

// Raises the BASEs of a loop to what comes after them. Whether one was raised.
fn raise_all(graph: &mut Graph, members: &[Member], step: u32) -> bool {
    let mut raised = false;
    for member in members {
        let base = base_of(graph, &member.node, step);
        if let Some(node) = graph.node(member.place)
            && base > node.line.base
        {
            set_costs(graph, member.place, base, step);
            raised = true;
        }
    }
    raised
}

// Gives the line at a place of a graph a BASE and a STEP.
fn set_costs(graph: &mut Graph, place: u16, base: u32, step: u32) {
    let at = usize::from(place);
    if let Some(mut node) = graph.node(place)
        && at < graph.nodes.len()
    {
        node.line.base = base;
        node.line.step = step;
        graph.nodes[at] = Some(node);
    }
}

// The least BASE of a line with a STEP that pays for the lines after it as they are.
fn base_of(graph: &Graph, node: &Node, step: u32) -> u32 {
    let mut base = 0u64;
    for counter in EXTREMES {
        let paid = u64::from(step) * u64::from(counter);
        base = base.max(need_at(graph, node, counter).saturating_sub(paid));
    }
    base.min(u64::from(u32::MAX)) as u32
}

// The most cycles that are left at a line at a value of the counter, with the lines after it as they
// are.
fn need_at(graph: &Graph, node: &Node, counter: u8) -> u64 {
    if !admits(node.line.fact, counter) {
        return 0;
    }
    let first = need_on(graph, node, node.ways.first, counter);
    match node.ways.second {
        Some(second) => first.max(need_on(graph, node, second, counter)),
        None => first,
    }
}

// The same on one way, if it is open.
fn need_on(graph: &Graph, node: &Node, way: Way, counter: u8) -> u64 {
    if !is_open(way.when, known_d(node.line.fact, counter)) {
        return 0;
    }
    let own = u64::from(node.instruction.cycles);
    match graph.node_behind(way) {
        Some(behind) => {
            let after = counter_after(graph.k, &node.instruction, node.line.fact, counter);
            // of the counters that may follow the greatest costs most
            own.saturating_add(left(&behind.line, after.unwrap_or(255)))
        }
        None => own,
    }
}
