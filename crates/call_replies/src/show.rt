// The state as lines of text: the counts and the stage, a line for each node, a line for each edge.
use crate::entries::entry;
use crate::floats::Printed;
use call_lending::SharedSlices;
use std::io::Write;
use std::{fmt, io};
use tables::{
    DEGREES, HALF_MARKS, LINKS, LIST_PLACES, MAX_PAIRS, NODES_Y, NODES_Z, PAIR_IDS, PlanarGraph,
    SEGMENTS, TARGETS,
};

// The half-edges that start at a node, in the order of the star table.
#[derive(Clone, Copy)]
struct Star<'a> {
    slices: SharedSlices<'a>,
    node: u16,
    halves: usize,
}

impl fmt::Display for Star<'_> {
    fn fmt<W: fmt::Write>(&self, f: &mut fmt::Formatter<W>) -> fmt::Result {
        for i in 0..self.halves {
            let half_edge = entry(self.slices.stars, i);
            if entry(self.slices.numbers, usize::from(half_edge)) == self.node {
                write!(f, " {half_edge}")?;
            }
        }
        Ok(())
    }
}

fn show_node<W: Write>(
    out: &mut W,
    slices: SharedSlices<'_>,
    node: u16,
    halves: usize,
) -> io::Result<()> {
    let n = usize::from(node);
    let x = Printed(entry(slices.floats, n));
    let y = Printed(entry(slices.floats, NODES_Y + n));
    let z = Printed(entry(slices.floats, NODES_Z + n));
    let degree = entry(slices.stars, DEGREES + n);
    let marked = u8::from(entry(slices.marks, n));
    let star = Star {
        slices,
        node,
        halves,
    };
    write!(out, "node {node} {x} {y} {z}")?;
    writeln!(out, " degree {degree} marked {marked} star{star}")
}

// The six floats of a segment.
#[derive(Clone, Copy)]
struct Segment<'a> {
    slices: SharedSlices<'a>,
    edge: u16,
}

impl fmt::Display for Segment<'_> {
    fn fmt<W: fmt::Write>(&self, f: &mut fmt::Formatter<W>) -> fmt::Result {
        let first = SEGMENTS + 6 * usize::from(self.edge);
        for i in 0..6 {
            let x = entry(self.slices.floats, first + i);
            write!(f, " {}", Printed(x))?;
        }
        Ok(())
    }
}

// The line ids behind an edge, from the place of its list on; a list that does not end stops after as many
// as there are pairs.
#[derive(Clone, Copy)]
struct LineIds<'a> {
    slices: SharedSlices<'a>,
    first: usize,
}

impl fmt::Display for LineIds<'_> {
    fn fmt<W: fmt::Write>(&self, f: &mut fmt::Formatter<W>) -> fmt::Result {
        let mut at = self.first;
        for _ in 0..MAX_PAIRS {
            if MAX_PAIRS <= at {
                return Ok(());
            }
            write!(f, " {}", entry(self.slices.ids, PAIR_IDS + at))?;
            at = usize::from(entry(self.slices.numbers, LINKS + at));
        }
        Ok(())
    }
}

// With the nodes at which the first half of the edge starts and ends, and the marks of both halves.
fn show_edge<W: Write>(out: &mut W, slices: SharedSlices<'_>, edge: u16) -> io::Result<()> {
    let k = usize::from(edge);
    let h = 2 * k;
    let line = Segment { slices, edge };
    let id = entry(slices.ids, k);
    let from = entry(slices.numbers, h);
    let to = entry(slices.numbers, TARGETS + h);
    let mark = u8::from(entry(slices.marks, HALF_MARKS + h));
    let twin_mark = u8::from(entry(slices.marks, HALF_MARKS + h + 1));
    let first = usize::from(entry(slices.numbers, LIST_PLACES + k));
    let ids = LineIds { slices, first };
    write!(out, "edge {edge} line{line} id {id} ends {from} {to}")?;
    writeln!(out, " marked {mark} {twin_mark} ids{ids}")
}

// The tables may have any lengths: an entry past the end counts as 0.
pub fn show_state<W: Write>(
    out: &mut W,
    graph: PlanarGraph,
    slices: SharedSlices<'_>,
) -> io::Result<()> {
    let PlanarGraph {
        node_count,
        edge_count,
        stage,
    } = graph;
    writeln!(out, "graph {node_count} {edge_count} {stage}")?;
    for node in 0..node_count {
        show_node(out, slices, node, 2 * usize::from(edge_count))?;
    }
    for edge in 0..edge_count {
        show_edge(out, slices, edge)?;
    }
    Ok(())
}
