// Adding a line: what the addition comes to, from what was found for its ends, before anything is
// written. Carried over from `add_node` and `add_line` of planar_graph.rs.
#![tactic(auto)]

ghost use Rattle.std.specs.Prelude.{◌≡◌, cond, ◌+◌, ◌≤◌};
ghost use Rattle.rotation.specs.Rotation.{key_same};
ghost use Rattle.rules.specs.Keys.{key_of};
ghost use Rattle.rules.specs.Limits.{limits};
ghost use Rattle.adding.specs.Decisions.{pair_decision, id_decision, room_decision, decision_by, ends_by};
ghost use Rattle.adding.specs.Written.{grown_by};

use geometry::{Coord3D, Line3D};
use tables::{DirEdgeId, EdgeId, NodeId, PlanarGraph, Refusal};

// What a line came to: a new edge, or the edge that joined the two nodes before.
#[derive(Clone, Copy)]
pub enum LineEdge {
    New(EdgeId),
    Old(EdgeId),
}

// The nodes of a line's ends, and whether they have yet to be made.
#[derive(Clone, Copy)]
pub struct Ends {
    pub start: NodeId,
    pub end: NodeId,
    pub new_start: bool,
    pub new_end: bool,
}

// What an addition comes to, before anything is written: a new edge, one more line id behind an edge
// that is there, or nothing that is not there already.
#[derive(Clone, Copy)]
pub enum Decision {
    Make(Ends),
    Enter(EdgeId),
    Keep(EdgeId),
}

// Whether two points have one key.
fn same_key(a: Coord3D, b: Coord3D) -> bool
    ensures { result ≡ key_same (key_of a.x a.y) (key_of b.x b.y) }
{
    geometry::canonical_coordinate_bits(a.x) == geometry::canonical_coordinate_bits(b.x)
        && geometry::canonical_coordinate_bits(a.y) == geometry::canonical_coordinate_bits(b.y)
}

// How many of a line's ends have yet to be made.
fn new_nodes(ends: Ends) -> u16
    ensures { result ≡ cond ends.new_start 1 0 + cond ends.new_end 1 0 }
{
    if ends.new_start {
        if ends.new_end { 2 } else { 1 }
    } else if ends.new_end {
        1
    } else {
        0
    }
}

// The nodes of a line's ends, from what was found for them. Where both are new, the end's comes after
// the start's.
fn ends_of(graph: PlanarGraph, start: NodeId, end: NodeId) -> Ends
    requires { graph.node_count ≤ limits.nodes }
    ensures { result ≡ ends_by graph.node_count start.0 end.0 }
{
    let count = graph.node_count;
    let new_start = start.0 == count;
    let new_end = end.0 == count;
    if new_start && new_end {
        Ends {
            start,
            end: NodeId(count + 1),
            new_start,
            new_end,
        }
    } else {
        Ends {
            start,
            end,
            new_start,
            new_end,
        }
    }
}

// Number 12, for a decision that needs a pair: whether there is a place for it.
fn find_pair(decision: Decision, free: u16) -> Result<Decision, Refusal>
    ensures { result ≡ pair_decision limits free decision }
{
    if usize::from(free) < tables::MAX_PAIRS {
        Ok(decision)
    } else {
        Err(Refusal::TooManyPairs)
    }
}

// For an edge that joins the ends already: nothing is written where it has the line's id, else the id
// needs a pair.
fn find_id(edge: EdgeId, known: bool, free: u16) -> Result<Decision, Refusal>
    ensures { result ≡ id_decision limits edge known free }
{
    if known {
        Ok(Decision::Keep(edge))
    } else {
        find_pair(Decision::Enter(edge), free)
    }
}

// Numbers 3, 4 and 12: whether there is space for the new nodes, the new edge and its first pair.
fn find_space(graph: PlanarGraph, ends: Ends, free: u16) -> Result<Decision, Refusal>
    requires { graph.node_count ≤ limits.nodes }
    ensures { result ≡ room_decision limits graph.node_count graph.edge_count free ends }
{
    let nodes = usize::from(graph.node_count) + usize::from(new_nodes(ends));
    if nodes <= tables::MAX_NODES {
        if usize::from(graph.edge_count) < tables::MAX_EDGES {
            find_pair(Decision::Make(ends), free)
        } else {
            Err(Refusal::TooManyEdges)
        }
    } else {
        Err(Refusal::TooManyNodes)
    }
}

// Numbers 1 and 2, an edge that joins the ends already, then numbers 3 and 4, and 12 last, from what
// the searches found: the nodes of the ends, the half-edge between them, whether its edge has the
// line's id, and the lowest free place for a pair.
pub fn decide(
    graph: PlanarGraph,
    line: Line3D,
    start: NodeId,
    end: NodeId,
    half: DirEdgeId,
    known: bool,
    free: u16,
) -> Result<Decision, Refusal>
    requires { (graph.node_count ≤ limits.nodes) × (graph.edge_count ≤ limits.edges) }
    ensures { result ≡ decision_by limits line graph.node_count graph.edge_count start.0 end.0 half.0 known free }
{
    let from = line.start;
    let to = line.end;
    if !geometry::is_planar(from) {
        return Err(Refusal::NotWhole);
    }
    if !geometry::is_planar(to) {
        return Err(Refusal::NotWhole);
    }
    if same_key(from, to) {
        return Err(Refusal::SameNode);
    }
    if half.0 < 2 * graph.edge_count {
        return find_id(EdgeId(half.0 / 2), known, free);
    }
    find_space(graph, ends_of(graph, start, end), free)
}

// The counts with what is new.
pub fn grown(graph: PlanarGraph, ends: Ends) -> PlanarGraph
    requires { (graph.node_count ≤ limits.nodes) × (graph.edge_count ≤ limits.edges) }
    ensures { result ≡ grown_by graph ends }
{
    PlanarGraph {
        node_count: graph.node_count + new_nodes(ends),
        edge_count: graph.edge_count + 1,
        stage: graph.stage,
    }
}
