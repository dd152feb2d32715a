// The small state of the graph, its numbers, the limits of its tables, and where these lie.
#![tactic(auto)]

ghost use Rattle.std.specs.Prelude.{◌≡◌, true, ◌<◌, length, get_or};
ghost use Rattle.tables.specs.Refusals.{refusal_number_lem};
ghost use Rattle.tables.specs.Tables.{at_stage_lem};

mod ids;
mod layout;

pub use crate::ids::{DirEdgeId, EdgeId, FaceId, NodeId, twin_of};
pub use crate::layout::{
    DEGREES, FLOATS, HALF_MARKS, IDS, LINKS, LIST_PLACES, MARKS, MAX_HALF_EDGES, NODES_Y, NODES_Z,
    NUMBERS, PAIR_IDS, SEGMENTS, STAR_OFFSETS, STARS, TARGETS,
};

// The counts and the stage: 0 building, 1 sorted, 2 pruned, 3 cut, 4 ringed. The tables are lent
// beside it. The stage is a number and no enum, since C lends it too, and number 7 tests whatever it is.
#[derive(Clone, Copy)]
pub struct PlanarGraph {
    pub node_count: u16,
    pub edge_count: u16,
    pub stage: u8,
}

impl PlanarGraph {
    // The same counts in another stage.
    pub fn at_stage(self, stage: u8) -> PlanarGraph
        ensures { result ≡ at_stage_lem self stage }
    {
        PlanarGraph {
            node_count: self.node_count,
            edge_count: self.edge_count,
            stage,
        }
    }
}

// Why a call is refused, by document 01's numbers 1 to 8 and document 02's 12 and 13.
#[derive(Clone, Copy)]
pub enum Refusal {
    NotWhole,
    SameNode,
    TooManyNodes,
    TooManyEdges,
    WrongStage,
    TableTooShort,
    Unsound,
    ListTooShort,
    TooManyPairs,
    TooFewHoles,
}

// What a call leaves: the small state after it, and its value or why it was refused. A refused call
// leaves the state as it was.
#[derive(Clone, Copy)]
pub struct Answer<T> {
    pub graph: PlanarGraph,
    pub reply: Result<T, Refusal>,
}

// The documents' number of a refusal.
pub fn refusal_number(why: Refusal) -> u32
    ensures { result ≡ refusal_number_lem why }
{
    match why {
        Refusal::NotWhole => 1,
        Refusal::SameNode => 2,
        Refusal::TooManyNodes => 3,
        Refusal::TooManyEdges => 4,
        Refusal::WrongStage => 5,
        Refusal::TableTooShort => 6,
        Refusal::Unsound => 7,
        Refusal::ListTooShort => 8,
        Refusal::TooManyPairs => 12,
        Refusal::TooFewHoles => 13,
    }
}

// How many nodes, edges, and pairs of a line id and a place the tables hold at most.
pub const MAX_NODES: usize = 2048;

pub const MAX_EDGES: usize = 2048;

pub const MAX_PAIRS: usize = 4096;

// How many rings with an area there are at most: each has three half-edges or more, and together they
// have at most two for each edge.
pub const MAX_SHAPED: usize = 2 * MAX_EDGES / 3;

// No place: it ends a list of line ids.
pub const LIST_END: u16 = 65535;

// The mark at place i.
pub fn is_marked(marks: &[bool], i: usize) -> bool
    requires { i < length marks.now }
    ensures { result ≡ get_or marks.now i true }
{
    marks[i]
}
