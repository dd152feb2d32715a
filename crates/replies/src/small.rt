// The small state and the values of a reply in lent arrays of numbers.
ghost use Rattle.std.specs.Prelude.{◌≡◌, cond, ◌<◌};
ghost use Rattle.replies.specs.Lent.{stage_in, graph_in, numbers_of};

use tables::PlanarGraph;

// Node count, edge count and stage.
pub const STATE_LENGTH: usize = 3;

// An edge, and 1 where it is new.
pub const ADDED_LENGTH: usize = 2;

// A count alone.
pub const COUNT_LENGTH: usize = 1;

// A count, V, E, cycles, C and the verdict.
pub const CENSUS_LENGTH: usize = 6;

// A stage is a byte; 255 stands for a number that is none, and is no stage either.
fn read_stage(number: u16) -> u8
    ensures { result ≡ stage_in number }
{
    if number < 256 { number as u8 } else { 255 }
}

pub fn read_state(state: &[u16; STATE_LENGTH]) -> PlanarGraph
    ensures { result ≡ graph_in state.now }
{
    PlanarGraph {
        node_count: state[0],
        edge_count: state[1],
        stage: read_stage(state[2]),
    }
}

// A stage as a number of the small state.
fn stage_number(stage: u8) -> u16
    ensures { (result ≡ stage) × (result < 256) }
{
    stage as u16
}

pub fn write_state(state: &mut [u16; STATE_LENGTH], graph: PlanarGraph)
    ensures { (state.new ≡ numbers_of graph) × (graph.stage < 256) }
{
    let stage = stage_number(graph.stage);
    *state = [graph.node_count, graph.edge_count, stage];
}

// 1 for yes.
pub fn flag(yes: bool) -> u16
    ensures { result ≡ cond yes 1 0 }
{
    if yes { 1 } else { 0 }
}
