// Taking the records of a segment file into a graph that is being built. The state is tested by
// whoever calls, once; each addition leaves it as the next one needs it. The graph is chained and the
// places that line ids use are marked here, once for all the records, so that an addition looks at few
// nodes, half-edges and places.
#![tactic(auto)]

ghost use Rattle.std.specs.Prelude.{◌≡◌};
ghost use Rattle.adding.specs.Outcomes.{Ready};
ghost use Rattle.rules.specs.Limits.{limits};
ghost use Rattle.tables.specs.Regions.{state_in};
ghost use Rattle.taking.specs.Taking.{take_file_lem};
ghost use Rattle.taking.specs.Answers.{taking_of};
ghost use Rattle.taking.specs.Taking.{take_file_lem};
ghost use Rattle.taking.specs.Answers.{taking_of};

use chained_intake::take_chained;
use tables::PlanarGraph;
use taking::Taken;

// The chains of nodes and of half-edges: their heads, and an entry for each that there may be.
const NODE_CHAINS: usize = lookup::NODE_HEADS + tables::MAX_NODES;

const HALF_CHAINS: usize = lookup::HALF_HEADS + 2 * tables::MAX_EDGES;

// All records of the bytes, one after another, to their end or to the first that is refused. Where the
// bytes end inside a record that is 9; a reader of a stream then goes on from `bytes` with more.
pub fn take_records(
    graph: PlanarGraph,
    bytes: &[u8],
    floats: &mut [f64],
    numbers: &mut [u16],
    stars: &mut [u16],
    marks: &mut [bool],
    ids: &mut [u32],
) -> Taken
    requires { Ready limits (state_in limits graph floats.old numbers.old stars.old marks.old ids.old) }
    ensures { taking_of result floats.new numbers.new stars.new marks.new ids.new
        ≡ take_file_lem limits bytes.now (state_in limits graph floats.old numbers.old stars.old marks.old ids.old) }
{
    let used = placing::mark_lists(graph.edge_count, numbers);
    let free = line_ids::next_free(0, &used);
    let mut node_chains = [0u16; NODE_CHAINS];
    let mut half_chains = [0u16; HALF_CHAINS];
    chaining::chain_all(
        graph,
        floats,
        numbers,
        stars,
        &mut node_chains,
        &mut half_chains,
    );
    take_chained(
        graph,
        bytes,
        free,
        &used,
        floats,
        numbers,
        stars,
        marks,
        ids,
        &mut node_chains,
        &mut half_chains,
    )
}
