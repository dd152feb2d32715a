// Cut edges, and Euler's census of the cycles of an arrangement. Carried over from planar_graph.rs.
#![tactic(auto)]

mod cuts;
mod euler;

ghost use Rattle.std.specs.Prelude.{◌≤◌, length};
ghost use Rattle.rules.specs.Limits.{limits};
ghost use Rattle.stars.specs.Groups.{InEach};
ghost use Rattle.seeds.specs.Seeds.{Placed};
ghost use Rattle.cycles.specs.Arranged.{Arranged, CutOf};

pub use euler::count_census;
use tables::{MAX_HALF_EDGES, PlanarGraph};

// What cutting and ring extraction count: V, E, the maximal rings, C, and whether Euler's formula
// holds of them.
#[derive(Clone, Copy)]
pub struct Census {
    pub vertices: u16,
    pub edges: u16,
    pub cycles: u16,
    pub pieces: u16,
    pub verdict: bool,
}

// What cutting answers: the graph in its next stage, how many edges were cut, and the census taken
// before that.
#[derive(Clone, Copy)]
pub struct CutDone {
    pub graph: PlanarGraph,
    pub count: u16,
    pub census: Census,
}

// Cutting over stars that are grouped by node.
pub fn cut_grouped(
    graph: PlanarGraph,
    nodes_x: &[f64],
    nodes_y: &[f64],
    offsets: &[u16],
    grouped: &[u16],
    dir_edges_src: &[u16],
    dir_edges_marked: &mut [bool],
    out: &mut [u16],
) -> CutDone
    requires { (Arranged limits graph.node_count graph.edge_count dir_edges_src.now dir_edges_marked.old offsets.now grouped.now) × (Placed graph.node_count nodes_x.now nodes_y.now) × (graph.edge_count ≤ length out.old) }
    ensures { InEach graph.node_count graph.edge_count dir_edges_src.now dir_edges_marked.old offsets.now grouped.now (λ g. CutOf g graph dir_edges_marked.old out.old dir_edges_marked.new out.new result) }
{
    let mut next = [0u16; MAX_HALF_EDGES];
    let mut labels = [0u16; MAX_HALF_EDGES];
    ring_labels::link_successors(graph, offsets, grouped, dir_edges_marked, &mut next);
    let cycles = ring_labels::label_rings(graph.edge_count, &next, dir_edges_marked, &mut labels);
    let census = euler::count_census(
        graph,
        nodes_x,
        nodes_y,
        offsets,
        grouped,
        dir_edges_src,
        dir_edges_marked,
        cycles,
    );
    let count = cuts::cut_edges(graph.edge_count, &labels, dir_edges_marked, out);
    CutDone {
        graph: graph.at_stage(3),
        count,
        census,
    }
}
