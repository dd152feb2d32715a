// Euler's census of the active half-edges: V, E, cycles, C and the verdict.
ghost use Rattle.std.specs.Prelude.{◌≡◌, ◌+◌, ◌*◌, ◌≤◌, eqb, ltb, length, get_or, ◌&&◌};
ghost use Rattle.lists.specs.Lists.{below};
ghost use Rattle.rules.specs.Cycles.{maximal_rings};
ghost use Rattle.rules.specs.Euler.{census};
ghost use Rattle.rules.specs.Limits.{limits};
ghost use Rattle.stars.specs.Groups.{unmarked, InEach};
ghost use Rattle.cycles.specs.Census.{census_of};
ghost use Rattle.seeds.specs.Reach.{Spreadable};
ghost use Rattle.seeds.specs.Seeds.{Placed};

use pieces::number_pieces;
use tables::{MAX_NODES, PlanarGraph};

// V: the nodes with an active half-edge. These are the nodes in a piece, and any other has number 0.
fn count_vertices(nodes: u16, pieces: &[u16]) -> u16
    requires { (nodes ≤ limits.nodes) × (nodes ≤ length pieces.now) }
    ensures { result ≡ length (below (λ n. ltb 0 (get_or pieces.now n 0)) nodes) }
{
    let n = usize::from(nodes);
    let mut count: u16 = 0;
    for k in 0..n {
        let placed = 0 < pieces[k];
        if placed {
            count += 1;
        }
    }
    count
}

// E: the active edges.
fn count_edges(edges: u16, dir_edges_marked: &[bool]) -> u16
    requires { (edges ≤ limits.edges) × (2 * edges ≤ length dir_edges_marked.now) }
    ensures { result ≡ length (below (λ k. unmarked dir_edges_marked.now (2 * k) && unmarked dir_edges_marked.now (2 * k + 1)) edges) }
{
    let n = usize::from(edges);
    let mut count: u16 = 0;
    for k in 0..n {
        let active = !dir_edges_marked[2 * k] & !dir_edges_marked[2 * k + 1];
        if active {
            count += 1;
        }
    }
    count
}

// V - E + cycles = 2 C, in signed 64 bits.
fn euler_holds(vertices: u16, edges: u16, cycles: u16, pieces: u16) -> bool
    ensures { result ≡ eqb (vertices + cycles) (2 * pieces + edges) }
{
    (vertices as i64) - (edges as i64) + (cycles as i64) == 2 * (pieces as i64)
}

// Counts everything, given how many maximal rings there are.
pub fn count_census(
    graph: PlanarGraph,
    nodes_x: &[f64],
    nodes_y: &[f64],
    offsets: &[u16],
    grouped: &[u16],
    dir_edges_src: &[u16],
    dir_edges_marked: &[bool],
    cycles: u16,
) -> super::Census
    requires { (Spreadable graph.node_count graph.edge_count dir_edges_src.now dir_edges_marked.now offsets.now grouped.now) × (Placed graph.node_count nodes_x.now nodes_y.now) × (graph.node_count ≤ limits.nodes) × (graph.edge_count ≤ limits.edges) }
    ensures { InEach graph.node_count graph.edge_count dir_edges_src.now dir_edges_marked.now offsets.now grouped.now (λ g. cycles ≡ length (maximal_rings g) → census_of result ≡ census g) }
{
    let mut numbers = [0u16; MAX_NODES];
    let edges = count_edges(graph.edge_count, dir_edges_marked);
    let pieces = number_pieces(
        graph,
        nodes_x,
        nodes_y,
        offsets,
        grouped,
        dir_edges_src,
        dir_edges_marked,
        &mut numbers,
    );
    let vertices = count_vertices(graph.node_count, &numbers);
    let verdict = euler_holds(vertices, edges, cycles, pieces);
    super::Census {
        vertices,
        edges,
        cycles,
        pieces,
        verdict,
    }
}
