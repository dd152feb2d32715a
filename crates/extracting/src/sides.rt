// The sides of the rings alone.
ghost use Rattle.std.specs.Prelude.{◌≤◌, length};
ghost use Rattle.rules.specs.Limits.{limits};
ghost use Rattle.stars.specs.Groups.{InEach};
ghost use Rattle.seeds.specs.Seeds.{Placed};
ghost use Rattle.extracting.specs.Sides.{SidesAsked, SidesListed};

use ring_listing::write_successors;
use ring_tally::KEYS;
use tables::{MAX_EDGES, MAX_HALF_EDGES, PlanarGraph};

// Lists the rings, all but their sides into tables of its own, and answers how many there are. No census
// is taken and no face named.
pub fn list_sides(
    graph: PlanarGraph,
    nodes_x: &[f64],
    nodes_y: &[f64],
    offsets: &[u16],
    grouped: &[u16],
    dir_edges_src: &[u16],
    dir_edges_marked: &[bool],
    ring_side: &mut [u8],
) -> u16
    requires { (SidesAsked graph.node_count graph.edge_count dir_edges_src.now dir_edges_marked.now offsets.now grouped.now) × (Placed graph.node_count nodes_x.now nodes_y.now) × (limits.edges ≤ length ring_side.old) }
    ensures { InEach graph.node_count graph.edge_count dir_edges_src.now dir_edges_marked.now offsets.now grouped.now (λ g. SidesListed g dir_edges_src.now nodes_x.now nodes_y.now ring_side.old ring_side.new result) }
{
    let mut next = [0u16; MAX_HALF_EDGES];
    write_successors(graph, offsets, grouped, dir_edges_marked, &mut next);
    let mut half_edges = [0u16; MAX_HALF_EDGES];
    let mut keys = [0u64; KEYS];
    let mut ring_first = [0u16; MAX_EDGES];
    let mut ring_length = [0u16; MAX_EDGES];
    let mut ring_area = [0.0f64; MAX_EDGES];
    rings::walk_rings(
        graph.edge_count,
        &next,
        dir_edges_src,
        dir_edges_marked,
        nodes_x,
        nodes_y,
        &mut half_edges,
        &mut keys,
        &mut ring_first,
        &mut ring_length,
        ring_side,
        &mut ring_area,
    )
}
