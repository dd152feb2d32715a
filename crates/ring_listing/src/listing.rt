// The rings of an arrangement, listed with their keys, sides and areas, and its census before
// splitting.
ghost use Rattle.rules.specs.Limits.{limits};
ghost use Rattle.cycles.specs.Arranged.{Arranged};
ghost use Rattle.stars.specs.Groups.{InEach};
ghost use Rattle.seeds.specs.Seeds.{Placed};
ghost use Rattle.rings.specs.Listing.{rows_of};
ghost use Rattle.ring_listing.specs.Listing.{RingRoom, RingsListed};

use crate::successors::write_successors;
use tables::{MAX_HALF_EDGES, PlanarGraph};

// How many rings were listed, and the census.
#[derive(Clone, Copy)]
pub struct RingCount {
    pub count: u16,
    pub census: cycles::Census,
}

// Counts the maximal rings, splits them, and lists the rings.
pub fn list_rings(
    graph: PlanarGraph,
    nodes_x: &[f64],
    nodes_y: &[f64],
    offsets: &[u16],
    grouped: &[u16],
    dir_edges_src: &[u16],
    dir_edges_marked: &[bool],
    half_edges: &mut [u16],
    keys: &mut [u64],
    ring_first: &mut [u16],
    ring_length: &mut [u16],
    ring_side: &mut [u8],
    ring_area: &mut [f64],
) -> RingCount
    requires { (Arranged limits graph.node_count graph.edge_count dir_edges_src.now dir_edges_marked.now offsets.now grouped.now) × (Placed graph.node_count nodes_x.now nodes_y.now) × (RingRoom graph.edge_count half_edges.old keys.old (rows_of ring_first.old ring_length.old ring_side.old ring_area.old)) }
    ensures { InEach graph.node_count graph.edge_count dir_edges_src.now dir_edges_marked.now offsets.now grouped.now (λ g. RingsListed g dir_edges_src.now nodes_x.now nodes_y.now half_edges.old keys.old (rows_of ring_first.old ring_length.old ring_side.old ring_area.old)
        half_edges.new keys.new (rows_of ring_first.new ring_length.new ring_side.new ring_area.new) result) }
{
    let mut next = [0u16; MAX_HALF_EDGES];
    let maximal = write_successors(graph, offsets, grouped, dir_edges_marked, &mut next);
    let census = cycles::count_census(
        graph,
        nodes_x,
        nodes_y,
        offsets,
        grouped,
        dir_edges_src,
        dir_edges_marked,
        maximal,
    );
    let count = rings::walk_rings(
        graph.edge_count,
        &next,
        dir_edges_src,
        dir_edges_marked,
        nodes_x,
        nodes_y,
        half_edges,
        keys,
        ring_first,
        ring_length,
        ring_side,
        ring_area,
    );
    RingCount { count, census }
}
