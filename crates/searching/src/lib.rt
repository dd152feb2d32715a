// The search for a node by its key and for a half-edge by its ends, as in `add_node` and `add_line` of
// planar_graph.rs.
#![tactic(auto)]

ghost use Rattle.std.specs.Prelude.{◌≡◌, ◌&&◌, ℕ, ◌+◌, ◌*◌, ◌<◌, ◌≤◌, eqb, length, get_or, take};
ghost use Rattle.lists.specs.Lists.{In};
ghost use Rattle.rotation.specs.Rotation.{key_same};
ghost use Rattle.rules.specs.Keys.{key_of};
ghost use Rattle.rules.specs.Limits.{limits};
ghost use Rattle.rules.specs.State.{key_in_lem};
ghost use Rattle.searching.specs.Searches.{find_node_in, find_half_in};

use geometry::Coord3D;
use tables::{DirEdgeId, NodeId, PlanarGraph};

// Whether a node has the bits of a point's x and y.
pub fn has_key(nodes_x: &[f64], nodes_y: &[f64], node: NodeId, bits_x: u64, bits_y: u64) -> bool
    requires { (node.0 < length nodes_x.now) × (node.0 < length nodes_y.now) }
    ensures { result ≡ key_same (key_in_lem nodes_x.now nodes_y.now node.0) (record { x = bits_x; y = bits_y }) }
{
    let n = usize::from(node.0);
    geometry::canonical_coordinate_bits(nodes_x[n]) == bits_x
        && geometry::canonical_coordinate_bits(nodes_y[n]) == bits_y
}

// The lowest node with the point's key, or the node count. The Rust asks a hash map; here every
// node is looked at, and the point's bits are worked out once.
pub fn find_node(graph: PlanarGraph, nodes_x: &[f64], nodes_y: &[f64], point: Coord3D) -> NodeId
    requires { (graph.node_count ≤ length nodes_x.now) × (graph.node_count ≤ length nodes_y.now) }
    ensures { result.0 ≡ find_node_in graph.node_count nodes_x.now nodes_y.now (key_of point.x point.y) }
{
    let bits_x = geometry::canonical_coordinate_bits(point.x);
    let bits_y = geometry::canonical_coordinate_bits(point.y);
    let count = graph.node_count;
    for n in 0..count {
        if has_key(nodes_x, nodes_y, NodeId(n), bits_x, bits_y) {
            return NodeId(n);
        }
    }
    NodeId(count)
}

// Whether a half-edge goes from node u to node v.
pub fn goes(
    dir_edges_src: &[u16],
    dir_edges_dst: &[u16],
    half: DirEdgeId,
    u: NodeId,
    v: NodeId,
) -> bool
    requires { (half.0 < length dir_edges_src.now) × (half.0 < length dir_edges_dst.now) }
    ensures { result ≡ (eqb (get_or dir_edges_src.now half.0 0) u.0 && eqb (get_or dir_edges_dst.now half.0 0) v.0) }
{
    let h = usize::from(half.0);
    dir_edges_src[h] == u.0 && dir_edges_dst[h] == v.0
}

// The first half-edge of u's star that ends at v, or the number of half-edges. The star is what of
// the flat table starts at u, so both ends are tested as the table is walked.
pub fn find_half(
    graph: PlanarGraph,
    dir_edges_src: &[u16],
    dir_edges_dst: &[u16],
    nodes_outgoing: &[u16],
    u: NodeId,
    v: NodeId,
) -> DirEdgeId
    requires edge_count_bound { (graph.edge_count ≤ limits.edges) × (2 * graph.edge_count ≤ length nodes_outgoing.now) }
    requires by_index { (i : ℕ) → i < 2 * graph.edge_count → (get_or nodes_outgoing.now i 0 < length dir_edges_src.now) × (get_or nodes_outgoing.now i 0 < length dir_edges_dst.now) }
    ensures { result.0 ≡ find_half_in graph.edge_count dir_edges_src.now dir_edges_dst.now nodes_outgoing.now u.0 v.0 }
{
    let count = 2 * graph.edge_count;
    for i in 0..count {
        let h = nodes_outgoing[usize::from(i)];
        if goes(dir_edges_src, dir_edges_dst, DirEdgeId(h), u, v) {
            return DirEdgeId(h);
        }
    }
    DirEdgeId(count)
}

// The same, where either may be the node count: no edge leads to a node that has yet to be made, so
// none is searched for then.
pub fn find_edge(
    graph: PlanarGraph,
    dir_edges_src: &[u16],
    dir_edges_dst: &[u16],
    nodes_outgoing: &[u16],
    start: NodeId,
    end: NodeId,
) -> DirEdgeId
    requires edge_count_bound { (graph.edge_count ≤ limits.edges) × (2 * graph.edge_count ≤ length nodes_outgoing.now) }
    requires by_index { (i : ℕ) → i < 2 * graph.edge_count → (get_or nodes_outgoing.now i 0 < length dir_edges_src.now) × (get_or nodes_outgoing.now i 0 < length dir_edges_dst.now) }
    requires by_index_2 { (h : ℕ) → In h (take (2 * graph.edge_count) nodes_outgoing.now) → (get_or dir_edges_src.now h 0 < graph.node_count) × (get_or dir_edges_dst.now h 0 < graph.node_count) }
    ensures { result.0 ≡ find_half_in graph.edge_count dir_edges_src.now dir_edges_dst.now nodes_outgoing.now start.0 end.0 }
{
    if start.0 == graph.node_count {
        return DirEdgeId(2 * graph.edge_count);
    }
    if end.0 == graph.node_count {
        return DirEdgeId(2 * graph.edge_count);
    }
    find_half(
        graph,
        dir_edges_src,
        dir_edges_dst,
        nodes_outgoing,
        start,
        end,
    )
}
