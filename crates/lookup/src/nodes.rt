// Nodes chained by key: behind the heads of the chains comes an entry for each node.
ghost use Rattle.std.specs.Prelude.{◌≡◌, ◌+◌, ◌<◌, ◌≤◌, length};
ghost use Rattle.rules.specs.Keys.{key_of};
ghost use Rattle.searching.specs.Searches.{find_node_in};
ghost use Rattle.lookup.specs.Codes.{node_heads, node_code_lem};
ghost use Rattle.lookup.specs.Indexed.{NodesChained};

use crate::codes::{NODE_HEADS, key_code};
use geometry::Coord3D;
use tables::NodeId;

// The code of a node.
fn node_code(nodes_x: &[f64], nodes_y: &[f64], node: NodeId) -> usize
    requires { (node.0 < length nodes_x.now) × (node.0 < length nodes_y.now) }
    ensures { result ≡ node_code_lem nodes_x.now nodes_y.now node.0 }
{
    let n = node.0 as usize;
    let bits_x = geometry::canonical_coordinate_bits(nodes_x[n]);
    let bits_y = geometry::canonical_coordinate_bits(nodes_y[n]);
    key_code(bits_x, bits_y)
}

// Chains the nodes from `from` up to `to`, those before being chained.
pub fn enter_nodes(nodes_x: &[f64], nodes_y: &[f64], node_chains: &mut [u16], from: u16, to: u16)
    requires nodes_chained { NodesChained from nodes_x.now nodes_y.now node_chains.old }
    requires from_le_to { (from ≤ to) × (to ≤ length nodes_x.now) × (to ≤ length nodes_y.now) × (node_heads + to ≤ length node_chains.old) }
    ensures { NodesChained to nodes_x.now nodes_y.now node_chains.new }
{
    for n in from..to {
        let code = node_code(nodes_x, nodes_y, NodeId(n));
        chains::enter(node_chains, NODE_HEADS, code, n);
    }
}

// The lowest node with the point's key, or the node count. The chain of the point's code is walked to
// its end, from the last node to the first.
pub fn find_node(
    nodes: u16,
    nodes_x: &[f64],
    nodes_y: &[f64],
    node_chains: &[u16],
    point: Coord3D,
) -> NodeId
    requires { NodesChained nodes nodes_x.now nodes_y.now node_chains.now }
    ensures { result.0 ≡ find_node_in nodes nodes_x.now nodes_y.now (key_of point.x point.y) }
{
    let bits_x = geometry::canonical_coordinate_bits(point.x);
    let bits_y = geometry::canonical_coordinate_bits(point.y);
    let code = key_code(bits_x, bits_y);
    let mut found = nodes;
    let mut at = node_chains[code];
    while 0 < at {
        let n = at - 1;
        let i = n as usize;
        if searching::has_key(nodes_x, nodes_y, NodeId(n), bits_x, bits_y) {
            found = n;
        }
        at = node_chains[NODE_HEADS + i];
    }
    NodeId(found)
}
