// The codes by which nodes and half-edges are chained.
ghost use Rattle.std.specs.Prelude.{◌≡◌};
ghost use Rattle.lookup.specs.Codes.{key_code_lem, pair_code_lem};

use tables::{MAX_HALF_EDGES, MAX_NODES, NodeId};

// How many chains of nodes there are, and how many of half-edges: two for each, so that most chains of
// full tables have one item or none.
pub const NODE_HEADS: usize = 2 * MAX_NODES;

pub const HALF_HEADS: usize = 2 * MAX_HALF_EDGES;

// Of the bits of a point's x and y.
pub fn key_code(bits_x: u64, bits_y: u64) -> usize
    ensures { result ≡ key_code_lem (record { x = bits_x; y = bits_y }) }
{
    let x = bits_x / 4_294_967_296 * 1_540_483_477;
    let y = bits_y / 4_294_967_296 * 1_640_531_527;
    let code = (x + y) / 4_294_967_296;
    code as usize % NODE_HEADS
}

// Of the nodes that a half-edge joins.
pub fn pair_code(u: NodeId, v: NodeId) -> usize
    ensures { result ≡ pair_code_lem u.0 v.0 }
{
    (300 * (u.0 as usize) + v.0 as usize) % HALF_HEADS
}
