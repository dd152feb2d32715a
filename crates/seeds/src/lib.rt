// The seeds from which pieces are filled: nodes by least x, then y, then node. Carried over from
// active_component_ids_with_execution_policy of planar_graph.rs.
#![tactic(auto)]

mod seeds;

ghost use Rattle.std.specs.Prelude.{◌≡◌, ◌<◌, length, get_or};
ghost use Rattle.rules.specs.HalfEdge.{twin};

pub use seeds::order_seeds;
use tables::{DirEdgeId, NodeId, twin_of};

// The node where a half-edge ends: its twin starts there.
pub fn end_of(dir_edges_src: &[u16], half: DirEdgeId) -> NodeId
    requires { twin half.0 < length dir_edges_src.now }
    ensures { result.0 ≡ get_or dir_edges_src.now (twin half.0) 0 }
{
    let t = usize::from(twin_of(half).0);
    NodeId(dir_edges_src[t])
}
