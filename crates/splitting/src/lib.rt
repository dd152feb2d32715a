// Splitting the maximal rings at the nodes that they pass more than once. Carried over from
// planar_graph.rs.
#![tactic(auto)]

mod reads;
mod split;

pub use reads::index_at;
pub use split::split_rings;
