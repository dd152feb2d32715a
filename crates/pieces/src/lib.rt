// Pieces: the nodes with an active half-edge, by what active edges join, numbered by least x, then y,
// then node. Carried over from active_component_ids_with_execution_policy of planar_graph.rs.
#![tactic(auto)]

mod fill;
mod number;

pub use number::number_pieces;
