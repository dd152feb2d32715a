// Links of half-edges to their successors, and labels of the maximal rings that these make. Carried over
// from planar_graph.rs.
#![tactic(auto)]

mod labels;
mod links;

pub use labels::label_rings;
pub use links::link_successors;
