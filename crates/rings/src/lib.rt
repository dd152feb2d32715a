// Rings: listing the rings, with their keys, areas and sides. Carried over from planar_graph.rs.
#![tactic(auto)]

mod walk;

pub use walk::walk_rings;
