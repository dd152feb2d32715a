// The rings of an arrangement listed: the successors of half-edges along them, then one walk a ring. Carried
// over from planar_graph.rs.
#![tactic(auto)]

mod listing;
mod successors;

pub use listing::{RingCount, list_rings};
pub use successors::write_successors;
