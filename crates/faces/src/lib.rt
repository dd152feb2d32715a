// Face numbers of rings: the place of each in the order of keys, then areas, then starting
// half-edges. Carried over from assign_deterministic_face_ids and face_cycle_key of planar_graph.rs.
#![tactic(auto)]

mod numbers;
mod order;

pub use numbers::number_faces;
