// Pruning and cutting, for a station that is written in Rust: entries on numbers and slices. Each answers 0,
// or the number of a refusal.
#![tactic(auto)]

mod cut;
mod prune;

pub use cut::tukmiheb_delete_cut_edges;
pub use prune::tukmiheb_prune_dangles;
