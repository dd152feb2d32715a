// Sorting, and the way back, for a station that is written in Rust: entries on numbers and slices. Each
// answers 0, or the number of a refusal.
#![tactic(auto)]

mod reset;
mod sort;

pub use reset::tukmiheb_reset;
pub use sort::tukmiheb_sort_edges;
