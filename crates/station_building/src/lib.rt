// Creating and building a graph, for a station that is written in Rust: entries on numbers and slices.
// Each answers 0, or the number of a refusal.
#![tactic(auto)]

mod add;
mod create;

pub use add::tukmiheb_add_line;
pub use create::tukmiheb_create;
