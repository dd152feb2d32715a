// Whether the tables of a graph are sound (number 7), but for the lists of line ids; where half-edges start,
// counted; and the loops that resetting needs.
#![tactic(auto)]

mod reset;
mod sound;
mod starts;

pub use reset::{clear_marks, write_degrees};
pub use sound::is_sound;
pub use starts::count_starts;
