// Ring files, for a station that is written in Rust: entries on numbers and slices. Each answers 0, or
// the number of a refusal.
#![tactic(auto)]

mod reading;
mod writing;

pub use reading::tukmiheb_read_rings;
pub use writing::tukmiheb_write_rings;
