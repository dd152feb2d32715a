// Adding the records of a segment file, for a station that is written in Rust: an entry on numbers and
// slices, which answers 0, or the number of a refusal.
#![tactic(auto)]

mod answer;
mod records;

pub use records::tukmiheb_add_records;
