// The tests that ring extraction begins with (6, 7, 5, 8).
#![tactic(auto)]

mod checks;
mod lengths;

pub use checks::check_rings;
