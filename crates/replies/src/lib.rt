// What a public entry answers, for a caller that hands over numbers: the small state and the values of
// a reply in lent arrays of exactly their size, so that none can be too short, and the number of a
// refusal.
#![tactic(auto)]

mod building;
mod small;
mod steps;

pub use building::{answer_added, answer_created};
pub use small::{
    ADDED_LENGTH, CENSUS_LENGTH, COUNT_LENGTH, STATE_LENGTH, flag, read_state, write_state,
};
pub use steps::{answer_cutting, answer_pruned, answer_step};
