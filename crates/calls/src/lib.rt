// What calls on a graph have in common: the tests that each begins with, over the five lent slices.
#![tactic(auto)]

mod checks;
mod room;

pub use checks::{check_sound, check_stage};
pub use room::{are_long, has_room};
