// Marks that a host lends as bytes: a byte that is neither 0 nor 1 is no bool, so that a host must not
// lend one for a bool. The library's own marks are a local row of bools, read before a call on a graph
// and written back after it.
#![tactic(auto)]

mod checks;
mod rows;

pub use checks::{check_marks, has_room};
pub use rows::{read_marks, write_marks};
