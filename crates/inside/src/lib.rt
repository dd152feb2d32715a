// Whether a point lies strictly inside a ring, by the even-odd rule. All of it is in whole numbers, so
// nothing rounds: the floats of the tables are turned once, and the rings are tested against the
// integers.
#![tactic(auto)]

mod lines;
mod rings;
mod wholes;

pub use rings::{Stands, ring_stands};
pub use wholes::{whole, write_whole};
