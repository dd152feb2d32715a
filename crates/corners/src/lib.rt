// The corners of rings, by tables of whole numbers: their boxes, which nodes a ring has, and the test
// point of an open ring (document 02, §2).
#![tactic(auto)]

mod boxes;
mod nodes;

pub use boxes::{Sides, sides_of};
pub use nodes::{stamp_nodes, test_point};
