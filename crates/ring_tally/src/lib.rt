// What a walk of a ring carries along, half-edge by half-edge: keys and twice the area; and the side that
// the area tells. Carried over from planar_graph.rs.
#![tactic(auto)]

mod side;
mod tally;

pub use side::{RingSide, side_area, side_number, side_of};
pub use tally::{KEYS, KEYS_Y, Tally};
