// Everything that a call is lent, as one row of numbers: what stood there before the call and what
// stands there after it are compared entry by entry.
#![tactic(auto)]

mod change;
mod image;
mod stays;

pub use change::Change;
pub use image::{IMAGE, Image, image_of};
