// An angular order, a least rotation and one record of a segment file, for a station that is written in
// Rust: entries on numbers and slices, and no graph. Each answers 0, or the number of a refusal.
#![tactic(auto)]

mod angle;
mod least_rotation;
mod record;

pub use angle::tukmiheb_compare_angular;
pub use least_rotation::tukmiheb_minimum_rotation_index;
pub use record::tukmiheb_read_record;
