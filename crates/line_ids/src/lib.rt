// The lists of line ids behind the edges, in one shared table of pairs: which places are
// in use, the lowest free place, and where an id goes in an edge's list.
#![tactic(auto)]

mod free;
mod seeking;

pub use free::{mark_used, next_free};
pub use seeking::{Sought, seek_id};
