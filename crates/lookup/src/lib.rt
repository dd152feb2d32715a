// Nodes found by key and half-edges by their ends without a look at the others: both are chained by a
// code in tables of one's own. The Rust asks a hash map for a node and walks a star for an edge.
#![tactic(auto)]

mod codes;
mod halves;
mod nodes;

pub use codes::{HALF_HEADS, NODE_HEADS};
pub use halves::{enter_halves, find_half};
pub use nodes::{enter_nodes, find_node};
