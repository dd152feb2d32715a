// Writing a new node, a new edge, and a new line id behind an edge into the five lent slices.
#![tactic(auto)]

mod edge;
mod ids;
mod node;

pub use edge::add_edge;
pub use ids::enter_id;
pub use node::add_node;
