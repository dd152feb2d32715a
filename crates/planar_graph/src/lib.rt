// The public entries of the graph, each proved in a crate of its own. Each takes all inputs, damaged
// tables included, and ends; it refuses by document 01's numbers, and a refusal changes nothing lent
// to it.
#![tactic(auto)]

pub use add_entry::add_line;
pub use adding::LineEdge;
pub use create_entry::create;
pub use cut_entry::{CutEdges, delete_cut_edges};
pub use cycles::Census;
pub use file_entry::add_records;
pub use file_taking::{FileTaken, end_number};
pub use frames::FileRefusal;
pub use geometry::{Coord3D, Line3D};
pub use hole_entry::{RingsAndHoles, extract_rings};
pub use holes::Hole;
pub use prune_entry::prune_dangles;
pub use reset_entry::reset;
pub use ring_entry::Rings;
pub use ring_sides::{NoSide, side_at};
pub use ring_tally::RingSide;
pub use sort_entry::sort_edges;
pub use tables::{Answer, DirEdgeId, EdgeId, FaceId, NodeId, PlanarGraph, Refusal};
pub use taking::TakeRefusal;
