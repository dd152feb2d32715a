// Where each table lies. The tables are lent as regions of five slices, by element type and by who
// writes them: floats, numbers, stars, marks and ids. A constant is the place where a region begins,
// or the least length of a slice; the last region of a slice runs to its end.
use crate::{MAX_EDGES, MAX_NODES, MAX_PAIRS};

pub const MAX_HALF_EDGES: usize = 2 * MAX_EDGES;

// In `floats` x, y and z of the nodes, then the segments with six numbers for each edge.
pub const NODES_Y: usize = MAX_NODES;

pub const NODES_Z: usize = NODES_Y + MAX_NODES;

pub const SEGMENTS: usize = NODES_Z + MAX_NODES;

pub const FLOATS: usize = SEGMENTS + 6 * MAX_EDGES;

// In `numbers` the nodes where half-edges start, then those where they end; then the place of each
// edge's list of line ids, and for each pair of such a list the place of the next one.
pub const TARGETS: usize = MAX_HALF_EDGES;

pub const LIST_PLACES: usize = TARGETS + MAX_HALF_EDGES;

pub const LINKS: usize = LIST_PLACES + MAX_EDGES;

pub const NUMBERS: usize = LINKS + MAX_PAIRS;

// In `stars` the star table, then the degrees.
pub const DEGREES: usize = MAX_HALF_EDGES;

pub const STARS: usize = DEGREES + MAX_NODES;

// In `marks` those of the nodes, then those of the half-edges.
pub const HALF_MARKS: usize = MAX_NODES;

pub const MARKS: usize = HALF_MARKS + MAX_HALF_EDGES;

// In `ids` the line ids of the edges, then those of the pairs.
pub const PAIR_IDS: usize = MAX_EDGES;

pub const IDS: usize = PAIR_IDS + MAX_PAIRS;

// Where each node's star begins in a list of all, and where the last one ends.
pub const STAR_OFFSETS: usize = MAX_NODES + 1;
