// Ring extraction over grouped stars: the rings are listed with their keys, sides and areas, then
// their face numbers are written. Carried over from planar_graph.rs.
#![tactic(auto)]

mod naming;
mod sides;

ghost use Rattle.rules.specs.Limits.{limits};
ghost use Rattle.extracting.specs.Extraction.{lists_of, Extractable, Extracts};

use naming::name_rings;
use ring_listing::list_rings;
use ring_tally::KEYS;
pub use sides::list_sides;
use tables::PlanarGraph;

// What ring extraction answers: the graph in its last stage, how many rings there are, the census
// taken before splitting, and how many comparisons naming the rings took.
#[derive(Clone, Copy)]
pub struct Extracted {
    pub graph: PlanarGraph,
    pub count: u16,
    pub census: cycles::Census,
    pub comparisons: u16,
}

// Ring extraction over stars that are grouped by node. Each active edge has both halves in rings,
// so the rings take twice as many entries as there are active edges.
pub fn extract_grouped(
    graph: PlanarGraph,
    nodes_x: &[f64],
    nodes_y: &[f64],
    dir_edges_src: &[u16],
    dir_edges_marked: &[bool],
    offsets: &[u16],
    grouped: &[u16],
    half_edges: &mut [u16],
    ring_first: &mut [u16],
    ring_length: &mut [u16],
    ring_face: &mut [u16],
    ring_side: &mut [u8],
    ring_area: &mut [f64],
) -> Extracted
    requires { Extractable limits graph nodes_x.now nodes_y.now dir_edges_src.now dir_edges_marked.now offsets.now grouped.now (lists_of half_edges.old ring_first.old ring_length.old ring_face.old ring_side.old ring_area.old) }
    ensures { Extracts limits graph nodes_x.now nodes_y.now dir_edges_src.now dir_edges_marked.now offsets.now grouped.now
        (lists_of half_edges.old ring_first.old ring_length.old ring_face.old ring_side.old ring_area.old)
        (lists_of half_edges.new ring_first.new ring_length.new ring_face.new ring_side.new ring_area.new) result }
{
    let mut keys = [0u64; KEYS];
    let listed = list_rings(
        graph,
        nodes_x,
        nodes_y,
        offsets,
        grouped,
        dir_edges_src,
        dir_edges_marked,
        half_edges,
        &mut keys,
        ring_first,
        ring_length,
        ring_side,
        ring_area,
    );
    let count = listed.count;
    let census = listed.census;
    let total = 2 * usize::from(census.edges);
    let made = name_rings(
        &half_edges[..total],
        &keys,
        ring_first,
        ring_length,
        usize::from(count),
        ring_area,
        ring_face,
    );
    let comparisons = made as u16;
    let after = graph.at_stage(4);
    Extracted {
        graph: after,
        count,
        census,
        comparisons,
    }
}
