// The listing of a graph that was built: the four steps, one after another, and then the text.
#![tactic(auto)]

ghost use Rattle.rules.specs.Limits.{limits};
ghost use Rattle.rules.specs.Listing.{cut_text, listing};
ghost use Rattle.tables.specs.Regions.{state_in};
ghost use Rattle.lists.specs.Buffer.{Put};
ghost use Rattle.listing_steps.specs.Due.{Due};

use ring_lines::put_rings;
use tables::{MAX_HALF_EDGES, PlanarGraph, TARGETS};

// How many bytes the longest listing has at most: line one, and a line of 78 bytes for each half-edge,
// since there are no more rings than these, nor more nodes in all of them.
pub const LISTING_ROOM: usize = 146 + 78 * MAX_HALF_EDGES;

// Cut: the rings are extracted, and line one and their lines are written.
fn put_cut(
    graph: PlanarGraph,
    dangles: u16,
    cuts: u16,
    floats: &[f64],
    numbers: &[u16],
    stars: &[u16],
    marks: &[bool],
    ids: &[u32],
    out: &mut [u8],
) -> usize
    requires { Due 3 (state_in limits graph floats.now numbers.now stars.now marks.now ids.now) out.old }
    ensures { Put 0 (cut_text dangles cuts (state_in limits graph floats.now numbers.now stars.now marks.now ids.now)) out.old out.new result }
{
    let mut half_edges = [0u16; MAX_HALF_EDGES];
    let mut ring_first = [0u16; MAX_HALF_EDGES];
    let mut ring_length = [0u16; MAX_HALF_EDGES];
    let mut ring_face = [0u16; MAX_HALF_EDGES];
    let mut ring_side = [0u8; MAX_HALF_EDGES];
    let mut ring_area = [0.0f64; MAX_HALF_EDGES];
    let rings = map_rings::ring_map(
        graph,
        floats,
        numbers,
        stars,
        marks,
        ids,
        &mut half_edges,
        &mut ring_first,
        &mut ring_length,
        &mut ring_face,
        &mut ring_side,
        &mut ring_area,
    );
    let place = listing_text::put_head(
        out,
        0,
        u64::from(graph.node_count),
        u64::from(graph.edge_count),
        u64::from(dangles),
        u64::from(cuts),
        u64::from(rings.count),
        rings.euler,
    );
    put_rings(
        out,
        place,
        rings.count,
        &half_edges,
        &ring_first,
        &ring_length,
        &ring_face,
        &ring_area,
        &numbers[0..TARGETS],
    )
}

// The listing of a graph that was built, written to the front of `out`. Answers how many bytes it has.
pub fn put_listing(
    graph: PlanarGraph,
    floats: &[f64],
    numbers: &[u16],
    stars: &mut [u16],
    marks: &mut [bool],
    ids: &[u32],
    out: &mut [u8],
) -> usize
    requires { Due 0 (state_in limits graph floats.now numbers.now stars.old marks.old ids.now) out.old }
    ensures { Put 0 (listing (state_in limits graph floats.now numbers.now stars.old marks.old ids.now)) out.old out.new result }
{
    let map = map_steps::cut_map(graph, floats, numbers, stars, marks, ids);
    put_cut(
        map.graph,
        map.dangles,
        map.cuts,
        floats,
        numbers,
        stars,
        marks,
        ids,
        out,
    )
}
