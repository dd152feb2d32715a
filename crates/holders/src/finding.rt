// The holes of the rings that were extracted.
ghost use Rattle.holders.specs.Finding.{RingsGiven, HolesFound};

use crate::find_holes;
use extracting::Extracted;
use hole_listing::HoleList;
use tables::{NODES_Y, NODES_Z, PlanarGraph, TARGETS};

// One record for each open ring. Both halves of each active edge are in rings, so the lists hold twice
// as many half-edges as the census has edges.
pub fn holes_of_rings(
    graph: PlanarGraph,
    floats: &[f64],
    numbers: &[u16],
    half_edges: &[u16],
    ring_first: &[u16],
    ring_length: &[u16],
    ring_face: &[u16],
    ring_side: &[u8],
    ring_area: &[f64],
    done: Extracted,
) -> HoleList
    requires { RingsGiven graph floats.now numbers.now half_edges.now ring_first.now ring_length.now ring_face.now ring_side.now ring_area.now done }
    ensures { HolesFound graph floats.now numbers.now half_edges.now ring_first.now ring_length.now ring_face.now ring_side.now ring_area.now done result }
{
    let census = done.census;
    let total = 2 * usize::from(census.edges);
    find_holes(
        graph.node_count,
        &floats[0..NODES_Y],
        &floats[NODES_Y..NODES_Z],
        &numbers[0..TARGETS],
        &half_edges[..total],
        done.count,
        ring_first,
        ring_length,
        ring_face,
        ring_side,
        ring_area,
    )
}
