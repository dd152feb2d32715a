// The tests that ring extraction begins with: numbers 6, 7, 5 and 8. Nothing is written.
ghost use Rattle.rules.specs.Limits.{limits};
ghost use Rattle.tables.specs.Regions.{state_in};
ghost use Rattle.extracting.specs.Extraction.{lists_of};
ghost use Rattle.ring_checks.specs.Checks.{RingChecked};

use crate::lengths::lists_long;
use tables::{PlanarGraph, Refusal};

// The first test that fails, or none.
pub fn check_rings(
    graph: PlanarGraph,
    floats: &[f64],
    numbers: &[u16],
    stars: &[u16],
    marks: &[bool],
    ids: &[u32],
    half_edges: &[u16],
    ring_first: &[u16],
    ring_length: &[u16],
    ring_face: &[u16],
    ring_side: &[u8],
    ring_area: &[f64],
) -> Result<(), Refusal>
    ensures { RingChecked
        (state_in limits graph floats.now numbers.now stars.now marks.now ids.now)
        (lists_of half_edges.now ring_first.now ring_length.now ring_face.now ring_side.now ring_area.now) result }
{
    calls::check_stage(3, graph, floats, numbers, stars, marks, ids)?;
    if lists_long(
        2 * usize::from(graph.edge_count),
        half_edges,
        ring_first,
        ring_length,
        ring_face,
        ring_side,
        ring_area,
    ) {
        return Ok(());
    }
    Err(Refusal::ListTooShort)
}
