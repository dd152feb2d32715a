// The tests that ring extraction with the hole list begins with: numbers 6, 7, 5, 8 and 13. Nothing is
// written.
#![tactic(auto)]

mod room;

ghost use Rattle.rules.specs.Limits.{limits};
ghost use Rattle.tables.specs.Regions.{state_in};
ghost use Rattle.extracting.specs.Extraction.{lists_of};
ghost use Rattle.hole_checks.specs.Checks.{HolesChecked};

use crate::room::holes_fit;
use tables::{PlanarGraph, Refusal};

// The first test that fails, or none, for a hole list of `room` records.
pub fn check_holes(
    room: usize,
    graph: PlanarGraph,
    floats: &[f64],
    numbers: &[u16],
    stars: &[u16],
    marks: &[bool],
    ids: &[u32],
    half_edges: &[u16],
    ring_first: &[u16],
    ring_length: &[u16],
    ring_face: &[u16],
    ring_side: &[u8],
    ring_area: &[f64],
) -> Result<(), Refusal>
    ensures { HolesChecked room
        (state_in limits graph floats.now numbers.now stars.now marks.now ids.now)
        (lists_of half_edges.now ring_first.now ring_length.now ring_face.now ring_side.now ring_area.now) result }
{
    ring_checks::check_rings(
        graph,
        floats,
        numbers,
        stars,
        marks,
        ids,
        half_edges,
        ring_first,
        ring_length,
        ring_face,
        ring_side,
        ring_area,
    )?;
    if holes_fit(room, graph, floats, numbers, stars, marks) {
        return Ok(());
    }
    Err(Refusal::TooFewHoles)
}
