// Ring extraction over the slices of a sound state.
ghost use Rattle.std.specs.Prelude.{◌≡◌, true, List, ℕ, ◌*◌, ◌≤◌, length};
ghost use Rattle.rules.specs.Limits.{limits};
ghost use Rattle.rules.specs.State.{sound};
ghost use Rattle.tables.specs.Regions.{state_in, least_floats, least_numbers, least_stars, least_marks};
ghost use Rattle.extracting.specs.Extraction.{lists_of, Room, Extraction};
ghost use Rattle.ring_entry.specs.Given.{SliceSound};

use extracting::Extracted;
use tables::{
    DEGREES, HALF_MARKS, MAX_HALF_EDGES, NODES_Y, NODES_Z, PlanarGraph, STAR_OFFSETS, TARGETS,
};

// The stars are grouped by node, and the rings written into the lists. Line ids are not read.
// Not inlined, so that its tables have a frame of their own (docs/DECISIONS.md, the stack of a call).
#[inline(never)]
pub fn extract_regions(
    graph: PlanarGraph,
    floats: &[f64],
    numbers: &[u16],
    stars: &[u16],
    marks: &[bool],
    half_edges: &mut [u16],
    ring_first: &mut [u16],
    ring_length: &mut [u16],
    ring_face: &mut [u16],
    ring_side: &mut [u8],
    ring_area: &mut [f64],
) -> Extracted
    requires limits_in_bounds { (least_floats limits ≤ length floats.now) × (least_numbers limits ≤ length numbers.now) × (least_stars limits ≤ length stars.now) × (least_marks limits ≤ length marks.now) }
    requires slice_sound { SliceSound limits graph floats.now numbers.now stars.now marks.now }
    requires room { Room (2 * graph.edge_count) (lists_of half_edges.old ring_first.old ring_length.old ring_face.old ring_side.old ring_area.old) }
    ensures { (ids : List ℕ) → let s = state_in limits graph floats.now numbers.now stars.now marks.now ids in sound limits s ≡ true → Extraction s
        (lists_of half_edges.old ring_first.old ring_length.old ring_face.old ring_side.old ring_area.old)
        (lists_of half_edges.new ring_first.new ring_length.new ring_face.new ring_side.new ring_area.new) result }
{
    let mut offsets = [0u16; STAR_OFFSETS];
    let mut grouped = [0u16; MAX_HALF_EDGES];
    stars::group_stars(
        graph,
        &numbers[0..TARGETS],
        &stars[0..DEGREES],
        &mut offsets,
        &mut grouped,
    );
    extracting::extract_grouped(
        graph,
        &floats[0..NODES_Y],
        &floats[NODES_Y..NODES_Z],
        &numbers[0..TARGETS],
        &marks[HALF_MARKS..],
        &offsets,
        &grouped,
        half_edges,
        ring_first,
        ring_length,
        ring_face,
        ring_side,
        ring_area,
    )
}
