// The sides of the rings alone, over the slices of a sound state.
ghost use Rattle.std.specs.Prelude.{◌≡◌, true, List, ℕ, ◌≤◌, length};
ghost use Rattle.rules.specs.Limits.{limits};
ghost use Rattle.rules.specs.State.{sound};
ghost use Rattle.tables.specs.Regions.{state_in, least_floats, least_numbers, least_stars, least_marks};
ghost use Rattle.extracting.specs.Sides.{Sided};
ghost use Rattle.ring_entry.specs.Given.{SliceSound};

use tables::{
    DEGREES, HALF_MARKS, MAX_HALF_EDGES, NODES_Y, NODES_Z, PlanarGraph, STAR_OFFSETS, TARGETS,
};

// The stars are grouped by node, the sides of the rings written, and the rings counted. Nothing else that
// is lent is written, and no face is named.
// Not inlined, so that its tables have a frame of their own (docs/DECISIONS.md, the stack of a call).
#[inline(never)]
pub fn sides_of_regions(
    graph: PlanarGraph,
    floats: &[f64],
    numbers: &[u16],
    stars: &[u16],
    marks: &[bool],
    ring_side: &mut [u8],
) -> u16
    requires limits_in_bounds { (least_floats limits ≤ length floats.now) × (least_numbers limits ≤ length numbers.now) × (least_stars limits ≤ length stars.now) × (least_marks limits ≤ length marks.now) }
    requires slice_sound { SliceSound limits graph floats.now numbers.now stars.now marks.now }
    requires edges_in_bounds { limits.edges ≤ length ring_side.old }
    ensures { (ids : List ℕ) → let s = state_in limits graph floats.now numbers.now stars.now marks.now ids in sound limits s ≡ true → Sided s ring_side.old ring_side.new result }
{
    let mut offsets = [0u16; STAR_OFFSETS];
    let mut grouped = [0u16; MAX_HALF_EDGES];
    stars::group_stars(
        graph,
        &numbers[0..TARGETS],
        &stars[0..DEGREES],
        &mut offsets,
        &mut grouped,
    );
    extracting::list_sides(
        graph,
        &floats[0..NODES_Y],
        &floats[NODES_Y..NODES_Z],
        &offsets,
        &grouped,
        &numbers[0..TARGETS],
        &marks[HALF_MARKS..],
        ring_side,
    )
}
