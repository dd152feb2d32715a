// Cutting over the slices of a sound state.
ghost use Rattle.std.specs.Prelude.{◌≡◌, ◌≤◌, length};
ghost use Rattle.rules.specs.Limits.{limits};
ghost use Rattle.tables.specs.Regions.{node_marks_in, half_marks_in, least_floats, least_numbers, least_stars, least_marks};
ghost use Rattle.cycles.specs.Arranged.{CutOf};
ghost use Rattle.cut_entry.specs.Given.{arranged_in, SliceCuttable};

use cycles::CutDone;
use tables::{
    DEGREES, HALF_MARKS, MAX_HALF_EDGES, NODES_Y, NODES_Z, PlanarGraph, STAR_OFFSETS, TARGETS,
};

// The stars are grouped by node, and the marks of half-edges written where they lie. The marks of
// nodes before them stay.
pub fn cut_region(
    graph: PlanarGraph,
    floats: &[f64],
    numbers: &[u16],
    stars: &[u16],
    marks: &mut [bool],
    out: &mut [u16],
) -> CutDone
    requires limits_in_bounds { (least_floats limits ≤ length floats.now) × (least_numbers limits ≤ length numbers.now) × (least_stars limits ≤ length stars.now) × (least_marks limits ≤ length marks.old) × (graph.edge_count ≤ length out.old) }
    requires slice_cuttable { SliceCuttable limits graph floats.now numbers.now stars.now marks.old }
    ensures cut { CutOf (arranged_in limits graph numbers.now stars.now marks.old) graph (half_marks_in limits marks.old) out.old (half_marks_in limits marks.new) out.new result }
    ensures nodes { node_marks_in limits marks.new ≡ node_marks_in limits marks.old }
{
    let mut offsets = [0u16; STAR_OFFSETS];
    let mut grouped = [0u16; MAX_HALF_EDGES];
    stars::group_stars(
        graph,
        &numbers[0..TARGETS],
        &stars[0..DEGREES],
        &mut offsets,
        &mut grouped,
    );
    cycles::cut_grouped(
        graph,
        &floats[0..NODES_Y],
        &floats[NODES_Y..NODES_Z],
        &offsets,
        &grouped,
        &numbers[0..TARGETS],
        &mut marks[HALF_MARKS..],
        out,
    )
}
