// Pruning over the slices of a sound state.
ghost use Rattle.std.specs.Prelude.{◌≡◌, ◌≤◌, length};
ghost use Rattle.rules.specs.Limits.{limits};
ghost use Rattle.tables.specs.Regions.{star_table_in, degrees_in, node_marks_in, half_marks_in, least_numbers, least_stars, least_marks};
ghost use Rattle.pruning.specs.Left.{Left};
ghost use Rattle.prune_entry.specs.Given.{pruned_in, SlicePrunable};

use crate::rows::copy_marks;
use pruning::PruneDone;
use tables::{DEGREES, HALF_MARKS, MAX_HALF_EDGES, MAX_NODES, PlanarGraph, STAR_OFFSETS, TARGETS};

// The stars are grouped by node, and degrees and half-edges' marks written where they lie. Two parts
// of one slice cannot be lent for writing at once, so the nodes' marks go through a row of their own.
pub fn prune_regions(
    graph: PlanarGraph,
    numbers: &[u16],
    stars: &mut [u16],
    marks: &mut [bool],
    out: &mut [u16],
) -> PruneDone
    requires limits_in_bounds { (least_numbers limits ≤ length numbers.now) × (least_stars limits ≤ length stars.old) × (least_marks limits ≤ length marks.old) × (graph.edge_count ≤ length out.old) }
    requires slice_prunable { SlicePrunable limits graph numbers.now stars.old marks.old }
    ensures pruned { Left graph (pruned_in limits graph numbers.now stars.old marks.old) (degrees_in limits stars.new) (node_marks_in limits marks.new) (half_marks_in limits marks.new) out.old out.new result }
    ensures star { star_table_in limits stars.new ≡ star_table_in limits stars.old }
{
    let mut offsets = [0u16; STAR_OFFSETS];
    let mut grouped = [0u16; MAX_HALF_EDGES];
    let mut nodes_marked = [false; MAX_NODES];
    stars::group_stars(
        graph,
        &numbers[0..TARGETS],
        &stars[0..DEGREES],
        &mut offsets,
        &mut grouped,
    );
    copy_marks(&marks[0..HALF_MARKS], &mut nodes_marked);
    let done = pruning::prune_core(
        graph,
        &offsets,
        &grouped,
        &numbers[0..TARGETS],
        &mut stars[DEGREES..],
        &mut nodes_marked,
        &mut marks[HALF_MARKS..],
        out,
    );
    copy_marks(&nodes_marked, &mut marks[0..HALF_MARKS]);
    done
}
