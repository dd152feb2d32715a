// Sorting over the slices of a sound state.
ghost use Rattle.std.specs.Prelude.{◌≡◌, ◌≤◌, length};
ghost use Rattle.rules.specs.Limits.{limits};
ghost use Rattle.tables.specs.Regions.{xs_in, ys_in, sources_in, targets_in, star_table_in, degrees_in, least_floats, least_numbers, least_stars};
ghost use Rattle.tables.specs.Tables.{at_stage_lem};
ghost use Rattle.stars.specs.Sorted.{Sortable, sorted_table};

use tables::{DEGREES, LIST_PLACES, NODES_Y, NODES_Z, PlanarGraph, TARGETS};

// The star table is sorted where it lies, and the degrees behind it stay.
pub fn sort_region(
    graph: PlanarGraph,
    floats: &[f64],
    numbers: &[u16],
    stars: &mut [u16],
) -> PlanarGraph
    requires limits_in_bounds { (least_floats limits ≤ length floats.now) × (least_numbers limits ≤ length numbers.now) × (least_stars limits ≤ length stars.old) }
    requires sortable { Sortable limits graph.node_count graph.edge_count (xs_in limits floats.now) (ys_in limits floats.now) (sources_in limits numbers.now) (targets_in limits numbers.now) (star_table_in limits stars.old) }
    ensures graph { result ≡ at_stage_lem graph 1 }
    ensures star { star_table_in limits stars.new ≡ sorted_table graph.node_count graph.edge_count (xs_in limits floats.now) (ys_in limits floats.now) (sources_in limits numbers.now) (targets_in limits numbers.now) (star_table_in limits stars.old) }
    ensures degrees { degrees_in limits stars.new ≡ degrees_in limits stars.old }
{
    star_sorting::sort_stars(
        graph,
        &floats[0..NODES_Y],
        &floats[NODES_Y..NODES_Z],
        &numbers[0..TARGETS],
        &numbers[TARGETS..LIST_PLACES],
        &mut stars[0..DEGREES],
    )
}
