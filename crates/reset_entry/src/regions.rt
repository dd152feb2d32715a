// Resetting over the slices of a sound state.
ghost use Rattle.std.specs.Prelude.{◌≡◌, false, map, ◌*◌, ◌≤◌, length, replicate};
ghost use Rattle.lists.specs.Lists.{upto, over};
ghost use Rattle.rules.specs.Limits.{limits};
ghost use Rattle.tables.specs.Tables.{at_stage_lem};
ghost use Rattle.table_tests.specs.Tests.{starts_at};
ghost use Rattle.table_tests.specs.Given.{Resettable};
ghost use Rattle.tables.specs.Regions.{sources_in, star_table_in, degrees_in, node_marks_in, half_marks_in, least_numbers, least_stars, least_marks};

use tables::{DEGREES, HALF_MARKS, PlanarGraph, TARGETS};

// The three tables that resetting writes are each lent as a part. Counts and stars stay.
pub fn reset_regions(
    graph: PlanarGraph,
    numbers: &[u16],
    stars: &mut [u16],
    marks: &mut [bool],
) -> PlanarGraph
    requires limits_in_bounds { (least_numbers limits ≤ length numbers.now) × (least_stars limits ≤ length stars.old) × (least_marks limits ≤ length marks.old) }
    requires resettable { Resettable limits graph.node_count graph.edge_count (sources_in limits numbers.now) (degrees_in limits stars.old) (node_marks_in limits marks.old) (half_marks_in limits marks.old) }
    ensures graph { result ≡ at_stage_lem graph 0 }
    ensures star { star_table_in limits stars.new ≡ star_table_in limits stars.old }
    ensures degrees { degrees_in limits stars.new ≡ over (map (starts_at (sources_in limits numbers.now) (2 * graph.edge_count)) (upto graph.node_count)) (degrees_in limits stars.old) }
    ensures nodes { node_marks_in limits marks.new ≡ over (replicate graph.node_count false) (node_marks_in limits marks.old) }
    ensures halves { half_marks_in limits marks.new ≡ over (replicate (2 * graph.edge_count) false) (half_marks_in limits marks.old) }
{
    let nodes = usize::from(graph.node_count);
    let halves = 2 * usize::from(graph.edge_count);
    let counts = table_tests::count_starts(halves, &numbers[0..TARGETS]);
    table_tests::write_degrees(nodes, &counts, &mut stars[DEGREES..]);
    table_tests::clear_marks(nodes, &mut marks[0..HALF_MARKS]);
    table_tests::clear_marks(halves, &mut marks[HALF_MARKS..]);
    graph.at_stage(0)
}
