// Writing a new edge: an entry in each region that edges and half-edges have, the degrees of its ends,
// and the one pair of its list of line ids.
ghost use Rattle.std.specs.Prelude.{◌≡◌};
ghost use Rattle.rules.specs.Adding.{with_edge};
ghost use Rattle.rules.specs.Limits.{limits};
ghost use Rattle.tables.specs.Regions.{state_in};
ghost use Rattle.tables.specs.declared.PlanarGraph.{PlanarGraph};
ghost use Rattle.table_entries.specs.Written.{edge_counted, EdgeRoom};

use geometry::Line3D;
use pair_entries::{put_first, put_lowest};
use table_entries::{put_ends, put_last, put_segment, unmark};
use tables::{EdgeId, LIST_END, NodeId};

// The next edge, from u to v, its line id a pair at a place that is free.
pub fn add_edge(
    edge: EdgeId,
    u: NodeId,
    v: NodeId,
    place: u16,
    line: Line3D,
    floats: &mut [f64],
    numbers: &mut [u16],
    stars: &mut [u16],
    marks: &mut [bool],
    ids: &mut [u32],
)
    requires { EdgeRoom limits edge.0 u.0 v.0 place floats.old numbers.old stars.old marks.old ids.old }
    ensures { (graph : PlanarGraph) → graph.edge_count ≡ edge.0 →
        state_in limits (edge_counted graph) floats.new numbers.new stars.new marks.new ids.new
        ≡ with_edge u.0 v.0 place line (state_in limits graph floats.old numbers.old stars.old marks.old ids.old) }
{
    put_segment(edge, line, floats);
    put_ends(edge, u, v, numbers);
    put_first(edge, place, LIST_END, numbers);
    put_last(edge, u, v, stars);
    unmark(edge, marks);
    put_lowest(edge, place, line.line_id, ids);
}
