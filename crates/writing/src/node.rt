// Writing a new node: an entry in each region that nodes have.
ghost use Rattle.std.specs.Prelude.{◌≡◌, List, ℕ};
ghost use Rattle.rules.specs.Adding.{with_node};
ghost use Rattle.rules.specs.Limits.{limits};
ghost use Rattle.tables.specs.Regions.{state_in};
ghost use Rattle.tables.specs.declared.PlanarGraph.{PlanarGraph};
ghost use Rattle.table_entries.specs.Written.{node_counted, NodeRoom};

use geometry::Coord3D;
use tables::{DEGREES, NODES_Y, NODES_Z, NodeId};

// The next node, made from a point where it is new. z is moved as it is.
pub fn add_node(
    is_new: bool,
    node: NodeId,
    point: Coord3D,
    floats: &mut [f64],
    stars: &mut [u16],
    marks: &mut [bool],
)
    requires { NodeRoom limits node.0 floats.old stars.old marks.old }
    ensures { (graph : PlanarGraph) (numbers ids : List ℕ) →
        state_in limits (node_counted is_new node.0 graph) floats.new numbers stars.new marks.new ids
        ≡ with_node is_new node.0 point (state_in limits graph floats.old numbers stars.old marks.old ids) }
{
    if is_new {
        let n = usize::from(node.0);
        floats[n] = point.x;
        floats[NODES_Y + n] = point.y;
        floats[NODES_Z + n] = point.z;
        stars[DEGREES + n] = 0;
        marks[n] = false;
    }
}
