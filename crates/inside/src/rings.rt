// A ring and a point.
ghost use Rattle.std.specs.Prelude.{◌≡◌, ℕ, ◌<◌, false, length};
ghost use Rattle.lists.specs.Lists.{last_of};
ghost use Rattle.geometry.specs.Coordinate.{coordinate_bound};
ghost use Rattle.inside.specs.Spots.{spot, spot_in, Near, Spotted, NodesWithin};
ghost use Rattle.inside.specs.Meeting.{meets_of};
ghost use Rattle.inside.specs.Standing.{stands_from};

use super::lines::{Meets, line_meets};
use tables::NodeId;

// Strictly inside by the even-odd rule, outside, or on one of the ring's lines.
#[derive(Clone, Copy)]
pub enum Stands {
    Inside,
    Outside,
    OnRing,
}

// How the line between two nodes stands to the point.
fn nodes_meet(from: NodeId, to: NodeId, xs: &[i64], ys: &[i64], px: i64, py: i64) -> Meets
    requires { (nodes : ℕ) × (from.0 < nodes) × (to.0 < nodes) × Spotted coordinate_bound nodes xs.now ys.now × Near coordinate_bound (spot px py) }
    ensures { result ≡ meets_of (spot_in xs.now ys.now from.0) (spot_in xs.now ys.now to.0) (spot px py) }
{
    let a = usize::from(from.0);
    let b = usize::from(to.0);
    line_meets(xs[a], ys[a], xs[b], ys[b], px, py)
}

// How the point stands to the ring with these nodes, which has one: each line goes from a node to the
// next, and the first of them from the last node. An odd number of them cross to the right of a point
// that is inside.
pub fn ring_stands(nodes: &[u16], xs: &[i64], ys: &[i64], px: i64, py: i64) -> Stands
    requires { (count : ℕ) × (0 < length nodes.now) × NodesWithin nodes.now count × Spotted coordinate_bound count xs.now ys.now × Near coordinate_bound (spot px py) }
    ensures { result ≡ stands_from (spot_in xs.now ys.now) (spot px py) false (last_of 0 nodes.now) nodes.now }
{
    let mut from = nodes[nodes.len() - 1];
    let mut odd = false;
    for &to in nodes {
        match nodes_meet(NodeId(from), NodeId(to), xs, ys, px, py) {
            Meets::OnLine => return Stands::OnRing,
            Meets::Right => odd = !odd,
            Meets::Apart => {}
        }
        from = to;
    }
    if odd { Stands::Inside } else { Stands::Outside }
}
