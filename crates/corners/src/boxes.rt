// The box of a ring, by the nodes at its four sides.
ghost use Rattle.std.specs.Prelude.{◌<◌, length};
ghost use Rattle.corners.specs.Nodes.{FirstOf};
ghost use Rattle.corners.specs.Boxes.{lower, higher, SidesWithin, Widened, Outermost};
ghost use Rattle.inside.specs.Spots.{NodesWithin};

use crate::nodes::left_of;

// The node of least x, then least y, and nodes of greatest x, least y and greatest y.
#[derive(Clone, Copy)]
pub struct Sides {
    pub left: u16,
    pub right: u16,
    pub low: u16,
    pub high: u16,
}

// Of two nodes the one with the lesser entry.
fn lesser(table: &[i64], a: u16, b: u16) -> u16
    requires { (a < length table.now) × (b < length table.now) }
    ensures { FirstOf (lower table.now) a b result }
{
    if table[usize::from(b)] < table[usize::from(a)] {
        return b;
    }
    a
}

// And the one with the greater entry.
fn greater(table: &[i64], a: u16, b: u16) -> u16
    requires { (a < length table.now) × (b < length table.now) }
    ensures { FirstOf (higher table.now) a b result }
{
    if table[usize::from(a)] < table[usize::from(b)] {
        return b;
    }
    a
}

// The sides with one node more.
fn widen(sides: Sides, node: u16, xs: &[i64], ys: &[i64]) -> Sides
    requires { SidesWithin sides (length xs.now) (length ys.now) × (node < length xs.now) × (node < length ys.now) }
    ensures { Widened xs.now ys.now sides node result }
{
    Sides {
        left: left_of(xs, ys, sides.left, node),
        right: greater(xs, sides.right, node),
        low: lesser(ys, sides.low, node),
        high: greater(ys, sides.high, node),
    }
}

// The sides of a ring, which has a node.
pub fn sides_of(nodes: &[u16], xs: &[i64], ys: &[i64]) -> Sides
    requires { (0 < length nodes.now) × NodesWithin nodes.now (length xs.now) × NodesWithin nodes.now (length ys.now) }
    ensures { Outermost xs.now ys.now nodes.now result }
{
    let first = nodes[0];
    let mut sides = Sides {
        left: first,
        right: first,
        low: first,
        high: first,
    };
    for k in 1..nodes.len() {
        sides = widen(sides, nodes[k], xs, ys);
    }
    sides
}
