// Nodes of rings: which of them a ring has, and the test point of an open ring.
ghost use Rattle.std.specs.Prelude.{◌≡◌, List, [], ◌∷◌, ◌++◌, ℕ, ◌<◌, ◌≤◌, length};
ghost use Rattle.rules.specs.Holes.{left_of};
ghost use Rattle.inside.specs.Spots.{spot_in, NodesWithin};
ghost use Rattle.std.specs.declared.option.Option.TheVariants.{Some};
ghost use Rattle.corners.specs.Nodes.{FirstOf, Stamped, Leftmost, TestPoint};

// Notes at each node of a ring that it is one of the ring's.
pub fn stamp_nodes(nodes: &[u16], stamp: u16, stamps: &mut [u16])
    requires { NodesWithin nodes.now (length stamps.old) }
    ensures { Stamped nodes.now stamp stamps.old stamps.new }
{
    for &node in nodes {
        stamps[usize::from(node)] = stamp;
    }
}

// Whether node m lies to the left of node n: by least x, then least y.
pub fn is_left(xs: &[i64], ys: &[i64], m: u16, n: u16) -> bool
    requires { (m < length xs.now) × (m < length ys.now) × (n < length xs.now) × (n < length ys.now) }
    ensures { result ≡ left_of (spot_in xs.now ys.now) m n }
{
    let i = usize::from(m);
    let j = usize::from(n);
    xs[i].cmp(&xs[j]).then(ys[i].cmp(&ys[j])).is_lt()
}

// Of two nodes the one to the left, by x, then by y.
pub fn left_of(xs: &[i64], ys: &[i64], a: u16, b: u16) -> u16
    requires { (a < length xs.now) × (a < length ys.now) × (b < length xs.now) × (b < length ys.now) }
    ensures { FirstOf (left_of (spot_in xs.now ys.now)) a b result }
{
    if is_left(xs, ys, b, a) {
        return b;
    }
    a
}

// The leftmost of nodes that have one more, where `point` is that of those before.
fn leftmost(xs: &[i64], ys: &[i64], point: Option<u16>, node: u16) -> u16
    requires { (node < length xs.now) × (node < length ys.now) × ((n : ℕ) → point ≡ Some n → (n < length xs.now) × (n < length ys.now)) }
    ensures { (nodes : List ℕ) → Leftmost (spot_in xs.now ys.now) nodes point → Leftmost (spot_in xs.now ys.now) (nodes ++ (node ∷ [])) (Some result) }
{
    match point {
        None => node,
        Some(first) => left_of(xs, ys, first, node),
    }
}

// The node of least x, then least y, among those without the stamp; None where each has it.
pub fn test_point(nodes: &[u16], xs: &[i64], ys: &[i64], stamp: u16, stamps: &[u16]) -> Option<u16>
    requires { NodesWithin nodes.now (length stamps.now) × NodesWithin nodes.now (length xs.now) × NodesWithin nodes.now (length ys.now) }
    ensures { TestPoint (spot_in xs.now ys.now) nodes.now stamp stamps.now result }
{
    let mut point = None;
    for &node in nodes {
        if stamps[usize::from(node)] != stamp {
            point = Some(leftmost(xs, ys, point, node));
        }
    }
    point
}
