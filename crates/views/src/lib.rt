// The views in which rings are boxed. As the map is, most rings have boxes narrow enough; thin rings
// along a diagonal have narrow ones in a slanted view alone, where a point's place to the right is
// x + y or x - y.
#![tactic(auto)]

ghost use Rattle.std.specs.Prelude.{◌≡◌, ℕ, ◌<◌, ◌≤◌, length, get_or};
ghost use Rattle.geometry.specs.Coordinate.{coordinate_bound};
ghost use Rattle.inside.specs.Spots.{spot, Near, Spotted};
ghost use Rattle.holding.specs.Maps.{Starting};
ghost use Rattle.views.specs.Views.{along_of_lem, Slanted};

// The views by number: as it is, and slanted one way and the other. They are numbers and no enum, since
// `list_holes` answers for every number, as its clauses say.
pub const PLAIN: u8 = 0;

const RISING: u8 = 1;

const FALLING: u8 = 2;

// How many lines the choice of a view passes over from one to the next: some tell enough of all.
const EVERY: usize = 8;

// How far to the right a point lies in a view.
pub fn along_of(slope: u8, x: i64, y: i64) -> i64
    requires { Near coordinate_bound (spot x y) }
    ensures { result ≡ along_of_lem slope x y }
{
    if slope == PLAIN {
        return x;
    }
    if slope == RISING {
        return x + y;
    }
    x - y
}

// The same of the first so many nodes.
pub fn write_along(slope: u8, xs: &[i64], ys: &[i64], count: usize, along: &mut [i64])
    requires { Spotted coordinate_bound count xs.now ys.now × (count ≤ length along.old) }
    ensures { Slanted slope xs.now ys.now count along.new }
{
    for n in 0..count {
        along[n] = along_of(slope, xs[n], ys[n]);
    }
}

// The node where half-edge k of a list starts.
fn node_of(half_edges: &[u16], dir_edges_src: &[u16], k: usize) -> usize
    requires { (k < length half_edges.now) × (get_or half_edges.now k 0 < length dir_edges_src.now) }
    ensures { result ≡ get_or dir_edges_src.now (get_or half_edges.now k 0) 0 }
{
    let half = usize::from(half_edges[k]);
    usize::from(dir_edges_src[half])
}

// The view in which the way along the rings goes least to the sides. Any view gives the same holders;
// this one makes boxes narrow, so that a search meets few of them.
pub fn choose_slope(
    half_edges: &[u16],
    dir_edges_src: &[u16],
    nodes_x: &[f64],
    nodes_y: &[f64],
) -> u8
    requires { (count : ℕ) × (count ≤ length nodes_x.now) × (count ≤ length nodes_y.now) × Starting half_edges.now dir_edges_src.now count }
{
    let mut plain = 0.0;
    let mut rising = 0.0;
    let mut falling = 0.0;
    for k in (1..half_edges.len()).step_by(EVERY) {
        let a = node_of(half_edges, dir_edges_src, k - 1);
        let b = node_of(half_edges, dir_edges_src, k);
        let dx = nodes_x[b] - nodes_x[a];
        let dy = nodes_y[b] - nodes_y[a];
        plain += dx.abs();
        rising += (dx + dy).abs();
        falling += (dx - dy).abs();
    }
    if rising < plain {
        return RISING;
    }
    if falling < plain {
        return FALLING;
    }
    PLAIN
}
