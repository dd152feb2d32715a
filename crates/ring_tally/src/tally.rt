// The running tally of a walk around a ring: half-edges passed, and the area so far. The key of each
// half-edge passed is written on the way.
ghost use Rattle.std.specs.Prelude.{◌≡◌, ◌+◌, ◌<◌, length};
ghost use Rattle.ring_tally.specs.Keys.{keys_y, key_put};
ghost use Rattle.ring_tally.specs.Tallies.{taken_at_lem, Takable};

use geometry::canonical_coordinate_bits;
use splitting::index_at;
use tables::{DirEdgeId, MAX_HALF_EDGES, twin_of};

// Keys take two entries each: the bits of x in the first half of a list, those of y in the second.
pub const KEYS_Y: usize = MAX_HALF_EDGES;

pub const KEYS: usize = 2 * MAX_HALF_EDGES;

// The sum is not halved.
#[derive(Clone, Copy)]
pub struct Tally {
    pub count: u16,
    pub sum: f64,
}

impl Tally {
    // One half-edge more, from (x1, y1) to (x2, y2), in the order of the Rust's fold. Its key is the
    // bits of x1 and y1, so that its node is read once for both.
    pub fn take(
        self,
        half: DirEdgeId,
        dir_edges_src: &[u16],
        nodes_x: &[f64],
        nodes_y: &[f64],
        place: usize,
        keys: &mut [u64],
    ) -> Tally
        requires count_bound { self.count < 65535 }
        requires takable { Takable dir_edges_src.now nodes_x.now nodes_y.now half.0 }
        requires place_in_bounds { keys_y + place < length keys.old }
        ensures keys { keys.new ≡ key_put keys_y dir_edges_src.now nodes_x.now nodes_y.now keys.old place half.0 }
        ensures tally { result ≡ taken_at_lem dir_edges_src.now nodes_x.now nodes_y.now self half.0 }
    {
        let a = index_at(dir_edges_src, half);
        let b = index_at(dir_edges_src, twin_of(half));
        let x1 = nodes_x[a];
        let y1 = nodes_y[a];
        let x2 = nodes_x[b];
        let y2 = nodes_y[b];
        keys[place] = canonical_coordinate_bits(x1);
        keys[KEYS_Y + place] = canonical_coordinate_bits(y1);
        Tally {
            count: self.count + 1,
            sum: (self.sum + x1 * y2) - x2 * y1,
        }
    }
}
