// Face numbers.
ghost use Rattle.std.specs.Prelude.{◌≡◌, List, map, ℕ, ◌≤◌, length, take, Float};
ghost use Rattle.lists.specs.Lists.{upto, over};
ghost use Rattle.rules.specs.Limits.{limits};
ghost use Rattle.faces.specs.Numbers.{index_of, Once, rings_at, face_numbers, comparisons_at, Numberable, Nameable};

use crate::order::sort_rings;
use ring_keys::write_turns;
use tables::MAX_HALF_EDGES;

// Each ring's number is its place in the order.
fn write_places(order: &[u16], count: usize, faces: &mut [u16])
    requires { (count ≤ 65536) × (count ≤ length order.now) × (count ≤ length faces.old) × Once count (take count order.now) }
    ensures { faces.new ≡ over (map (λ i. index_of i (take count order.now)) (upto count)) faces.old }
{
    for p in 0..count {
        let ring = usize::from(order[p]);
        faces[ring] = p as u16;
    }
}

// The face number of each ring, by rings as they stand in lists: half_edges and their keys ring by
// ring, and for each ring its first place there, its length and its area. The answer is how many
// comparisons the searches for the least rotations made.
pub fn number_faces(
    half_edges: &[u16],
    xs: &[u64],
    ys: &[u64],
    firsts: &[u16],
    lengths: &[u16],
    count: usize,
    areas: &[f64],
    faces: &mut [u16],
) -> usize
    requires { Nameable limits half_edges.now xs.now ys.now firsts.now lengths.now count areas.now × (count ≤ length faces.old) }
    ensures faces { (source : List ℕ) (X Y : List Float) → Numberable limits half_edges.now xs.now ys.now firsts.now lengths.now count source X Y areas.now
        → faces.new ≡ over (face_numbers (rings_at half_edges.now firsts.now lengths.now count source X Y)) faces.old }
    ensures made { (source : List ℕ) (X Y : List Float) → Numberable limits half_edges.now xs.now ys.now firsts.now lengths.now count source X Y areas.now
        → result ≡ comparisons_at half_edges.now firsts.now lengths.now count source X Y }
{
    let mut turns = [0u16; MAX_HALF_EDGES];
    let made = write_turns(xs, ys, firsts, lengths, count, &mut turns);
    let mut order = [0u16; MAX_HALF_EDGES];
    sort_rings(
        half_edges, xs, ys, firsts, lengths, &turns, areas, count, &mut order,
    );
    write_places(&order, count, faces);
    made
}
