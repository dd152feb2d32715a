// The search for an open ring's holder among the candidates: of those that hold it the one with the
// smallest doubled area, then the lower face number.
#![tactic(auto)]

ghost use Rattle.std.specs.Prelude.{◌≡◌, List, ℕ, ◌+◌, ◌*◌, ◌<◌, ◌≤◌, ℤ, length, get_or};
ghost use Rattle.rules.specs.Face.{Ring};
ghost use Rattle.candidates.specs.Candidates.{numbers_of};
ghost use Rattle.candidate_order.specs.Order.{InOrder};
ghost use Rattle.passing.specs.Passing.{Passable};
ghost use Rattle.holding.specs.Maps.{map_of};
ghost use Rattle.holding.specs.Holding.{Corner, Stamps};
ghost use Rattle.holder_search.specs.Search.{first_by, Field, Opening, holds_at_lem, Best};
ghost use Rattle.inside.specs.Spots.{NodesWithin};

use candidate_order::place_for;
use candidates::{doubled_of, in_box};
use holding::ring_holds;
use passing::{next_end, rest_is_larger};
use tables::NodeId;

// Whether candidate j comes before the best so far; there is none yet where best is count.
fn comes_first(
    j: usize,
    best: usize,
    count: usize,
    rings: &[u16],
    numbers: &[i64],
    ring_face: &[u16],
) -> bool
    requires { (j < count) × (best ≤ count) × (count ≤ length rings.now) × (numbers_of * count ≤ length numbers.now) × ((i : ℕ) → i < count → get_or rings.now i 0 < length ring_face.now) }
    ensures { result ≡ first_by rings.now numbers.now ring_face.now count j best }
{
    if best == count {
        return true;
    }
    let mine = doubled_of(numbers, j);
    let other = doubled_of(numbers, best);
    let smaller = mine < other;
    if smaller {
        return true;
    }
    let larger = other < mine;
    if larger {
        return false;
    }
    ring_face[usize::from(rings[j])] < ring_face[usize::from(rings[best])]
}

// Whether candidate j holds the open ring with these nodes. A ring's stamp is its number and one more.
fn candidate_holds(
    j: usize,
    inner: &[u16],
    corner: NodeId,
    count: usize,
    rings: &[u16],
    numbers: &[i64],
    half_edges: &[u16],
    nodes: &[u16],
    ring_first: &[u16],
    ring_length: &[u16],
    ring_face: &[u16],
    dir_edges_src: &[u16],
    xs: &[i64],
    ys: &[i64],
    stamps: &mut [u16],
) -> bool
    requires { (rs : List Ring) × (bound : ℕ) × (slope : ℕ) × Field rs (map_of dir_edges_src.now xs.now ys.now half_edges.now nodes.now ring_first.now ring_length.now ring_face.now) bound slope rings.now numbers.now count × Stamps rs dir_edges_src.now bound stamps.old × NodesWithin inner.now bound × Corner xs.now ys.now inner.now corner.0 × (j < count) }
    ensures held { (rs : List Ring) (bound slope : ℕ) (o : Ring) (x y : ℤ) → Field rs (map_of dir_edges_src.now xs.now ys.now half_edges.now nodes.now ring_first.now ring_length.now ring_face.now) bound slope rings.now numbers.now count → Opening o (map_of dir_edges_src.now xs.now ys.now half_edges.now nodes.now ring_first.now ring_length.now ring_face.now) bound slope inner.now corner.0 x y → result ≡ holds_at_lem rs (map_of dir_edges_src.now xs.now ys.now half_edges.now nodes.now ring_first.now ring_length.now ring_face.now) o rings.now j }
    ensures stamps { (rs : List Ring) (bound slope : ℕ) → Field rs (map_of dir_edges_src.now xs.now ys.now half_edges.now nodes.now ring_first.now ring_length.now ring_face.now) bound slope rings.now numbers.now count → Stamps rs dir_edges_src.now bound stamps.old → Stamps rs dir_edges_src.now bound stamps.new }
{
    let ring = rings[j];
    let i = usize::from(ring);
    let first = usize::from(ring_first[i]);
    let end = first + usize::from(ring_length[i]);
    ring_holds(&nodes[first..end], inner, corner, xs, ys, ring + 1, stamps)
}

// The best with the candidate at a place of the order: it is asked only where it would be the best,
// and where the open ring's corner is not beside its box.
fn improve(
    place: usize,
    best: usize,
    inner: &[u16],
    corner: NodeId,
    x: i64,
    y: i64,
    count: usize,
    rings: &[u16],
    numbers: &[i64],
    order: &[u16],
    half_edges: &[u16],
    nodes: &[u16],
    ring_first: &[u16],
    ring_length: &[u16],
    ring_face: &[u16],
    dir_edges_src: &[u16],
    xs: &[i64],
    ys: &[i64],
    stamps: &mut [u16],
) -> usize
    requires by_index { (rs : List Ring) × (bound : ℕ) × (slope : ℕ) × (o : Ring) × Field rs (map_of dir_edges_src.now xs.now ys.now half_edges.now nodes.now ring_first.now ring_length.now ring_face.now) bound slope rings.now numbers.now count × Opening o (map_of dir_edges_src.now xs.now ys.now half_edges.now nodes.now ring_first.now ring_length.now ring_face.now) bound slope inner.now corner.0 x y × Stamps rs dir_edges_src.now bound stamps.old × (place < count) × (best ≤ count) }
    requires in_order { InOrder numbers.now count order.now }
    ensures best { (rs : List Ring) (bound slope : ℕ) (o : Ring) → Field rs (map_of dir_edges_src.now xs.now ys.now half_edges.now nodes.now ring_first.now ring_length.now ring_face.now) bound slope rings.now numbers.now count → Opening o (map_of dir_edges_src.now xs.now ys.now half_edges.now nodes.now ring_first.now ring_length.now ring_face.now) bound slope inner.now corner.0 x y → Best rs (map_of dir_edges_src.now xs.now ys.now half_edges.now nodes.now ring_first.now ring_length.now ring_face.now) o rings.now order.now count (place + 1) best → Best rs (map_of dir_edges_src.now xs.now ys.now half_edges.now nodes.now ring_first.now ring_length.now ring_face.now) o rings.now order.now count place result }
    ensures stamps { (rs : List Ring) (bound slope : ℕ) → Field rs (map_of dir_edges_src.now xs.now ys.now half_edges.now nodes.now ring_first.now ring_length.now ring_face.now) bound slope rings.now numbers.now count → Stamps rs dir_edges_src.now bound stamps.old → Stamps rs dir_edges_src.now bound stamps.new }
{
    let j = usize::from(order[place]);
    if comes_first(j, best, count, rings, numbers, ring_face) {
        if in_box(numbers, j, x, y) {
            if candidate_holds(
                j,
                inner,
                corner,
                count,
                rings,
                numbers,
                half_edges,
                nodes,
                ring_first,
                ring_length,
                ring_face,
                dir_edges_src,
                xs,
                ys,
                stamps,
            ) {
                return j;
            }
        }
    }
    best
}

// The best of all candidates that hold the open ring, or count. What begins to the right of its corner
// is not met. From there the search goes to the left, since the nearest ring is mostly the holder, and
// ends where all that is left is larger.
pub fn best_holder(
    inner: &[u16],
    corner: NodeId,
    x: i64,
    y: i64,
    count: usize,
    rings: &[u16],
    numbers: &[i64],
    order: &[u16],
    least: &[i64],
    reaches: &[u16],
    half_edges: &[u16],
    nodes: &[u16],
    ring_first: &[u16],
    ring_length: &[u16],
    ring_face: &[u16],
    dir_edges_src: &[u16],
    xs: &[i64],
    ys: &[i64],
    stamps: &mut [u16],
) -> usize
    requires by_index { (rs : List Ring) × (bound : ℕ) × (slope : ℕ) × (o : Ring) × Field rs (map_of dir_edges_src.now xs.now ys.now half_edges.now nodes.now ring_first.now ring_length.now ring_face.now) bound slope rings.now numbers.now count × Opening o (map_of dir_edges_src.now xs.now ys.now half_edges.now nodes.now ring_first.now ring_length.now ring_face.now) bound slope inner.now corner.0 x y × Stamps rs dir_edges_src.now bound stamps.old }
    requires in_order { InOrder numbers.now count order.now × Passable numbers.now order.now count least.now reaches.now }
    ensures best { (rs : List Ring) (bound slope : ℕ) (o : Ring) → Field rs (map_of dir_edges_src.now xs.now ys.now half_edges.now nodes.now ring_first.now ring_length.now ring_face.now) bound slope rings.now numbers.now count → Opening o (map_of dir_edges_src.now xs.now ys.now half_edges.now nodes.now ring_first.now ring_length.now ring_face.now) bound slope inner.now corner.0 x y → Best rs (map_of dir_edges_src.now xs.now ys.now half_edges.now nodes.now ring_first.now ring_length.now ring_face.now) o rings.now order.now count 0 result }
    ensures stamps { (rs : List Ring) (bound slope : ℕ) → Field rs (map_of dir_edges_src.now xs.now ys.now half_edges.now nodes.now ring_first.now ring_length.now ring_face.now) bound slope rings.now numbers.now count → Stamps rs dir_edges_src.now bound stamps.old → Stamps rs dir_edges_src.now bound stamps.new }
{
    let mut best = count;
    let mut end = place_for(numbers, order, count, x);
    while 0 < end {
        let place = end - 1;
        if rest_is_larger(numbers, count, best, least, place) {
            return best;
        }
        best = improve(
            place,
            best,
            inner,
            corner,
            x,
            y,
            count,
            rings,
            numbers,
            order,
            half_edges,
            nodes,
            ring_first,
            ring_length,
            ring_face,
            dir_edges_src,
            xs,
            ys,
            stamps,
        );
        end = next_end(numbers, order, count, reaches, place, x);
    }
    best
}
