// The keys of rings. The key of entry k of half_edges is (xs[k], ys[k]), so that a ring's keys stand
// in a row. They are compared where they stand and never copied.
#![tactic(auto)]

ghost use Rattle.std.specs.Prelude.{◌≡◌, map, ℕ, ◌+◌, ◌<◌, ◌≤◌, ◌%◌, ◌^◌, length, get_or};
ghost use Rattle.lists.specs.Lists.{upto, over, sum};
ghost use Rattle.rotation.specs.Rotation.{key_at, keys_of};
ghost use Rattle.rotation.specs.Steps.{key_order};
ghost use Rattle.ring_keys.specs.Listed.{part_of};
ghost use Rattle.ring_keys.specs.Keys.{search_of, turn_of, steps_of, turned_keys, Turns, keys_order};

use rotation::Rotation;
use std::cmp::Ordering;

// A ring's keys in the lists: where they begin, how many there are, and at which of them the least
// rotation starts.
#[derive(Clone, Copy)]
pub struct Turned {
    pub first: usize,
    pub size: usize,
    pub turn: usize,
}

// Where the least rotation of a ring's keys starts, and how many comparisons finding it took.
#[derive(Clone, Copy)]
pub struct Search {
    pub turn: u16,
    pub comparisons: usize,
}

// The search for one ring. The two parts are of one length, so that none is refused.
fn turn_of(xs: &[u64], ys: &[u64], first: usize, size: usize) -> Search
    requires { (0 < size) × (size < 65536) × (first + size ≤ length (keys_of xs.now ys.now)) }
    ensures { result ≡ search_of (part_of first size (keys_of xs.now ys.now)) }
{
    let end = first + size;
    match rotation::minimum_rotation_index(&xs[first..end], &ys[first..end]) {
        Ok(Rotation { start, comparisons }) => {
            let turn = start as u16;
            Search { turn, comparisons }
        }
        Err(_) => Search {
            turn: 0,
            comparisons: 0,
        },
    }
}

// The turn of each ring; the answer is how many comparisons all the searches made.
pub fn write_turns(
    xs: &[u64],
    ys: &[u64],
    firsts: &[u16],
    lengths: &[u16],
    count: usize,
    turns: &mut [u16],
) -> usize
    requires count_bound { (count ≤ 65536) × (count ≤ length firsts.now) × (count ≤ length lengths.now) × (count ≤ length turns.old) }
    requires by_index { (i : ℕ) → i < count → (0 < get_or lengths.now i 0) × (get_or firsts.now i 0 + get_or lengths.now i 0 ≤ length (keys_of xs.now ys.now)) }
    ensures turns { turns.new ≡ over (map (turn_of (keys_of xs.now ys.now) firsts.now lengths.now) (upto count)) turns.old }
    ensures made { result ≡ sum (map (steps_of (keys_of xs.now ys.now) firsts.now lengths.now) (upto count)) }
{
    let mut made = 0;
    for i in 0..count {
        let first = usize::from(firsts[i]);
        let size = usize::from(lengths[i]);
        let found = turn_of(xs, ys, first, size);
        turns[i] = found.turn;
        made += found.comparisons;
    }
    made
}

// The place of a ring's entry k, counted from where its least rotation starts.
fn place(ring: Turned, k: usize) -> usize
    requires { (ring.first + ring.size < 2 ^ 64) × (ring.turn < ring.size) × (k < ring.size) }
    ensures { result ≡ ring.first + (ring.turn + k) % ring.size }
{
    let rest = ring.size - ring.turn;
    if k < rest {
        return ring.first + (ring.turn + k);
    }
    ring.first + (k - rest)
}

// The keys at two places, by x, then y, as unsigned numbers.
fn compare_at(xs: &[u64], ys: &[u64], p: usize, q: usize) -> Ordering
    requires { (p < length (keys_of xs.now ys.now)) × (q < length (keys_of xs.now ys.now)) }
    ensures { result ≡ key_order (key_at (keys_of xs.now ys.now) p) (key_at (keys_of xs.now ys.now) q) }
{
    xs[p].cmp(&xs[q]).then(ys[p].cmp(&ys[q]))
}

// By the first entry that differs; a prefix comes first.
pub fn compare_keys(xs: &[u64], ys: &[u64], a: Turned, b: Turned) -> Ordering
    requires { Turns (keys_of xs.now ys.now) a × Turns (keys_of xs.now ys.now) b }
    ensures { result ≡ keys_order (turned_keys (keys_of xs.now ys.now) a) (turned_keys (keys_of xs.now ys.now) b) }
{
    let shared = a.size.min(b.size);
    for k in 0..shared {
        let order = compare_at(xs, ys, place(a, k), place(b, k));
        if order.is_ne() {
            return order;
        }
    }
    a.size.cmp(&b.size)
}
