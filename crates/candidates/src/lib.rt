// Candidates: the enclosed rings, which may hold an open one, with their boxes and doubled areas
// (document 02, §2).
#![tactic(auto)]

ghost use Rattle.std.specs.Prelude.{List};
ghost use Rattle.rules.specs.Face.{Ring};
ghost use Rattle.corners.specs.Boxes.{Outermost};
ghost use Rattle.candidates.specs.Candidates.{nodes_at, Standing, Writable, Written, Candidates, Listable};

mod boxes;
mod everywhere;

use crate::boxes::{put_numbers, shut_box};
use crate::everywhere::passes_all;
pub use boxes::{
    AREA, BEYOND, CANDIDATE_NUMBERS, HIGH_X, LOW_X, NUMBERS, doubled_of, in_box, low_x_of,
};
use corners::{Sides, sides_of};
use ring_lists::{ENCLOSED, doubled_area};

// The sides of ring i.
pub fn sides_at(
    i: u16,
    nodes: &[u16],
    xs: &[i64],
    ys: &[i64],
    ring_first: &[u16],
    ring_length: &[u16],
) -> Sides
    requires { Standing nodes.now xs.now ys.now ring_first.now ring_length.now i }
    ensures { Outermost xs.now ys.now (nodes_at nodes.now ring_first.now ring_length.now i) result }
{
    let k = usize::from(i);
    let first = usize::from(ring_first[k]);
    let end = first + usize::from(ring_length[k]);
    sides_of(&nodes[first..end], xs, ys)
}

// Writes ring i as candidate n: its number, its box and its doubled area. Where it passes every node
// its box is shut, so that no search meets it.
fn put_candidate(
    i: u16,
    n: usize,
    node_count: usize,
    nodes: &[u16],
    xs: &[i64],
    ys: &[i64],
    ring_first: &[u16],
    ring_length: &[u16],
    ring_area: &[f64],
    rings: &mut [u16],
    numbers: &mut [i64],
)
    requires { Writable nodes.now xs.now ys.now ring_first.now ring_length.now ring_area.now node_count i n rings.old numbers.old }
    ensures { Written nodes.now xs.now ys.now ring_first.now ring_length.now ring_area.now node_count i n rings.old rings.new numbers.old numbers.new }
{
    let sides = sides_at(i, nodes, xs, ys, ring_first, ring_length);
    put_numbers(
        numbers,
        n,
        sides,
        xs,
        ys,
        doubled_area(ring_area[usize::from(i)]),
    );
    rings[n] = i;
    if passes_all(i, node_count, nodes, ring_first, ring_length) {
        shut_box(numbers, n);
    }
}

// Lists the enclosed rings in ring order, and answers how many there are.
pub fn list_enclosed(
    count: u16,
    node_count: usize,
    nodes: &[u16],
    xs: &[i64],
    ys: &[i64],
    ring_first: &[u16],
    ring_length: &[u16],
    ring_side: &[u8],
    ring_area: &[f64],
    rings: &mut [u16],
    numbers: &mut [i64],
) -> usize
    requires { (rs : List Ring) × Listable rs nodes.now xs.now ys.now ring_first.now ring_length.now ring_side.now ring_area.now node_count count rings.old numbers.old }
    ensures { (rs : List Ring) → Listable rs nodes.now xs.now ys.now ring_first.now ring_length.now ring_side.now ring_area.now node_count count rings.old numbers.old
        → Candidates rs nodes.now xs.now ys.now ring_first.now ring_length.now node_count count rings.new numbers.new result }
{
    let mut n = 0;
    for i in 0..count {
        let enclosed = ring_side[usize::from(i)] == ENCLOSED;
        if enclosed {
            put_candidate(
                i,
                n,
                node_count,
                nodes,
                xs,
                ys,
                ring_first,
                ring_length,
                ring_area,
                rings,
                numbers,
            );
            n += 1;
        }
    }
    n
}
