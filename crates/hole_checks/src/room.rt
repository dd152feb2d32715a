// Number 13 of ring extraction: whether a hole list has room for every open ring.
ghost use Rattle.std.specs.Prelude.{◌≡◌, true, List, ℕ, ◌≤◌, leb, length};
ghost use Rattle.rules.specs.Limits.{limits};
ghost use Rattle.rules.specs.State.{sound};
ghost use Rattle.rules.specs.Extraction.{holes_in};
ghost use Rattle.tables.specs.Regions.{state_in, least_floats, least_numbers, least_stars, least_marks};
ghost use Rattle.ring_entry.specs.Given.{SliceSound};
ghost use Rattle.hole_checks.specs.Open.{open_among};

use ring_entry::sides_of_regions;
use ring_lists::OPEN;
use tables::{MAX_EDGES, PlanarGraph};

// How many of the first rings are open.
fn open_rings(ring_side: &[u8], count: usize) -> usize
    requires { count ≤ length ring_side.now }
    ensures { result ≡ length (open_among ring_side.now count) }
{
    let mut total = 0;
    for i in 0..count {
        let open = ring_side[i] == OPEN;
        if open {
            total += 1;
        }
    }
    total
}

// Number 13: a hole list of `room` records has one for each open ring. There are never more of these
// than edges; for a shorter list the rings are listed into tables of their own and the open ones counted,
// so that nothing lent is written before the test.
pub fn holes_fit(
    room: usize,
    graph: PlanarGraph,
    floats: &[f64],
    numbers: &[u16],
    stars: &[u16],
    marks: &[bool],
) -> bool
    requires limits_in_bounds { (least_floats limits ≤ length floats.now) × (least_numbers limits ≤ length numbers.now) × (least_stars limits ≤ length stars.now) × (least_marks limits ≤ length marks.now) }
    requires slice_sound { SliceSound limits graph floats.now numbers.now stars.now marks.now }
    ensures { (ids : List ℕ) → let s = state_in limits graph floats.now numbers.now stars.now marks.now ids in sound limits s ≡ true → result ≡ leb (length (holes_in s)) room }
{
    if usize::from(graph.edge_count) <= room {
        return true;
    }
    let mut ring_side = [0u8; MAX_EDGES];
    let count = sides_of_regions(graph, floats, numbers, stars, marks, &mut ring_side);
    open_rings(&ring_side, usize::from(count)) <= room
}
