// The rings: walks along the successors, from the lowest half-edge of each. One walk around a ring
// lists it, writes its keys and carries its tally, so that its length, its side and its area are
// known where it ends and its node is read once for each half-edge.
ghost use Rattle.std.specs.Prelude.{◌≡◌, Bool, ℕ, ◌+◌, ◌*◌};
ghost use Rattle.rules.specs.Limits.{limits};
ghost use Rattle.rules.specs.Sane.{Live, Permutes};
ghost use Rattle.splitting.specs.Splits.{entry_of};
ghost use Rattle.lists.specs.Lists.{flatten};
ghost use Rattle.ring_tally.specs.Keys.{keys_y, Keyed};
ghost use Rattle.rings.specs.Listing.{table_rings, rows_of, row_put, RowsRoom, Walkable, WalkedRing, Unseen, Listable, Listed};

use ring_tally::{Tally, side_area, side_number, side_of};
use stars::is_active;
use tables::{DirEdgeId, MAX_HALF_EDGES};

// Lists the ring of `start` and its keys from place `at` on and marks it as seen; returns its tally.
fn walk_ring(
    start: DirEdgeId,
    next: &[u16],
    dir_edges_src: &[u16],
    nodes_x: &[f64],
    nodes_y: &[f64],
    seen: &mut [bool],
    half_edges: &mut [u16],
    keys: &mut [u64],
    at: u16,
) -> Tally
    requires { Walkable next.now dir_edges_src.now nodes_x.now nodes_y.now seen.old half_edges.old keys.old start.0 at }
    ensures { (n : ℕ) (active : ℕ → Bool) → Permutes (entry_of next.now) n active → Live n active start.0
        → WalkedRing (entry_of next.now) n start.0 at dir_edges_src.now nodes_x.now nodes_y.now seen.old half_edges.old keys.old seen.new half_edges.new keys.new result }
{
    let mut tally = Tally { count: 0, sum: 0.0 };
    let mut cur = start.0;
    loop {
        seen[usize::from(cur)] = true;
        let place = usize::from(at + tally.count);
        half_edges[place] = cur;
        tally = tally.take(DirEdgeId(cur), dir_edges_src, nodes_x, nodes_y, place, keys);
        cur = next[usize::from(cur)];
        if cur == start.0 {
            break;
        }
    }
    tally
}

// Writes the row of ring i: its first place, its length, its side and its area, half the sum.
fn write_row(
    i: u16,
    first: u16,
    tally: Tally,
    ring_first: &mut [u16],
    ring_length: &mut [u16],
    ring_side: &mut [u8],
    ring_area: &mut [f64],
)
    requires { RowsRoom (i + 1) (rows_of ring_first.old ring_length.old ring_side.old ring_area.old) }
    ensures { rows_of ring_first.new ring_length.new ring_side.new ring_area.new ≡ row_put i first tally (rows_of ring_first.old ring_length.old ring_side.old ring_area.old) }
{
    let ring = usize::from(i);
    let side = side_of(tally.sum * 0.5);
    ring_first[ring] = first;
    ring_length[ring] = tally.count;
    ring_side[ring] = side_number(side);
    ring_area[ring] = side_area(side);
}

// Lists the rings by lowest half-edge, each beginning with it, with their keys; returns how many
// there are.
fn walk_unseen(
    edges: u16,
    next: &[u16],
    dir_edges_src: &[u16],
    dir_edges_marked: &[bool],
    nodes_x: &[f64],
    nodes_y: &[f64],
    seen: &mut [bool],
    half_edges: &mut [u16],
    keys: &mut [u64],
    ring_first: &mut [u16],
    ring_length: &mut [u16],
    ring_side: &mut [u8],
    ring_area: &mut [f64],
) -> u16
    requires listable { Listable limits edges next.now dir_edges_src.now dir_edges_marked.now nodes_x.now nodes_y.now half_edges.old keys.old (rows_of ring_first.old ring_length.old ring_side.old ring_area.old) }
    requires unseen { Unseen (2 * edges) seen.old }
    ensures rings { Listed (table_rings edges next.now dir_edges_marked.now) dir_edges_src.now nodes_x.now nodes_y.now half_edges.old (rows_of ring_first.old ring_length.old ring_side.old ring_area.old)
        half_edges.new (rows_of ring_first.new ring_length.new ring_side.new ring_area.new) result }
    ensures keys { Keyed keys_y (flatten (table_rings edges next.now dir_edges_marked.now)) dir_edges_src.now nodes_x.now nodes_y.now keys.old keys.new }
{
    let mut count: u16 = 0;
    let mut at: u16 = 0;
    for k in 0..2 * edges {
        let fresh = is_active(dir_edges_marked, DirEdgeId(k)) & !seen[usize::from(k)];
        if fresh {
            let start = DirEdgeId(k);
            let tally = walk_ring(
                start,
                next,
                dir_edges_src,
                nodes_x,
                nodes_y,
                seen,
                half_edges,
                keys,
                at,
            );
            write_row(
                count,
                at,
                tally,
                ring_first,
                ring_length,
                ring_side,
                ring_area,
            );
            count += 1;
            at += tally.count;
        }
    }
    count
}

// The same, with nothing seen at first.
pub fn walk_rings(
    edges: u16,
    next: &[u16],
    dir_edges_src: &[u16],
    dir_edges_marked: &[bool],
    nodes_x: &[f64],
    nodes_y: &[f64],
    half_edges: &mut [u16],
    keys: &mut [u64],
    ring_first: &mut [u16],
    ring_length: &mut [u16],
    ring_side: &mut [u8],
    ring_area: &mut [f64],
) -> u16
    requires { Listable limits edges next.now dir_edges_src.now dir_edges_marked.now nodes_x.now nodes_y.now half_edges.old keys.old (rows_of ring_first.old ring_length.old ring_side.old ring_area.old) }
    ensures rings { Listed (table_rings edges next.now dir_edges_marked.now) dir_edges_src.now nodes_x.now nodes_y.now half_edges.old (rows_of ring_first.old ring_length.old ring_side.old ring_area.old)
        half_edges.new (rows_of ring_first.new ring_length.new ring_side.new ring_area.new) result }
    ensures keys { Keyed keys_y (flatten (table_rings edges next.now dir_edges_marked.now)) dir_edges_src.now nodes_x.now nodes_y.now keys.old keys.new }
{
    let mut seen = [false; MAX_HALF_EDGES];
    walk_unseen(
        edges,
        next,
        dir_edges_src,
        dir_edges_marked,
        nodes_x,
        nodes_y,
        &mut seen,
        half_edges,
        keys,
        ring_first,
        ring_length,
        ring_side,
        ring_area,
    )
}
