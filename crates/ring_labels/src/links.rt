// Links: the active half-edge before each one in its star, cyclically.
ghost use Rattle.std.specs.Prelude.{◌≡◌, ℕ, ◌*◌, ◌<◌, ◌≤◌, length};
ghost use Rattle.lists.specs.Lists.{In, pick, last_of};
ghost use Rattle.rules.specs.HalfEdge.{twin};
ghost use Rattle.stars.specs.Groups.{unmarked, part, PartWithin, GroupsWithin};
ghost use Rattle.ring_labels.specs.Links.{link_star_lem, Linked};

use stars::is_active;
use tables::{DirEdgeId, PlanarGraph, twin_of};

// The last active half-edge of a star, or 0 where there is none. Sought from the star's end, where it
// mostly stands.
fn last_active(grouped: &[u16], from: usize, to: usize, dir_edges_marked: &[bool]) -> DirEdgeId
    requires { PartWithin (length dir_edges_marked.now) from to grouped.now }
    ensures { result.0 ≡ last_of 0 (pick (unmarked dir_edges_marked.now) (part from to grouped.now)) }
{
    for i in (from..to).rev() {
        let half = DirEdgeId(grouped[i]);
        if is_active(dir_edges_marked, half) {
            return half;
        }
    }
    DirEdgeId(0)
}

// The twin of each half-edge of a star is followed by the active one before it. A marked one's entry is
// never read; it is written too, so that the loop does not branch on marks, which come in no order.
fn link_star(grouped: &[u16], from: usize, to: usize, dir_edges_marked: &[bool], next: &mut [u16])
    requires { (PartWithin (length dir_edges_marked.now) from to grouped.now) × ((h : ℕ) → In h (part from to grouped.now) → twin h < length next.old) }
    ensures { next.new ≡ link_star_lem (unmarked dir_edges_marked.now) (part from to grouped.now) next.old }
{
    let mut previous = last_active(grouped, from, to, dir_edges_marked);
    for i in from..to {
        let half = DirEdgeId(grouped[i]);
        next[usize::from(twin_of(half).0)] = previous.0;
        if is_active(dir_edges_marked, half) {
            previous = half;
        }
    }
}

// The successor of every active half-edge, star by star.
pub fn link_successors(
    graph: PlanarGraph,
    offsets: &[u16],
    grouped: &[u16],
    dir_edges_marked: &[bool],
    next: &mut [u16],
)
    requires { (GroupsWithin graph.node_count (2 * graph.edge_count) offsets.now grouped.now) × (2 * graph.edge_count ≤ length dir_edges_marked.now) × (2 * graph.edge_count ≤ length next.old) }
    ensures { Linked graph.node_count graph.edge_count dir_edges_marked.now offsets.now grouped.now next.new }
{
    let nodes = usize::from(graph.node_count);
    for n in 0..nodes {
        link_star(
            grouped,
            usize::from(offsets[n]),
            usize::from(offsets[n + 1]),
            dir_edges_marked,
            next,
        );
    }
}
