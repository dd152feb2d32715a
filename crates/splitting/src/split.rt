// Splitting the maximal rings at the nodes that they pass more than once.
//
// The Rust scans a star once for each label that starts there more than once: an incoming half-edge
// is noted, and the next outgoing one of the label becomes its successor; one left over gets the
// first. So the successor of the incoming half-edge at a place is the first outgoing one of its label
// at that place or later, cyclically. Here the star is gone through twice from its last place to its
// first for all labels at once: after the first pass `upcoming` holds the first outgoing half-edge of
// each label, the one that is reached cyclically, and in the second pass the first one from the place
// on. Where a ring passes a node once that is its only way on, and nothing changes.
ghost use Rattle.std.specs.Prelude.{◌≡◌, ℕ, ◌*◌, ◌<◌, length};
ghost use Rattle.lists.specs.Lists.{In, pick};
ghost use Rattle.rules.specs.HalfEdge.{twin};
ghost use Rattle.rules.specs.Limits.{limits};
ghost use Rattle.stars.specs.Groups.{unmarked, part};
ghost use Rattle.splitting.specs.Splits.{entry_of, noted, relinked, StarWithin, Splittable, Split};

use super::reads::index_at;
use stars::is_active;
use tables::{DirEdgeId, MAX_HALF_EDGES, twin_of};

// Labels are counted from 1, and there are no more than half-edges: one place for each, and one for
// half-edges without a label.
const LABEL_PLACES: usize = MAX_HALF_EDGES + 1;

// Notes the active half-edges of a star under their labels, from the last place to the first.
fn note_star(
    grouped: &[u16],
    from: usize,
    to: usize,
    dir_edges_marked: &[bool],
    labels: &[u16],
    upcoming: &mut [u16],
)
    requires { StarWithin from to grouped.now dir_edges_marked.now labels.now upcoming.old }
    ensures { upcoming.new ≡ noted (entry_of labels.now) (pick (unmarked dir_edges_marked.now) (part from to grouped.now)) upcoming.old }
{
    for i in (from..to).rev() {
        let h = grouped[i];
        if is_active(dir_edges_marked, DirEdgeId(h)) {
            upcoming[index_at(labels, DirEdgeId(h))] = h;
        }
    }
}

// The same once more, and the twin of each gets the one noted under the twin's label.
fn relink_star(
    grouped: &[u16],
    from: usize,
    to: usize,
    dir_edges_marked: &[bool],
    labels: &[u16],
    upcoming: &mut [u16],
    next: &mut [u16],
)
    requires star_within { StarWithin from to grouped.now dir_edges_marked.now labels.now upcoming.old }
    requires by_index { (h : ℕ) → In h (part from to grouped.now) → twin h < length next.old }
    ensures upcoming_after { upcoming.new ≡ noted (entry_of labels.now) (pick (unmarked dir_edges_marked.now) (part from to grouped.now)) upcoming.old }
    ensures next_after { next.new ≡ relinked (entry_of labels.now) upcoming.old (pick (unmarked dir_edges_marked.now) (part from to grouped.now)) next.old }
{
    for i in (from..to).rev() {
        let h = grouped[i];
        if is_active(dir_edges_marked, DirEdgeId(h)) {
            let incoming = twin_of(DirEdgeId(h));
            upcoming[index_at(labels, DirEdgeId(h))] = h;
            next[usize::from(incoming.0)] = upcoming[index_at(labels, incoming)];
        }
    }
}

// Star by star. What `upcoming` holds of other stars is never read.
fn split_stars(
    graph: tables::PlanarGraph,
    offsets: &[u16],
    grouped: &[u16],
    dir_edges_marked: &[bool],
    labels: &[u16],
    upcoming: &mut [u16],
    next: &mut [u16],
)
    requires splittable { Splittable limits graph.node_count graph.edge_count offsets.now grouped.now dir_edges_marked.now labels.now next.old }
    requires edge_count_in_bounds { 2 * graph.edge_count < length upcoming.old }
    ensures { Split graph.node_count graph.edge_count offsets.now grouped.now dir_edges_marked.now labels.now next.new }
{
    let nodes = usize::from(graph.node_count);
    for n in 0..nodes {
        let from = usize::from(offsets[n]);
        let to = usize::from(offsets[n + 1]);
        note_star(grouped, from, to, dir_edges_marked, labels, upcoming);
        relink_star(grouped, from, to, dir_edges_marked, labels, upcoming, next);
    }
}

// The successor after splitting of every active half-edge.
pub fn split_rings(
    graph: tables::PlanarGraph,
    offsets: &[u16],
    grouped: &[u16],
    dir_edges_marked: &[bool],
    labels: &[u16],
    next: &mut [u16],
)
    requires { Splittable limits graph.node_count graph.edge_count offsets.now grouped.now dir_edges_marked.now labels.now next.old }
    ensures { Split graph.node_count graph.edge_count offsets.now grouped.now dir_edges_marked.now labels.now next.new }
{
    let mut upcoming = [0u16; LABEL_PLACES];
    split_stars(
        graph,
        offsets,
        grouped,
        dir_edges_marked,
        labels,
        &mut upcoming,
        next,
    );
}
