// The successors of half-edges along their rings.
ghost use Rattle.std.specs.Prelude.{List, ℕ, ◌*◌, ◌≤◌, length};
ghost use Rattle.rules.specs.Limits.{limits};
ghost use Rattle.cycles.specs.Arranged.{Arranged};
ghost use Rattle.stars.specs.Groups.{InEach};
ghost use Rattle.ring_listing.specs.Listing.{Successors};

use tables::{MAX_HALF_EDGES, PlanarGraph};

// Links and labels the maximal rings and splits them, and answers how many maximal ones there are. Its
// tables are given up before the rings are walked.
pub fn write_successors(
    graph: PlanarGraph,
    offsets: &[u16],
    grouped: &[u16],
    dir_edges_marked: &[bool],
    next: &mut [u16],
) -> u16
    requires { ((source : List ℕ) × Arranged limits graph.node_count graph.edge_count source dir_edges_marked.now offsets.now grouped.now) × (2 * graph.edge_count ≤ length next.old) }
    ensures { (source : List ℕ) → InEach graph.node_count graph.edge_count source dir_edges_marked.now offsets.now grouped.now (λ g. Successors g next.new result) }
{
    let mut labels = [0u16; MAX_HALF_EDGES];
    ring_labels::link_successors(graph, offsets, grouped, dir_edges_marked, next);
    let maximal = ring_labels::label_rings(graph.edge_count, next, dir_edges_marked, &mut labels);
    splitting::split_rings(graph, offsets, grouped, dir_edges_marked, &labels, next);
    maximal
}
