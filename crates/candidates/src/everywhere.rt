// Rings that pass every node. No open ring has a node that such a ring does not pass, so it holds none.
ghost use Rattle.std.specs.Prelude.{◌≡◌, true, ℕ, ◌<◌, ◌≤◌, length, get_or};
ghost use Rattle.rules.specs.Limits.{limits};
ghost use Rattle.inside.specs.Spots.{NodesWithin};
ghost use Rattle.candidates.specs.Candidates.{nodes_at, PassesAll, Part};

use corners::stamp_nodes;
use tables::MAX_NODES;

// The stamp of a node that the ring passes.
const PASSED: u16 = 1;

// Whether each of the first nodes has the stamp.
fn all_stamped(stamps: &[u16], node_count: usize) -> bool
    requires { node_count ≤ length stamps.now }
    ensures { result ≡ true → (n : ℕ) → n < node_count → get_or stamps.now n 0 ≡ 1 }
{
    stamps[..node_count].iter().all(|&stamp| stamp == PASSED)
}

// Whether ring i passes all nodes of the graph. One that has fewer half-edges does not, and most have.
pub fn passes_all(
    i: u16,
    node_count: usize,
    nodes: &[u16],
    ring_first: &[u16],
    ring_length: &[u16],
) -> bool
    requires part { Part nodes.now ring_first.now ring_length.now i }
    requires nodes_within { NodesWithin (nodes_at nodes.now ring_first.now ring_length.now i) node_count × (node_count ≤ limits.nodes) }
    ensures { result ≡ true → PassesAll node_count (nodes_at nodes.now ring_first.now ring_length.now i) }
{
    let k = usize::from(i);
    let length = usize::from(ring_length[k]);
    if length < node_count {
        return false;
    }
    let first = usize::from(ring_first[k]);
    let end = first + length;
    let mut stamps = [0u16; MAX_NODES];
    stamp_nodes(&nodes[first..end], PASSED, &mut stamps);
    all_stamped(&stamps, node_count)
}
