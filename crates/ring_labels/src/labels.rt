// Maximal rings: the cycles of successors, labelled from 1 by lowest half-edge.
ghost use Rattle.std.specs.Prelude.{◌≡◌, Bool, ℕ, ◌≤◌, length, replicate};
ghost use Rattle.lists.specs.Lists.{over};
ghost use Rattle.rules.specs.Cycles.{cycle};
ghost use Rattle.rules.specs.Limits.{limits};
ghost use Rattle.rules.specs.Sane.{Live, Permutes};
ghost use Rattle.ring_labels.specs.Labels.{entry_of, written, Walkable, Labelable, Labelled};

use stars::is_active;
use tables::DirEdgeId;

// No label yet for the first n half-edges.
fn clear_labels(labels: &mut [u16], n: usize)
    requires { n ≤ length labels.old }
    ensures { labels.new ≡ over (replicate n 0) labels.old }
{
    labels[..n].fill(0);
}

// Writes the label at each half-edge of the cycle of start.
fn stamp_ring(next: &[u16], labels: &mut [u16], start: DirEdgeId, label: u16)
    requires { Walkable next.now labels.old start.0 }
    ensures { (n : ℕ) (active : ℕ → Bool) → Permutes (entry_of next.now) n active → Live n active start.0 → labels.new ≡ written (cycle (entry_of next.now) n start.0) label labels.old }
{
    let first = usize::from(start.0);
    let mut cur = first;
    loop {
        labels[cur] = label;
        cur = usize::from(next[cur]);
        if cur == first {
            break;
        }
    }
}

// Labels the cycles and returns how many there are. A marked half-edge has label 0.
pub fn label_rings(edges: u16, next: &[u16], dir_edges_marked: &[bool], labels: &mut [u16]) -> u16
    requires { Labelable limits edges next.now dir_edges_marked.now labels.old }
    ensures { Labelled edges next.now dir_edges_marked.now labels.new result }
{
    let halves = 2 * edges;
    clear_labels(labels, usize::from(halves));
    let mut used: u16 = 0;
    for h in 0..halves {
        if is_active(dir_edges_marked, DirEdgeId(h)) {
            if labels[usize::from(h)] == 0 {
                used += 1;
                stamp_ring(next, labels, DirEdgeId(h), used);
            }
        }
    }
    used
}
