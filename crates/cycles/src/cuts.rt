// Cut edges: both halves are active and lie in one maximal ring.
ghost use Rattle.std.specs.Prelude.{◌≡◌, ◌+◌, ◌*◌, ◌<◌, length};
ghost use Rattle.lists.specs.Lists.{over};
ghost use Rattle.rules.specs.Limits.{limits};
ghost use Rattle.rules.specs.Stages.{mark_edges};
ghost use Rattle.cycles.specs.Cuts.{cut_by, cuts_by, Cuttable};

use tables::EdgeId;

// Whether the edge is to be cut.
fn is_cut(edge: EdgeId, labels: &[u16], dir_edges_marked: &[bool]) -> bool
    requires { (2 * edge.0 + 1 < length labels.now) × (2 * edge.0 + 1 < length dir_edges_marked.now) }
    ensures { result ≡ cut_by dir_edges_marked.now labels.now edge.0 }
{
    let k = usize::from(edge.0);
    if dir_edges_marked[2 * k] {
        return false;
    }
    if dir_edges_marked[2 * k + 1] {
        return false;
    }
    labels[2 * k] == labels[2 * k + 1]
}

// Marks and lists the cut edges, by rising edge number, all from one labelling.
pub fn cut_edges(edges: u16, labels: &[u16], dir_edges_marked: &mut [bool], out: &mut [u16]) -> u16
    requires { Cuttable limits edges labels.now dir_edges_marked.old out.old }
    ensures { (result ≡ length (cuts_by edges dir_edges_marked.old labels.now)) × (dir_edges_marked.new ≡ mark_edges (cuts_by edges dir_edges_marked.old labels.now) dir_edges_marked.old) × (out.new ≡ over (cuts_by edges dir_edges_marked.old labels.now) out.old) }
{
    let mut count: u16 = 0;
    for k in 0..edges {
        if is_cut(EdgeId(k), labels, dir_edges_marked) {
            let i = usize::from(k);
            dir_edges_marked[2 * i] = true;
            dir_edges_marked[2 * i + 1] = true;
            out[usize::from(count)] = k;
            count += 1;
        }
    }
    count
}
