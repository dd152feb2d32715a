// What resetting writes: marks cleared, and degrees that were counted anew.
ghost use Rattle.std.specs.Prelude.{◌≡◌, false, ◌≤◌, length, take, replicate};
ghost use Rattle.lists.specs.Lists.{over};
ghost use Rattle.rules.specs.Limits.{limits};

use tables::MAX_NODES;

// The first marks cleared.
pub fn clear_marks(count: usize, marks: &mut [bool])
    requires { count ≤ length marks.old }
    ensures { marks.new ≡ over (replicate count false) marks.old }
{
    marks[..count].fill(false);
}

// The first degrees set to the counts.
pub fn write_degrees(nodes: usize, counts: &[u16; MAX_NODES], nodes_degree: &mut [u16])
    requires { (length counts.now ≡ limits.nodes) × (nodes ≤ limits.nodes) × (nodes ≤ length nodes_degree.old) }
    ensures { nodes_degree.new ≡ over (take nodes counts.now) nodes_degree.old }
{
    nodes_degree[..nodes].copy_from_slice(&counts[..nodes]);
}
