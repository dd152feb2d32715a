// Leaves, the nodes of degree 1: stacking them, and taking one away with its edge.
#![tactic(auto)]

ghost use Rattle.std.specs.Prelude.{◌≡◌, reverse, ℕ, ◌+◌, ◌≤◌, ◌<◌, length};
ghost use Rattle.lists.specs.Lists.{In, below};
ghost use Rattle.rules.specs.HalfEdge.{twin};
ghost use Rattle.rules.specs.Prune.{first_active_lem, push, take_node_lem};
ghost use Rattle.stars.specs.Groups.{part};
ghost use Rattle.leaves.specs.Given.{origin_in};
ghost use Rattle.leaves.specs.Steps.{leaf, latest, tables_at, Reached, Takeable};

use stars::is_active;
use tables::{DirEdgeId, NodeId, twin_of};

// How many nodes are stacked, and how many edges were found.
#[derive(Clone, Copy)]
pub struct Progress {
    pub stacked: usize,
    pub found: usize,
}

// An unmarked node of degree 1.
pub fn is_leaf(nodes_degree: &[u16], nodes_marked: &[bool], node: NodeId) -> bool
    requires { (node.0 < length nodes_degree.now) × (node.0 < length nodes_marked.now) }
    ensures { result ≡ leaf nodes_degree.now nodes_marked.now node.0 }
{
    let n = usize::from(node.0);
    if nodes_degree[n] == 1 {
        return !nodes_marked[n];
    }
    false
}

// Stacks the node where it is a leaf, and answers how many are stacked then.
pub fn push_leaf(
    nodes_degree: &[u16],
    nodes_marked: &[bool],
    node: NodeId,
    stack: &mut [u16],
    stacked: usize,
) -> usize
    requires { (node.0 < length nodes_degree.now) × (node.0 < length nodes_marked.now) × (stacked < length stack.old) }
    ensures { (latest result stack.new ≡ push (leaf nodes_degree.now nodes_marked.now node.0) node.0 (latest stacked stack.old)) × (result ≤ stacked + 1) }
{
    if is_leaf(nodes_degree, nodes_marked, node) {
        stack[stacked] = node.0;
        return stacked + 1;
    }
    stacked
}

// Stacks the leaves among the first nodes in rising order, and answers how many there are.
pub fn stack_leaves(
    nodes: u16,
    nodes_degree: &[u16],
    nodes_marked: &[bool],
    stack: &mut [u16],
) -> usize
    requires { (nodes ≤ length nodes_degree.now) × (nodes ≤ length nodes_marked.now) × (nodes ≤ length stack.old) }
    ensures { (latest result stack.new ≡ reverse (below (leaf nodes_degree.now nodes_marked.now) nodes)) × (result ≤ nodes) }
{
    let mut stacked = 0;
    for n in 0..nodes {
        stacked = push_leaf(nodes_degree, nodes_marked, NodeId(n), stack, stacked);
    }
    stacked
}

// The first active half-edge of a star, which stands from one place up to another; 0 where there is
// none.
pub fn first_active(grouped: &[u16], from: usize, to: usize, dir_edges_marked: &[bool]) -> DirEdgeId
    requires { (to ≤ length grouped.now) × ((h : ℕ) → In h (part from to grouped.now) → h < length dir_edges_marked.now) }
    ensures { result.0 ≡ first_active_lem dir_edges_marked.now 0 (part from to grouped.now) }
{
    for i in from..to {
        let half = DirEdgeId(grouped[i]);
        if is_active(dir_edges_marked, half) {
            return half;
        }
    }
    DirEdgeId(0)
}

// The node is taken with its last active half-edge: both halves and the node are marked, the edge is
// listed, and the neighbour, whose degree falls, is stacked where that makes it a leaf.
pub fn take_node(
    node: NodeId,
    half: DirEdgeId,
    dir_edges_src: &[u16],
    nodes_degree: &mut [u16],
    nodes_marked: &mut [bool],
    dir_edges_marked: &mut [bool],
    stack: &mut [u16],
    out: &mut [u16],
    at: Progress,
) -> Progress
    requires { Takeable node.0 half.0 dir_edges_src.now nodes_degree.old nodes_marked.old dir_edges_marked.old stack.old out.old at }
    ensures { (tables_at nodes_degree.new nodes_marked.new dir_edges_marked.new stack.new out.new result ≡ take_node_lem node.0 half.0 (origin_in dir_edges_src.now (twin half.0)) (tables_at nodes_degree.old nodes_marked.old dir_edges_marked.old stack.old out.old at)) × (Reached at.found out.old out.new stack.new result) }
{
    let n = usize::from(node.0);
    let h = usize::from(half.0);
    let t = usize::from(twin_of(half).0);
    let neighbour = NodeId(dir_edges_src[t]);
    let other = usize::from(neighbour.0);
    let degree = nodes_degree[other] - 1;
    nodes_marked[n] = true;
    dir_edges_marked[h] = true;
    dir_edges_marked[t] = true;
    nodes_degree[n] = 0;
    nodes_degree[other] = degree;
    let found = at.found;
    out[found] = half.0 / 2;
    let stacked = push_leaf(nodes_degree, nodes_marked, neighbour, stack, at.stacked);
    Progress {
        stacked,
        found: found + 1,
    }
}
