// Pruning: dangling edges are taken away, from a stack of nodes of degree 1.
#![tactic(auto)]

ghost use Rattle.std.specs.Prelude.{◌≡◌, ◌+◌, ◌<◌};
ghost use Rattle.rules.specs.Limits.{limits};
ghost use Rattle.rules.specs.Prune.{take_from, prune};
ghost use Rattle.stars.specs.Groups.{group_of};
ghost use Rattle.leaves.specs.Given.{origin_in, Prunable};
ghost use Rattle.leaves.specs.Steps.{latest, tables_at, Reached, Turning};
ghost use Rattle.pruning.specs.Left.{Left};

use leaves::{Progress, first_active, stack_leaves, take_node};
use tables::{MAX_NODES, NodeId, PlanarGraph};

// The graph in stage 2, and how many edges were taken away.
#[derive(Clone, Copy)]
pub struct PruneDone {
    pub graph: PlanarGraph,
    pub count: u16,
}

// One turn: the node stacked last leaves the stack, and is taken where its degree is still 1.
fn turn(
    offsets: &[u16],
    grouped: &[u16],
    dir_edges_src: &[u16],
    nodes_degree: &mut [u16],
    nodes_marked: &mut [bool],
    dir_edges_marked: &mut [bool],
    stack: &mut [u16],
    out: &mut [u16],
    at: Progress,
) -> Progress
    requires { Turning offsets.now grouped.now dir_edges_src.now nodes_degree.old nodes_marked.old dir_edges_marked.old stack.old out.old at }
    ensures { (tables_at nodes_degree.new nodes_marked.new dir_edges_marked.new stack.new out.new result ≡ take_from (group_of offsets.now grouped.now) (origin_in dir_edges_src.now) (latest at.stacked stack.old) (tables_at nodes_degree.old nodes_marked.old dir_edges_marked.old stack.old out.old at)) × (Reached at.found out.old out.new stack.new result) }
{
    let stacked = at.stacked - 1;
    let found = at.found;
    let node = NodeId(stack[stacked]);
    let n = usize::from(node.0);
    let rest = Progress { stacked, found };
    if nodes_degree[n] != 1 {
        return rest;
    }
    let half = first_active(
        grouped,
        usize::from(offsets[n]),
        usize::from(offsets[n + 1]),
        dir_edges_marked,
    );
    take_node(
        node,
        half,
        dir_edges_src,
        nodes_degree,
        nodes_marked,
        dir_edges_marked,
        stack,
        out,
        rest,
    )
}

// Takes dangling edges away until none is left, and lists them in the order found.
pub fn prune_core(
    graph: PlanarGraph,
    offsets: &[u16],
    grouped: &[u16],
    dir_edges_src: &[u16],
    nodes_degree: &mut [u16],
    nodes_marked: &mut [bool],
    dir_edges_marked: &mut [bool],
    out: &mut [u16],
) -> PruneDone
    requires { Prunable limits graph.node_count graph.edge_count offsets.now grouped.now dir_edges_src.now nodes_degree.old nodes_marked.old dir_edges_marked.old out.old }
    ensures { Left graph (prune (group_of offsets.now grouped.now) (origin_in dir_edges_src.now) graph.node_count graph.edge_count nodes_degree.old nodes_marked.old dir_edges_marked.old) nodes_degree.new nodes_marked.new dir_edges_marked.new out.old out.new result }
{
    let mut stack = [0u16; MAX_NODES];
    let stacked = stack_leaves(graph.node_count, nodes_degree, nodes_marked, &mut stack);
    let mut at = Progress { stacked, found: 0 };
    while 0 < at.stacked {
        at = turn(
            offsets,
            grouped,
            dir_edges_src,
            nodes_degree,
            nodes_marked,
            dir_edges_marked,
            &mut stack,
            out,
            at,
        );
    }
    PruneDone {
        graph: graph.at_stage(2),
        count: at.found as u16,
    }
}
