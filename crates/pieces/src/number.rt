// Piece numbers: a fill from each seed that no fill has reached, in the order of seeds.
ghost use Rattle.std.specs.Prelude.{take};
ghost use Rattle.rules.specs.Limits.{limits};
ghost use Rattle.seeds.specs.Numbers.{InEachState, Numbered, Swept, Sweepable, Numberable};

use crate::fill::fill_piece;
use seeds::order_seeds;
use tables::{MAX_NODES, NodeId, PlanarGraph};

// Goes through the first `seeds` entries of the order: one that has no number yet begins the next piece.
// Answers how many pieces there are.
fn fill_seeds(
    offsets: &[u16],
    grouped: &[u16],
    dir_edges_src: &[u16],
    dir_edges_marked: &[bool],
    order: &[u16],
    seeds: usize,
    pieces: &mut [u16],
    stack: &mut [u16],
) -> u16
    requires { Sweepable limits dir_edges_src.now dir_edges_marked.now offsets.now grouped.now order.now seeds pieces.old stack.old }
    ensures { Swept dir_edges_src.now dir_edges_marked.now offsets.now grouped.now (take seeds order.now) pieces.old pieces.new result }
{
    let mut count: u16 = 0;
    for i in 0..seeds {
        let seed = NodeId(order[i]);
        let untouched = pieces[usize::from(seed.0)] == 0;
        if untouched {
            count += 1;
            fill_piece(
                offsets,
                grouped,
                dir_edges_src,
                dir_edges_marked,
                seed,
                count,
                pieces,
                stack,
            );
        }
    }
    count
}

// Every node's piece, by numbers from 1 in the order of seeds, and 0 for a node in no piece. Answers
// how many pieces there are.
pub fn number_pieces(
    graph: PlanarGraph,
    nodes_x: &[f64],
    nodes_y: &[f64],
    offsets: &[u16],
    grouped: &[u16],
    dir_edges_src: &[u16],
    dir_edges_marked: &[bool],
    pieces: &mut [u16],
) -> u16
    requires { Numberable limits graph.node_count graph.edge_count nodes_x.now nodes_y.now dir_edges_src.now dir_edges_marked.now offsets.now grouped.now pieces.old }
    ensures { InEachState graph nodes_x.now nodes_y.now dir_edges_src.now dir_edges_marked.now offsets.now grouped.now (λ s. Numbered s pieces.new result) }
{
    let mut order = [0u16; MAX_NODES];
    let mut stack = [0u16; MAX_NODES];
    let seeds = order_seeds(
        graph,
        nodes_x,
        nodes_y,
        offsets,
        grouped,
        dir_edges_src,
        dir_edges_marked,
        &mut order,
    );
    fill_seeds(
        offsets,
        grouped,
        dir_edges_src,
        dir_edges_marked,
        &order,
        seeds,
        pieces,
        &mut stack,
    )
}
