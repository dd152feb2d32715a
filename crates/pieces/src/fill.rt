// A fill: from one node of a piece to all others, along active edges.
ghost use Rattle.std.specs.Prelude.{ℕ, ◌+◌, ◌<◌, ◌≤◌, length, get_or, [], ◌∷◌};
ghost use Rattle.lists.specs.Lists.{In};
ghost use Rattle.rules.specs.HalfEdge.{twin};
ghost use Rattle.stars.specs.Groups.{part, group_of, PartWithin};
ghost use Rattle.seeds.specs.Reach.{reach_new, ends_of_lem, Reached, Takeable, Fillable, Filled};

use seeds::end_of;
use stars::is_active;
use tables::{DirEdgeId, NodeId};

// A node that has no number gets the piece's and goes on the stack.
fn reach(node: NodeId, piece: u16, pieces: &mut [u16], stack: &mut [u16], top: usize) -> usize
    requires { (node.0 < length pieces.old) × (top + length (reach_new piece (node.0 ∷ []) pieces.old) ≤ length stack.old) }
    ensures { Reached piece (node.0 ∷ []) pieces.old stack.old pieces.new stack.new top result }
{
    let n = usize::from(node.0);
    if pieces[n] == 0 {
        pieces[n] = piece;
        stack[top] = node.0;
        return top + 1;
    }
    top
}

// Reaches the nodes where the active half-edges of a star end.
fn reach_star(
    grouped: &[u16],
    from: usize,
    to: usize,
    dir_edges_src: &[u16],
    dir_edges_marked: &[bool],
    piece: u16,
    pieces: &mut [u16],
    stack: &mut [u16],
    top: usize,
) -> usize
    requires { (PartWithin (length dir_edges_marked.now) from to grouped.now) × ((h : ℕ) → In h (part from to grouped.now) → (twin h < length dir_edges_src.now) × (get_or dir_edges_src.now (twin h) 0 < length pieces.old)) × (top + length (reach_new piece (ends_of_lem dir_edges_src.now dir_edges_marked.now (part from to grouped.now)) pieces.old) ≤ length stack.old) }
    ensures { Reached piece (ends_of_lem dir_edges_src.now dir_edges_marked.now (part from to grouped.now)) pieces.old stack.old pieces.new stack.new top result }
{
    let mut height = top;
    for i in from..to {
        let half = DirEdgeId(grouped[i]);
        if is_active(dir_edges_marked, half) {
            let end = end_of(dir_edges_src, half);
            height = reach(end, piece, pieces, stack, height);
        }
    }
    height
}

// Reaches the neighbours of the node that stands at top of the stack, which is taken from it.
fn spread_node(
    offsets: &[u16],
    grouped: &[u16],
    dir_edges_src: &[u16],
    dir_edges_marked: &[bool],
    piece: u16,
    pieces: &mut [u16],
    stack: &mut [u16],
    top: usize,
) -> usize
    requires { Takeable dir_edges_src.now dir_edges_marked.now offsets.now grouped.now piece pieces.old stack.old top }
    ensures { Reached piece (ends_of_lem dir_edges_src.now dir_edges_marked.now (group_of offsets.now grouped.now (get_or stack.old top 0))) pieces.old stack.old pieces.new stack.new top result }
{
    let n = usize::from(stack[top]);
    let from = usize::from(offsets[n]);
    let to = usize::from(offsets[n + 1]);
    reach_star(
        grouped,
        from,
        to,
        dir_edges_src,
        dir_edges_marked,
        piece,
        pieces,
        stack,
        top,
    )
}

// Gives every node of the seed's piece the piece's number.
pub fn fill_piece(
    offsets: &[u16],
    grouped: &[u16],
    dir_edges_src: &[u16],
    dir_edges_marked: &[bool],
    seed: NodeId,
    piece: u16,
    pieces: &mut [u16],
    stack: &mut [u16],
)
    requires { Fillable dir_edges_src.now dir_edges_marked.now offsets.now grouped.now pieces.old stack.old seed.0 piece }
    ensures { Filled dir_edges_src.now dir_edges_marked.now offsets.now grouped.now seed.0 piece pieces.old pieces.new }
{
    let mut top = reach(seed, piece, pieces, stack, 0);
    while 0 < top {
        top = spread_node(
            offsets,
            grouped,
            dir_edges_src,
            dir_edges_marked,
            piece,
            pieces,
            stack,
            top - 1,
        );
    }
}
