// What a call has to leave alone, by its reply: everything where it was refused, and otherwise all
// but what it is there to write.
ghost use Rattle.std.specs.Prelude.{◌+◌, ◌*◌, ◌≤◌};
ghost use Rattle.rules.specs.Limits.{limits};
ghost use Rattle.call_image.specs.Image.{image_length};

use crate::change::Change;
use crate::image::{
    AREA_AT, FACE_AT, FIRST_AT, FLOATS_AT, HALF_EDGES_AT, IDS_AT, IMAGE, Image, LENGTH_AT,
    MARKS_AT, NUMBERS_AT, SIDE_AT, STARS_AT,
};
use call_replies::Reply;
use tables::{
    DEGREES, EdgeId, HALF_MARKS, LINKS, LIST_PLACES, MAX_EDGES, MAX_HALF_EDGES, MAX_NODES,
    MAX_PAIRS, NODES_Y, NODES_Z, PAIR_IDS, PlanarGraph, SEGMENTS, TARGETS,
};

// The place of an edge's list, or the number of pairs where it has none.
fn list_place(image: &Image, edge: EdgeId) -> usize
    ensures { result ≤ limits.pairs }
{
    let k = usize::from(edge.0);
    if k < MAX_EDGES {
        let place = image[NUMBERS_AT + LIST_PLACES + k] as usize;
        if place < MAX_PAIRS {
            return place;
        }
    }
    MAX_PAIRS
}

impl Change<'_> {
    fn same_graph(self) -> bool {
        // `PlanarGraph` has no `==`
        let old = (self.old.node_count, self.old.edge_count, self.old.stage);
        old == (self.new.node_count, self.new.edge_count, self.new.stage)
    }

    // The lists but for the half-edges and the rings written.
    fn same_lists(self, halves: usize, rings: usize) -> bool {
        self.same_around(HALF_EDGES_AT, MAX_HALF_EDGES, 0, halves)
            && self.same_around(FIRST_AT, MAX_HALF_EDGES, 0, rings)
            && self.same_around(LENGTH_AT, MAX_HALF_EDGES, 0, rings)
            && self.same_around(FACE_AT, MAX_HALF_EDGES, 0, rings)
            && self.same_around(SIDE_AT, MAX_HALF_EDGES, 0, rings)
            && self.same_around(AREA_AT, MAX_HALF_EDGES, 0, rings)
    }

    // The marks of half-edges but for those of the edges there are.
    fn same_half_marks(self, edges: u16) -> bool {
        self.same_around(
            MARKS_AT + HALF_MARKS,
            MAX_HALF_EDGES,
            0,
            2 * usize::from(edges),
        )
    }

    // The slices but for the marks of the half-edges.
    fn same_but_half_marks(self, edges: u16) -> bool {
        self.same_part(0, MARKS_AT + HALF_MARKS)
            && self.same_half_marks(edges)
            && self.same_part(IDS_AT, HALF_EDGES_AT)
    }

    // The slices but for the stars.
    fn same_but_stars(self, edges: u16) -> bool {
        self.same_part(0, STARS_AT)
            && self.same_around(STARS_AT, MAX_HALF_EDGES, 0, 2 * usize::from(edges))
            && self.same_part(STARS_AT + DEGREES, HALF_EDGES_AT)
    }

    // The slices but for degrees and marks.
    fn same_but_marks(self, graph: PlanarGraph) -> bool {
        let nodes = usize::from(graph.node_count);
        self.same_part(0, STARS_AT + DEGREES)
            && self.same_around(STARS_AT + DEGREES, MAX_NODES, 0, nodes)
            && self.same_around(MARKS_AT, MAX_NODES, 0, nodes)
            && self.same_half_marks(graph.edge_count)
            && self.same_part(IDS_AT, HALF_EDGES_AT)
    }

    // The tables of nodes but for the new ones; degrees of old nodes may grow.
    fn same_but_nodes(self, old: u16, new: u16) -> bool {
        let first = usize::from(old);
        let last = usize::from(new);
        self.same_around(FLOATS_AT, MAX_NODES, first, last)
            && self.same_around(FLOATS_AT + NODES_Y, MAX_NODES, first, last)
            && self.same_around(FLOATS_AT + NODES_Z, MAX_NODES, first, last)
            && self.same_around(STARS_AT + DEGREES, MAX_NODES, 0, last)
            && self.same_around(MARKS_AT, MAX_NODES, first, last)
    }

    // A table of half-edges but for the two of an edge.
    fn same_but_halves(self, at: usize, edge: EdgeId) -> bool
        requires { at + 2 * limits.edges ≤ image_length limits }
    {
        let k = usize::from(edge.0);
        self.same_around(at, MAX_HALF_EDGES, 2 * k, 2 * k + 2)
    }

    // The tables of edges and half-edges but for those of an edge.
    fn same_but_edge(self, edge: EdgeId) -> bool {
        let k = usize::from(edge.0);
        self.same_around(FLOATS_AT + SEGMENTS, 6 * MAX_EDGES, 6 * k, 6 * k + 6)
            && self.same_around(IDS_AT, MAX_EDGES, k, k + 1)
            && self.same_but_halves(NUMBERS_AT, edge)
            && self.same_but_halves(NUMBERS_AT + TARGETS, edge)
            && self.same_but_halves(MARKS_AT + HALF_MARKS, edge)
            && self.same_but_halves(STARS_AT, edge)
    }

    // The tables of the lists of line ids but for an edge's list place and one pair.
    fn same_but_pair(self, edge: EdgeId) -> bool {
        let k = usize::from(edge.0);
        let p = list_place(self.after, edge);
        self.same_around(NUMBERS_AT + LIST_PLACES, MAX_EDGES, k, k + 1)
            && self.same_around(NUMBERS_AT + LINKS, MAX_PAIRS, p, p + 1)
            && self.same_around(IDS_AT + PAIR_IDS, MAX_PAIRS, p, p + 1)
    }

    // All but an edge's line id and its list: a repeat may bring an id.
    fn same_but_ids(self, edge: EdgeId) -> bool {
        let k = usize::from(edge.0);
        self.same_part(0, NUMBERS_AT + LIST_PLACES)
            && self.same_around(NUMBERS_AT + LIST_PLACES, MAX_EDGES, k, k + 1)
            && self.same_part(STARS_AT, IDS_AT)
            && self.same_around(IDS_AT, MAX_EDGES, k, k + 1)
            && self.same_part(HALF_EDGES_AT, IMAGE)
    }

    // Whether the call left alone what it has to; a refusal is told by its number.
    pub fn is_kept(self, reply: Result<Reply, u64>) -> bool {
        let Ok(reply) = reply else {
            return self.same_graph() && self.same_part(0, IMAGE);
        };
        match reply {
            Reply::Created => self.same_part(0, IMAGE),
            Reply::Old(edge) => self.same_graph() && self.same_but_ids(edge),
            Reply::New(edge) => {
                self.same_but_nodes(self.old.node_count, self.new.node_count)
                    && self.same_but_edge(edge)
                    && self.same_but_pair(edge)
                    && self.same_lists(0, 0)
            }
            Reply::Sorted => { self.same_but_stars(self.new.edge_count) && self.same_lists(0, 0) }
            Reply::WasReset => self.same_but_marks(self.new) && self.same_lists(0, 0),
            Reply::Dangles(count) => {
                self.same_but_marks(self.new) && self.same_lists(usize::from(count), 0)
            }
            Reply::Cuts { count, .. } => {
                self.same_but_half_marks(self.new.edge_count)
                    && self.same_lists(usize::from(count), 0)
            }
            Reply::Rings { count, halves, .. } => {
                self.same_part(0, HALF_EDGES_AT)
                    && self.same_lists(usize::from(halves), usize::from(count))
            }
        }
    }
}
