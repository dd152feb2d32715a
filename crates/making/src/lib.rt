// An addition once its searches are made: what it comes to, then all that it brings is written.
#![tactic(auto)]

ghost use Rattle.std.specs.Prelude.{◌≡◌, ◌<◌};
ghost use Rattle.rules.specs.Adding.{with_node, with_edge, add};
ghost use Rattle.rules.specs.Limits.{limits};
ghost use Rattle.tables.specs.Regions.{state_in, degrees_in, SliceRoom};
ghost use Rattle.calls.specs.Replies.{left};
ghost use Rattle.adding.specs.Outcomes.{Ready, reply_of};
ghost use Rattle.adding.specs.Written.{Makeable};
ghost use Rattle.making.specs.Matching.{FoundIn, PlacedIn};

use adding::{Decision, Ends, LineEdge, decide};
use geometry::Line3D;
use tables::{Answer, DirEdgeId, EdgeId, NodeId, PlanarGraph};
use writing::{add_edge, add_node, enter_id};

// What the searches found for a line: the nodes of its ends, each the node count where there is none,
// and the half-edge between them, the number of half-edges where there is none.
#[derive(Clone, Copy)]
pub struct Matches {
    pub start: NodeId,
    pub end: NodeId,
    pub half: DirEdgeId,
}

// Where a line's id goes: whether the edge that was found has it, the place behind which it goes in
// that edge's list, LIST_END where it goes first, and the lowest free place, MAX_PAIRS where there is
// none.
#[derive(Clone, Copy)]
pub struct IdPlace {
    pub known: bool,
    pub behind: u16,
    pub free: u16,
}

// Writes the nodes that are new and the edge, its id at a place, and gives the counts with them.
fn make(
    graph: PlanarGraph,
    ends: Ends,
    place: u16,
    line: Line3D,
    floats: &mut [f64],
    numbers: &mut [u16],
    stars: &mut [u16],
    marks: &mut [bool],
    ids: &mut [u32],
) -> PlanarGraph
    requires slice_room { SliceRoom limits floats.old numbers.old stars.old marks.old ids.old }
    requires makeable { Makeable graph.node_count graph.edge_count ends (degrees_in limits stars.old) }
    requires place_lt_pairs { place < limits.pairs }
    ensures { state_in limits result floats.new numbers.new stars.new marks.new ids.new
        ≡ with_edge ends.start.0 ends.end.0 place line (with_node ends.new_end ends.end.0 line.end (with_node ends.new_start ends.start.0 line.start
        (state_in limits graph floats.old numbers.old stars.old marks.old ids.old))) }
{
    let u = ends.start;
    let v = ends.end;
    let start = line.start;
    let end = line.end;
    add_node(ends.new_start, u, start, floats, stars, marks);
    add_node(ends.new_end, v, end, floats, stars, marks);
    add_edge(
        EdgeId(graph.edge_count),
        u,
        v,
        place,
        line,
        floats,
        numbers,
        stars,
        marks,
        ids,
    );
    adding::grown(graph, ends)
}

// An addition to a graph that is known to be roomy, sound and in stage 0: what it comes to, then the
// new nodes and the new edge, or the line's id behind the edge that was found.
pub fn add_found(
    graph: PlanarGraph,
    line: Line3D,
    matches: Matches,
    spot: IdPlace,
    floats: &mut [f64],
    numbers: &mut [u16],
    stars: &mut [u16],
    marks: &mut [bool],
    ids: &mut [u32],
) -> Answer<LineEdge>
    requires ready { Ready limits (state_in limits graph floats.old numbers.old stars.old marks.old ids.old) }
    requires found_in { FoundIn limits line graph floats.old numbers.old stars.old matches }
    requires placed_in { PlacedIn limits line (state_in limits graph floats.old numbers.old stars.old marks.old ids.old) matches spot }
    ensures { left (reply_of result.reply) (state_in limits result.graph floats.new numbers.new stars.new marks.new ids.new)
        ≡ add limits line (state_in limits graph floats.old numbers.old stars.old marks.old ids.old) }
{
    let start = matches.start;
    let end = matches.end;
    let half = matches.half;
    let free = spot.free;
    match decide(graph, line, start, end, half, spot.known, free) {
        Err(why) => Answer {
            graph,
            reply: Err(why),
        },
        Ok(Decision::Keep(edge)) => Answer {
            graph,
            reply: Ok(LineEdge::Old(edge)),
        },
        Ok(Decision::Enter(edge)) => {
            enter_id(edge, line.line_id, spot.behind, free, numbers, ids);
            let reply = Ok(LineEdge::Old(edge));
            Answer { graph, reply }
        }
        Ok(Decision::Make(ends)) => {
            let reply = Ok(LineEdge::New(EdgeId(graph.edge_count)));
            let more = make(graph, ends, free, line, floats, numbers, stars, marks, ids);
            Answer { graph: more, reply }
        }
    }
}
