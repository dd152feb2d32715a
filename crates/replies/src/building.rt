// Creating and adding, as a number with the small state and the values written on success.
ghost use Rattle.std.specs.Prelude.{◌≡◌, []};
ghost use Rattle.adding.specs.Outcomes.{edge_added, reply_of};
ghost use Rattle.create_entry.specs.Replies.{created_reply, created_graph};
ghost use Rattle.replies.specs.Lent.{graph_in, Answered};
ghost use Rattle.replies.specs.Values.{no_values, added_values};

use crate::small::{ADDED_LENGTH, STATE_LENGTH, write_state};
use adding::LineEdge;
use tables::{Answer, PlanarGraph, Refusal, refusal_number};

// Where it is refused, whatever graph the caller had stays.
pub fn answer_created(state: &mut [u16; STATE_LENGTH], done: Result<PlanarGraph, Refusal>) -> u32
    ensures { Answered no_values (created_reply done) (created_graph (graph_in state.old) done) state.old [] result state.new [] }
{
    match done {
        Err(why) => refusal_number(why),
        Ok(graph) => {
            write_state(state, graph);
            0
        }
    }
}

// The edge, and 1 where it is new, else 0.
fn edge_values(edge: LineEdge) -> [u16; ADDED_LENGTH]
    ensures { result ≡ added_values (edge_added edge) }
{
    match edge {
        LineEdge::New(edge) => [edge.0, 1],
        LineEdge::Old(edge) => [edge.0, 0],
    }
}

// A line's edge.
pub fn answer_added(
    state: &mut [u16; STATE_LENGTH],
    reply: &mut [u16; ADDED_LENGTH],
    done: Answer<LineEdge>,
) -> u32
    ensures { Answered added_values (reply_of done.reply) done.graph state.old reply.old result state.new reply.new }
{
    let answer = done.reply;
    let graph = done.graph;
    match answer {
        Err(why) => refusal_number(why),
        Ok(edge) => {
            *reply = edge_values(edge);
            write_state(state, graph);
            0
        }
    }
}
