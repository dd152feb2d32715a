// What ring extraction answers, for a caller that hands over numbers.
#![tactic(auto)]

ghost use Rattle.hole_entry.specs.Replies.{rings_reply};
ghost use Rattle.replies.specs.Lent.{Answered};
ghost use Rattle.ring_replies.specs.Values.{ring_values};

use hole_entry::RingsAndHoles;
use replies::{CENSUS_LENGTH, STATE_LENGTH, flag, write_state};
use tables::{Answer, refusal_number};

// Behind the values of cutting the comparisons of naming, and how many half-edges and holes were written.
pub const RINGS_LENGTH: usize = CENSUS_LENGTH + 3;

// The number answered, with the small state and the values written on success.
pub fn answer_rings(
    state: &mut [u16; STATE_LENGTH],
    reply: &mut [u16; RINGS_LENGTH],
    done: Answer<RingsAndHoles>,
) -> u32
    ensures { Answered ring_values (rings_reply done.reply) done.graph state.old reply.old result state.new reply.new }
{
    let answer = done.reply;
    let graph = done.graph;
    match answer {
        Err(why) => refusal_number(why),
        Ok(listed) => {
            let rings = listed.rings;
            let census = rings.census;
            let half_edges = listed.half_edges;
            let holes = listed.holes;
            let verdict = flag(census.verdict);
            *reply = [
                rings.count,
                census.vertices,
                census.edges,
                census.cycles,
                census.pieces,
                verdict,
                rings.comparisons,
                half_edges,
                holes,
            ];
            write_state(state, graph);
            0
        }
    }
}
