// The steps before rings, as a number with the small state and the values written on success.
ghost use Rattle.std.specs.Prelude.{[]};
ghost use Rattle.calls.specs.Replies.{step_reply};
ghost use Rattle.cut_entry.specs.Replies.{cut_reply};
ghost use Rattle.prune_entry.specs.Replies.{prune_reply};
ghost use Rattle.replies.specs.Lent.{Answered};
ghost use Rattle.replies.specs.Values.{no_values, count_value_lem, cut_values};

use crate::small::{CENSUS_LENGTH, COUNT_LENGTH, STATE_LENGTH, flag, write_state};
use cut_entry::CutEdges;
use tables::{Answer, refusal_number};

// Sorting and resetting have no values.
pub fn answer_step(state: &mut [u16; STATE_LENGTH], done: Answer<()>) -> u32
    ensures { Answered no_values (step_reply done.reply) done.graph state.old [] result state.new [] }
{
    let answer = done.reply;
    let graph = done.graph;
    match answer {
        Err(why) => refusal_number(why),
        Ok(()) => {
            write_state(state, graph);
            0
        }
    }
}

// How many dangles there were.
pub fn answer_pruned(
    state: &mut [u16; STATE_LENGTH],
    reply: &mut [u16; COUNT_LENGTH],
    done: Answer<u16>,
) -> u32
    ensures { Answered count_value_lem (prune_reply done.reply) done.graph state.old reply.old result state.new reply.new }
{
    let answer = done.reply;
    let graph = done.graph;
    match answer {
        Err(why) => refusal_number(why),
        Ok(count) => {
            *reply = [count];
            write_state(state, graph);
            0
        }
    }
}

// How many cuts there were, V, E, cycles, C, and 1 where the verdict is yes.
pub fn answer_cutting(
    state: &mut [u16; STATE_LENGTH],
    reply: &mut [u16; CENSUS_LENGTH],
    done: Answer<CutEdges>,
) -> u32
    ensures { Answered cut_values (cut_reply done.reply) done.graph state.old reply.old result state.new reply.new }
{
    let answer = done.reply;
    let graph = done.graph;
    match answer {
        Err(why) => refusal_number(why),
        Ok(cuts) => {
            let census = cuts.census;
            let verdict = flag(census.verdict);
            *reply = [
                cuts.count,
                census.vertices,
                census.edges,
                census.cycles,
                census.pieces,
                verdict,
            ];
            write_state(state, graph);
            0
        }
    }
}
