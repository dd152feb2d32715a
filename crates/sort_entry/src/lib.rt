// Sorting the stars: stage 0 to 1.
#![tactic(auto)]

ghost use Rattle.rules.specs.Limits.{limits};
ghost use Rattle.tables.specs.Regions.{state_in};
ghost use Rattle.calls.specs.Replies.{step_reply};
ghost use Rattle.sort_entry.specs.Clause.{Sorts};

mod regions;

use regions::sort_region;
use tables::{Answer, PlanarGraph};

// Numbers 6, 7 and 5; then every star is put in angular order, and equal angles keep theirs.
pub fn sort_edges(
    graph: PlanarGraph,
    floats: &[f64],
    numbers: &[u16],
    stars: &mut [u16],
    marks: &[bool],
    ids: &[u32],
) -> Answer<()>
    ensures { Sorts
        (state_in limits graph floats.now numbers.now stars.old marks.now ids.now)
        (step_reply result.reply)
        (state_in limits result.graph floats.now numbers.now stars.new marks.now ids.now) }
{
    let checked = calls::check_stage(0, graph, floats, numbers, stars, marks, ids);
    if let Err(why) = checked {
        return Answer {
            graph,
            reply: Err(why),
        };
    }
    let done = sort_region(graph, floats, numbers, stars);
    Answer {
        graph: done,
        reply: Ok(()),
    }
}
