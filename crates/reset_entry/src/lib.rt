// Resetting, in any stage.
#![tactic(auto)]

ghost use Rattle.rules.specs.Limits.{limits};
ghost use Rattle.tables.specs.Regions.{state_in};
ghost use Rattle.calls.specs.Replies.{step_reply};
ghost use Rattle.reset_entry.specs.Clause.{Resets};

mod regions;

use regions::reset_regions;
use tables::{Answer, PlanarGraph};

// Numbers 6 and 7; then nothing is marked, degrees are star lengths, and the stage is 0. Stars stay
// as ordered.
pub fn reset(
    graph: PlanarGraph,
    floats: &[f64],
    numbers: &[u16],
    stars: &mut [u16],
    marks: &mut [bool],
    ids: &[u32],
) -> Answer<()>
    ensures { Resets
        (state_in limits graph floats.now numbers.now stars.old marks.old ids.now)
        (step_reply result.reply)
        (state_in limits result.graph floats.now numbers.now stars.new marks.new ids.now) }
{
    let checked = calls::check_sound(graph, floats, numbers, stars, marks, ids);
    if let Err(why) = checked {
        return Answer {
            graph,
            reply: Err(why),
        };
    }
    let done = reset_regions(graph, numbers, stars, marks);
    Answer {
        graph: done,
        reply: Ok(()),
    }
}
