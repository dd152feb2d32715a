// Pruning dangles: stage 1 to 2.
#![tactic(auto)]

ghost use Rattle.rules.specs.Limits.{limits};
ghost use Rattle.tables.specs.Regions.{state_in};
ghost use Rattle.prune_entry.specs.Replies.{prune_reply};
ghost use Rattle.prune_entry.specs.Clause.{Prunes};

mod regions;
mod rows;

use regions::prune_regions;
use tables::{Answer, PlanarGraph, Refusal};

// Numbers 6, 7, 5 and 8; then dangles are marked, and `out` gets their edges in the order found.
pub fn prune_dangles(
    graph: PlanarGraph,
    floats: &[f64],
    numbers: &[u16],
    stars: &mut [u16],
    marks: &mut [bool],
    ids: &[u32],
    out: &mut [u16],
) -> Answer<u16>
    ensures { Prunes
        (state_in limits graph floats.now numbers.now stars.old marks.old ids.now)
        out.old
        (prune_reply result.reply)
        (state_in limits result.graph floats.now numbers.now stars.new marks.new ids.now)
        out.new }
{
    let checked = calls::check_stage(1, graph, floats, numbers, stars, marks, ids);
    if let Err(why) = checked {
        return Answer {
            graph,
            reply: Err(why),
        };
    }
    if out.len() < usize::from(graph.edge_count) {
        return Answer {
            graph,
            reply: Err(Refusal::ListTooShort),
        };
    }
    let done = prune_regions(graph, numbers, stars, marks, out);
    let after = done.graph;
    Answer {
        graph: after,
        reply: Ok(done.count),
    }
}
