// Cutting: stage 2 to 3.
#![tactic(auto)]

ghost use Rattle.rules.specs.Limits.{limits};
ghost use Rattle.tables.specs.Regions.{state_in};
ghost use Rattle.cut_entry.specs.Replies.{cut_reply};
ghost use Rattle.cut_entry.specs.Clause.{Cuts};

mod regions;

use cycles::Census;
use regions::cut_region;
use tables::{Answer, PlanarGraph, Refusal};

// What cutting marked: how many cut edges, and the census taken before.
#[derive(Clone, Copy)]
pub struct CutEdges {
    pub count: u16,
    pub census: Census,
}

// Numbers 6, 7, 5 and 8; then edges whose halves lie in one maximal ring are marked, and `out` gets
// their numbers, rising. The census is counted before that.
pub fn delete_cut_edges(
    graph: PlanarGraph,
    floats: &[f64],
    numbers: &[u16],
    stars: &[u16],
    marks: &mut [bool],
    ids: &[u32],
    out: &mut [u16],
) -> Answer<CutEdges>
    ensures { Cuts
        (state_in limits graph floats.now numbers.now stars.now marks.old ids.now)
        out.old
        (cut_reply result.reply)
        (state_in limits result.graph floats.now numbers.now stars.now marks.new ids.now)
        out.new }
{
    let checked = calls::check_stage(2, graph, floats, numbers, stars, marks, ids);
    if let Err(why) = checked {
        return Answer {
            graph,
            reply: Err(why),
        };
    }
    if out.len() < usize::from(graph.edge_count) {
        return Answer {
            graph,
            reply: Err(Refusal::ListTooShort),
        };
    }
    let done = cut_region(graph, floats, numbers, stars, marks, out);
    let after = done.graph;
    let cuts = CutEdges {
        count: done.count,
        census: done.census,
    };
    Answer {
        graph: after,
        reply: Ok(cuts),
    }
}
