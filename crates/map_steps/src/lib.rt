// From a graph that was built to one whose cut edges are marked: sorting, pruning and cutting. No step
// refuses a graph that is sound and in the stage before it. Its answer has a case for a refusal all the
// same, and `match` wants an arm for it: that arm is proved never to be taken.
#![tactic(auto)]

ghost use Rattle.std.specs.Prelude.{◌≡◌};
ghost use Rattle.rules.specs.Limits.{limits};
ghost use Rattle.rules.specs.Stages.{sorted_state};
ghost use Rattle.tables.specs.Regions.{state_in};
ghost use Rattle.map_steps.specs.Stands.{Stands};
ghost use Rattle.map_steps.specs.Maps.{pruning, cutting, cut_map_lem};

use tables::{MAX_EDGES, PlanarGraph};

// The counts and the stage after a step that marks edges, and how many it marked.
#[derive(Clone, Copy)]
struct Marked {
    graph: PlanarGraph,
    count: u16,
}

// The counts and the stage of a cut graph, and how many dangles and cut edges it has.
#[derive(Clone, Copy)]
pub struct CutMap {
    pub graph: PlanarGraph,
    pub dangles: u16,
    pub cuts: u16,
}

// Built: every star is sorted.
fn sort_map(
    graph: PlanarGraph,
    floats: &[f64],
    numbers: &[u16],
    stars: &mut [u16],
    marks: &[bool],
    ids: &[u32],
) -> PlanarGraph
    requires { Stands 0 (state_in limits graph floats.now numbers.now stars.old marks.now ids.now) }
    ensures { state_in limits result floats.now numbers.now stars.new marks.now ids.now
        ≡ sorted_state (state_in limits graph floats.now numbers.now stars.old marks.now ids.now) }
{
    let done = sort_entry::sort_edges(graph, floats, numbers, stars, marks, ids);
    done.graph
}

// Sorted: dangles are marked.
fn prune_map(
    graph: PlanarGraph,
    floats: &[f64],
    numbers: &[u16],
    stars: &mut [u16],
    marks: &mut [bool],
    ids: &[u32],
) -> Marked
    requires { Stands 1 (state_in limits graph floats.now numbers.now stars.old marks.old ids.now) }
    ensures { record { state = state_in limits result.graph floats.now numbers.now stars.new marks.new ids.now; count = result.count }
        ≡ pruning (state_in limits graph floats.now numbers.now stars.old marks.old ids.now) }
{
    let mut dangles = [0u16; MAX_EDGES];
    let done = prune_entry::prune_dangles(graph, floats, numbers, stars, marks, ids, &mut dangles);
    let after = done.graph;
    let reply = done.reply;
    match reply {
        Ok(count) => Marked {
            graph: after,
            count,
        },
        Err(_) => Marked {
            graph: after,
            count: 0,
        },
    }
}

// Pruned: cut edges are marked.
fn mark_cuts(
    graph: PlanarGraph,
    floats: &[f64],
    numbers: &[u16],
    stars: &[u16],
    marks: &mut [bool],
    ids: &[u32],
) -> Marked
    requires { Stands 2 (state_in limits graph floats.now numbers.now stars.now marks.old ids.now) }
    ensures { record { state = state_in limits result.graph floats.now numbers.now stars.now marks.new ids.now; count = result.count }
        ≡ cutting (state_in limits graph floats.now numbers.now stars.now marks.old ids.now) }
{
    let mut cut_edges = [0u16; MAX_EDGES];
    let done = cut_entry::delete_cut_edges(
        graph,
        floats,
        numbers,
        stars,
        marks,
        ids,
        &mut cut_edges,
    );
    let after = done.graph;
    let reply = done.reply;
    match reply {
        Ok(cuts) => Marked {
            graph: after,
            count: cuts.count,
        },
        Err(_) => Marked {
            graph: after,
            count: 0,
        },
    }
}

// A graph that was built is sorted, pruned and cut.
pub fn cut_map(
    graph: PlanarGraph,
    floats: &[f64],
    numbers: &[u16],
    stars: &mut [u16],
    marks: &mut [bool],
    ids: &[u32],
) -> CutMap
    requires { Stands 0 (state_in limits graph floats.now numbers.now stars.old marks.old ids.now) }
    ensures { record { state = state_in limits result.graph floats.now numbers.now stars.new marks.new ids.now; dangles = result.dangles; cuts = result.cuts }
        ≡ cut_map_lem (state_in limits graph floats.now numbers.now stars.old marks.old ids.now) }
{
    let sorted = sort_map(graph, floats, numbers, stars, marks, ids);
    let pruned = prune_map(sorted, floats, numbers, stars, marks, ids);
    let cut = mark_cuts(pruned.graph, floats, numbers, stars, marks, ids);
    let after = cut.graph;
    CutMap {
        graph: after,
        dangles: pruned.count,
        cuts: cut.count,
    }
}
