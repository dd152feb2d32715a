// One call of a public entry, and its reply in one form for all of them. The extraction of rings, which is
// lent the most lists, is in call_rings.
#![tactic(auto)]

use adding::LineEdge;
use call_lending::{LentSlices, Settings, first};
use call_list::GraphCall;
use call_replies::Reply;
use geometry::Line3D;
use tables::{Answer, PlanarGraph};

// What a call left, its value in the form of all replies.
fn told<T: Drop, F: FnOnce(T) -> Reply>(done: Answer<T>, tell: F) -> Answer<Reply>
    requires { F.IsAlwaysCallable tell }
{
    Answer {
        graph: done.graph,
        reply: done.reply.map(tell),
    }
}

// A line joins two nodes by a new edge, or by the one that was there.
fn joined(edge: LineEdge) -> Reply {
    match edge {
        LineEdge::New(edge) => Reply::New(edge),
        LineEdge::Old(edge) => Reply::Old(edge),
    }
}

// A refusal leaves the graph that was there.
fn create(graph: PlanarGraph, lent: LentSlices<'_>) -> Answer<Reply> {
    let LentSlices {
        floats,
        numbers,
        stars,
        marks,
        ids,
    } = lent;
    match create_entry::create(floats, numbers, stars, marks, ids) {
        Ok(made) => Answer {
            graph: made,
            reply: Ok(Reply::Created),
        },
        Err(why) => Answer {
            graph,
            reply: Err(why),
        },
    }
}

fn add(graph: PlanarGraph, line: Line3D, lent: LentSlices<'_>) -> Answer<Reply> {
    let LentSlices {
        floats,
        numbers,
        stars,
        marks,
        ids,
    } = lent;
    let done = add_entry::add_line(graph, line, floats, numbers, stars, marks, ids);
    told(done, |edge| joined(edge))
}

fn sort(graph: PlanarGraph, lent: LentSlices<'_>) -> Answer<Reply> {
    let LentSlices {
        floats,
        numbers,
        stars,
        marks,
        ids,
    } = lent;
    let done = sort_entry::sort_edges(graph, floats, numbers, stars, marks, ids);
    told(done, |()| Reply::Sorted)
}

fn prune(graph: PlanarGraph, lent: LentSlices<'_>, listed: &mut [u16]) -> Answer<Reply> {
    let LentSlices {
        floats,
        numbers,
        stars,
        marks,
        ids,
    } = lent;
    let done = prune_entry::prune_dangles(graph, floats, numbers, stars, marks, ids, listed);
    told(done, |count| Reply::Dangles(count))
}

fn cut(graph: PlanarGraph, lent: LentSlices<'_>, listed: &mut [u16]) -> Answer<Reply> {
    let LentSlices {
        floats,
        numbers,
        stars,
        marks,
        ids,
    } = lent;
    let done = cut_entry::delete_cut_edges(graph, floats, numbers, stars, marks, ids, listed);
    told(
        done,
        |cuts| Reply::Cuts {
            count: cuts.count,
            census: cuts.census,
        },
    )
}

fn reset(graph: PlanarGraph, lent: LentSlices<'_>) -> Answer<Reply> {
    let LentSlices {
        floats,
        numbers,
        stars,
        marks,
        ids,
    } = lent;
    let done = reset_entry::reset(graph, floats, numbers, stars, marks, ids);
    told(done, |()| Reply::WasReset)
}

// The entry that a line of the call list names, but for the extraction of rings; pruning and cutting list
// edges in `listed`. The entry is lent the slices and this list as they are set to be lent.
pub fn enter(
    call: GraphCall,
    settings: Settings,
    slices: LentSlices<'_>,
    listed: &mut [u16],
) -> Answer<Reply> {
    let graph = settings.graph;
    let lent = slices.lend(settings.short);
    let listed = first(listed, settings.length);
    match call {
        GraphCall::Create => create(graph, lent),
        GraphCall::Add(line) => add(graph, line, lent),
        GraphCall::Sort => sort(graph, lent),
        GraphCall::Prune => prune(graph, lent, listed),
        GraphCall::Cut => cut(graph, lent, listed),
        GraphCall::Reset => reset(graph, lent),
    }
}
