// Adding to a graph whose nodes and half-edges are kept chained. The places that line ids use are marked
// once, and the lowest free one only moves on.
#![tactic(auto)]

ghost use Rattle.std.specs.Prelude.{◌≡◌};
ghost use Rattle.rules.specs.Limits.{limits};
ghost use Rattle.rules.specs.Adding.{add};
ghost use Rattle.tables.specs.Regions.{state_in};
ghost use Rattle.line_ids.specs.Free.{FreeAt};
ghost use Rattle.calls.specs.Replies.{left};
ghost use Rattle.adding.specs.Outcomes.{Ready, reply_of};
ghost use Rattle.lookup.specs.Indexed.{Indexed};

use adding::LineEdge;
use chaining::{chain_more, find_chained};
use geometry::Line3D;
use making::{IdPlace, add_found};
use placing::{free_after, seek_line};
use tables::{MAX_PAIRS, PlanarGraph, Refusal};

// The state after an addition, its answer, and the lowest free place for the next one, MAX_PAIRS where
// there is none.
#[derive(Clone, Copy)]
pub struct Addition {
    pub graph: PlanarGraph,
    pub reply: Result<LineEdge, Refusal>,
    pub free: u16,
}

// Adds a line to a graph that is roomy, sound, in stage 0 and chained, with the lowest free place told,
// and chains what is new.
pub fn add_chained(
    graph: PlanarGraph,
    line: Line3D,
    free: u16,
    used: &[bool; MAX_PAIRS],
    floats: &mut [f64],
    numbers: &mut [u16],
    stars: &mut [u16],
    marks: &mut [bool],
    ids: &mut [u32],
    node_chains: &mut [u16],
    half_chains: &mut [u16],
) -> Addition
    requires ready { Ready limits (state_in limits graph floats.old numbers.old stars.old marks.old ids.old) }
    requires free_at { FreeAt limits (state_in limits graph floats.old numbers.old stars.old marks.old ids.old) used.now free }
    requires indexed { Indexed limits (state_in limits graph floats.old numbers.old stars.old marks.old ids.old) node_chains.old half_chains.old }
    ensures outcome { left (reply_of result.reply) (state_in limits result.graph floats.new numbers.new stars.new marks.new ids.new)
        ≡ add limits line (state_in limits graph floats.old numbers.old stars.old marks.old ids.old) }
    ensures place { FreeAt limits (state_in limits result.graph floats.new numbers.new stars.new marks.new ids.new) used.now result.free }
    ensures chains { Indexed limits (state_in limits result.graph floats.new numbers.new stars.new marks.new ids.new) node_chains.new half_chains.new }
{
    let found = find_chained(
        graph,
        line,
        floats,
        numbers,
        stars,
        node_chains,
        half_chains,
    );
    let half = found.half;
    let sought = seek_line(graph.edge_count, half, line.line_id, numbers, ids);
    let known = sought.known;
    let behind = sought.behind;
    let spot = IdPlace {
        known,
        behind,
        free,
    };
    let added = add_found(graph, line, found, spot, floats, numbers, stars, marks, ids);
    let new = added.graph;
    let reply = added.reply;
    chain_more(graph, new, floats, numbers, stars, node_chains, half_chains);
    let next = free_after(reply, known, free, used);
    Addition {
        graph: new,
        reply,
        free: next,
    }
}
