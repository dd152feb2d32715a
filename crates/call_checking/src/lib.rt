// A call is made, everything is compared with what stood there before, and the reply is printed.
#![tactic(auto)]

use call_entries::enter;
use call_image::{Change, image_of};
use call_lending::{RingLists, Settings, Slices};
use call_list::GraphCall;
use call_replies::say_reply;
use std::io;
use std::io::Write;
use tables::{MAX_HALF_EDGES, PlanarGraph, refusal_number};

// Any call but the extraction of rings; pruning and cutting list edges where the half-edges of rings go. The
// other lists of rings are lent to see that they stay.
pub fn perform<W: Write>(
    out: &mut W,
    call: GraphCall,
    settings: Settings,
    slices: &mut Slices,
    half_edges: &mut [u16; MAX_HALF_EDGES],
    rings: &RingLists,
) -> io::Result<PlanarGraph> {
    let before = image_of(slices, half_edges, rings);
    let done = enter(call, settings, slices.lend(None), half_edges);
    let after = image_of(slices, half_edges, rings);
    let reply = done.reply.map_err(|why| u64::from(refusal_number(why)));
    let new = done.graph;
    let change = Change {
        old: settings.graph,
        new,
        before: &before,
        after: &after,
    };
    let is_kept = change.is_kept(reply);
    say_reply(out, reply, half_edges, is_kept)?;
    Ok(new)
}
