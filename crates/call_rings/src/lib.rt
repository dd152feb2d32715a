// The extraction of rings is made, everything is compared with what stood there before, and the reply is
// printed with its rings and holes.
#![tactic(auto)]

mod entry;

use crate::entry::extract;
use call_image::{Change, image_of};
use call_lending::{Lists, Settings, Slices};
use call_replies::{Reply, say_holes, say_reply, say_rings};
use std::io;
use std::io::Write;
use tables::{MAX_HALF_EDGES, MAX_SHAPED, PlanarGraph, refusal_number};

// How many records of the hole list the reply says were written.
fn holes_said(reply: Result<Reply, u64>) -> usize {
    if let Ok(Reply::Rings { holes, .. }) = reply {
        return usize::from(holes);
    }
    0
}

// The extraction of rings, with a line for each ring and a line for each hole.
pub fn perform_rings<W: Write>(
    out: &mut W,
    settings: Settings,
    slices: &Slices,
    lists: &mut Lists,
) -> io::Result<PlanarGraph> {
    let before = image_of(slices, &lists.half_edges, &lists.rings);
    let made = extract(settings, slices.share(), lists.lend(MAX_HALF_EDGES));
    let after = image_of(slices, &lists.half_edges, &lists.rings);
    let reply = made
        .outcome
        .reply
        .map_err(|why| u64::from(refusal_number(why)));
    let new = made.outcome.graph;
    let change = Change {
        old: settings.graph,
        new,
        before: &before,
        after: &after,
    };
    let is_said = made.count == holes_said(reply);
    let is_kept = is_said && change.is_kept(reply);
    say_reply(out, reply, &lists.half_edges, is_kept)?;
    say_rings(out, reply, lists.share())?;
    let holes = made.list;
    say_holes(out, &holes[..made.count.min(MAX_SHAPED)])?;
    Ok(new)
}
