// The text of what was taken from a segment file: a listing, or the line of the first refusal.
#![tactic(auto)]

ghost use Rattle.rules.specs.Limits.{limits};
ghost use Rattle.tables.specs.Regions.{state_in};
ghost use Rattle.taking.specs.Answers.{reply_of};
ghost use Rattle.lists.specs.Buffer.{Put};
ghost use Rattle.listing_steps.specs.Due.{Due};
ghost use Rattle.taken_text.specs.File.{text_of};

use tables::PlanarGraph;
use taking::{TakeRefusal, take_number};

// The text of what was taken, at the front of `out`: the line of the refusal that record `records` met,
// or the listing of the graph. Answers how many bytes it has.
pub fn put_taken(
    graph: PlanarGraph,
    records: u64,
    reply: Result<(), TakeRefusal>,
    floats: &[f64],
    numbers: &[u16],
    stars: &mut [u16],
    marks: &mut [bool],
    ids: &[u32],
    out: &mut [u8],
) -> usize
    requires { Due 0 (state_in limits graph floats.now numbers.now stars.old marks.old ids.now) out.old }
    ensures { Put 0 (text_of (reply_of reply) records (state_in limits graph floats.now numbers.now stars.old marks.old ids.now)) out.old out.new result }
{
    match reply {
        Ok(()) => listing_steps::put_listing(graph, floats, numbers, stars, marks, ids, out),
        Err(why) => {
            let shown = u64::from(take_number(why));
            listing_text::put_refusal(out, 0, shown, records)
        }
    }
}
