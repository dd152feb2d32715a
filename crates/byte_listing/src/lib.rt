// The listing of a segment file that is held in memory.
#![tactic(auto)]

ghost use Rattle.std.specs.Prelude.{◌≡◌};
ghost use Rattle.byte_listing.specs.Clause.{listed_reply, ListsBytes};

use listing_steps::LISTING_ROOM;
use tables::{FLOATS, IDS, MARKS, NUMBERS, PlanarGraph, Refusal, STARS};
use taken_text::put_taken;

// No node, no edge, stage 0: a new graph over tables of our own, which have room, so that number 6
// need not be tested.
pub fn empty_graph() -> PlanarGraph
    ensures { result ≡ record { node_count = 0; edge_count = 0; stage = 0 } }
{
    PlanarGraph {
        node_count: 0,
        edge_count: 0,
        stage: 0,
    }
}

// Lists a segment file at the front of `out` and answers how many bytes the listing has. An `out`
// shorter than `LISTING_ROOM` is refused with number 8, and nothing is written.
pub fn list_bytes(bytes: &[u8], out: &mut [u8]) -> Result<usize, Refusal>
    ensures { ListsBytes bytes.now out.old (listed_reply result) out.new }
{
    let short = out.len() < LISTING_ROOM;
    if short {
        return Err(Refusal::ListTooShort);
    }
    let mut floats = [0.0f64; FLOATS];
    let mut numbers = [0u16; NUMBERS];
    let mut stars = [0u16; STARS];
    let mut marks = [false; MARKS];
    let mut ids = [0u32; IDS];
    let taken = intake::take_records(
        empty_graph(),
        bytes,
        &mut floats,
        &mut numbers,
        &mut stars,
        &mut marks,
        &mut ids,
    );
    let after = taken.graph;
    let reply = taken.reply;
    let records = taken.count as u64;
    let size = put_taken(
        after, records, reply, &floats, &numbers, &mut stars, &mut marks, &ids, out,
    );
    Ok(size)
}
