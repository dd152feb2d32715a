// All of ring extraction for a station but the writing of the holes.
ghost use Rattle.std.specs.Prelude.{◌≡◌};
ghost use Rattle.tables.specs.Refusals.{refusal_number_lem};
ghost use Rattle.extracting.specs.Extraction.{lists_of};
ghost use Rattle.replies.specs.Left.{lent};
ghost use Rattle.station_rings.specs.Telling.{Tells};

use holes::Hole;
use lent_marks::{check_marks, read_marks};
use replies::{STATE_LENGTH, read_state};
use ring_replies::{RINGS_LENGTH, answer_rings};
use tables::{MAX_SHAPED, Refusal, refusal_number};

// What the core tells the entry: the holes to write, and the number to answer. The records come first,
// as in `Made`.
#[derive(Clone, Copy)]
pub struct Told {
    pub list: [Hole; MAX_SHAPED],
    pub count: usize,
    pub number: u32,
}

// A refusal: no hole is to be written.
fn turned_down(why: Refusal) -> Told
    ensures { (result.number ≡ refusal_number_lem why) × (result.count ≡ 0) }
{
    let list = holes::no_holes();
    Told {
        list,
        count: 0,
        number: refusal_number(why),
    }
}

// For a hole list of `room` records: the rings are written into their lists, and the holes handed back.
pub fn rings_core(
    room: usize,
    state: &mut [u16; STATE_LENGTH],
    floats: &[f64],
    numbers: &[u16],
    stars: &[u16],
    marks: &[u8],
    ids: &[u32],
    half_edges: &mut [u16],
    ring_first: &mut [u16],
    ring_length: &mut [u16],
    ring_face: &mut [u16],
    ring_side: &mut [u8],
    ring_area: &mut [f64],
    reply: &mut [u16; RINGS_LENGTH],
) -> Told
    ensures { Tells room
        (lent state.old floats.now numbers.now stars.now marks.now ids.now (lists_of half_edges.old ring_first.old ring_length.old ring_face.old ring_side.old ring_area.old) reply.old)
        result
        (lent state.new floats.now numbers.now stars.now marks.now ids.now (lists_of half_edges.new ring_first.new ring_length.new ring_face.new ring_side.new ring_area.new) reply.new) }
{
    let graph = read_state(state);
    let checked = check_marks(graph, floats, numbers, stars, marks, ids);
    if let Err(why) = checked {
        return turned_down(why);
    }
    let row = read_marks(marks);
    let made = hole_entry::extract_core(
        room,
        graph,
        floats,
        numbers,
        stars,
        &row,
        ids,
        half_edges,
        ring_first,
        ring_length,
        ring_face,
        ring_side,
        ring_area,
    );
    let list = made.list;
    let count = made.count;
    let done = made.ringed;
    let number = answer_rings(state, reply, done);
    Told {
        list,
        count,
        number,
    }
}
