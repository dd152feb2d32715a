// Cutting, for a caller that hands over numbers and slices.
ghost use Rattle.std.specs.Prelude.{◌≡◌};
ghost use Rattle.replies.specs.Left.{lent, gives};
ghost use Rattle.station_cuts.specs.Calls.{cut};

use lent_marks::{check_marks, read_marks, write_marks};
use replies::{CENSUS_LENGTH, STATE_LENGTH, answer_cutting, read_state};
use tables::refusal_number;

// Marks the cut edges and lists them. The reply is their count, V, E, cycles, C and the verdict.
#[unsafe(no_mangle)]
pub extern "C" fn tukmiheb_delete_cut_edges(
    state: &mut [u16; STATE_LENGTH],
    floats: &[f64],
    numbers: &[u16],
    stars: &[u16],
    marks: &mut [u8],
    ids: &[u32],
    cuts: &mut [u16],
    reply: &mut [u16; CENSUS_LENGTH],
) -> u32
    ensures { gives result (lent state.new floats.now numbers.now stars.now marks.new ids.now cuts.new reply.new)
        ≡ cut (lent state.old floats.now numbers.now stars.now marks.old ids.now cuts.old reply.old) }
{
    let graph = read_state(state);
    let checked = check_marks(graph, floats, numbers, stars, marks, ids);
    if let Err(why) = checked {
        return refusal_number(why);
    }
    let mut row = read_marks(marks);
    let done = cut_entry::delete_cut_edges(graph, floats, numbers, stars, &mut row, ids, cuts);
    write_marks(&row, marks);
    answer_cutting(state, reply, done)
}
