// Pruning, for a caller that hands over numbers and slices.
ghost use Rattle.std.specs.Prelude.{◌≡◌};
ghost use Rattle.replies.specs.Left.{lent, gives};
ghost use Rattle.station_cuts.specs.Calls.{pruned};

use lent_marks::{check_marks, read_marks, write_marks};
use replies::{COUNT_LENGTH, STATE_LENGTH, answer_pruned, read_state};
use tables::refusal_number;

// Marks the dangles and lists their edges. The reply is their count.
#[unsafe(no_mangle)]
pub extern "C" fn tukmiheb_prune_dangles(
    state: &mut [u16; STATE_LENGTH],
    floats: &[f64],
    numbers: &[u16],
    stars: &mut [u16],
    marks: &mut [u8],
    ids: &[u32],
    dangles: &mut [u16],
    reply: &mut [u16; COUNT_LENGTH],
) -> u32
    ensures { gives result (lent state.new floats.now numbers.now stars.new marks.new ids.now dangles.new reply.new)
        ≡ pruned (lent state.old floats.now numbers.now stars.old marks.old ids.now dangles.old reply.old) }
{
    let graph = read_state(state);
    let checked = check_marks(graph, floats, numbers, stars, marks, ids);
    if let Err(why) = checked {
        return refusal_number(why);
    }
    let mut row = read_marks(marks);
    let done = prune_entry::prune_dangles(graph, floats, numbers, stars, &mut row, ids, dangles);
    write_marks(&row, marks);
    answer_pruned(state, reply, done)
}
