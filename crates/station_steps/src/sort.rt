// Sorting, for a caller that hands over numbers and slices.
ghost use Rattle.std.specs.Prelude.{◌≡◌, []};
ghost use Rattle.replies.specs.Left.{lent, none, gives};
ghost use Rattle.station_steps.specs.Calls.{sorted};

use lent_marks::{check_marks, read_marks};
use replies::{STATE_LENGTH, answer_step, read_state};
use tables::refusal_number;

// Sorts every star.
#[unsafe(no_mangle)]
pub extern "C" fn tukmiheb_sort_edges(
    state: &mut [u16; STATE_LENGTH],
    floats: &[f64],
    numbers: &[u16],
    stars: &mut [u16],
    marks: &[u8],
    ids: &[u32],
) -> u32
    ensures { gives result (lent state.new floats.now numbers.now stars.new marks.now ids.now none [])
        ≡ sorted (lent state.old floats.now numbers.now stars.old marks.now ids.now none []) }
{
    let graph = read_state(state);
    let checked = check_marks(graph, floats, numbers, stars, marks, ids);
    if let Err(why) = checked {
        return refusal_number(why);
    }
    let row = read_marks(marks);
    let done = sort_entry::sort_edges(graph, floats, numbers, stars, &row, ids);
    answer_step(state, done)
}
