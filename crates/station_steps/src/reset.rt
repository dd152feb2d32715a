// Resetting, for a caller that hands over numbers and slices.
ghost use Rattle.std.specs.Prelude.{◌≡◌, []};
ghost use Rattle.replies.specs.Left.{lent, none, gives};
ghost use Rattle.station_steps.specs.Calls.{was_reset};

use lent_marks::{check_marks, read_marks, write_marks};
use replies::{STATE_LENGTH, answer_step, read_state};
use tables::refusal_number;

// Back to building: degrees from the stars, no marks, stars as they are ordered.
#[unsafe(no_mangle)]
pub extern "C" fn tukmiheb_reset(
    state: &mut [u16; STATE_LENGTH],
    floats: &[f64],
    numbers: &[u16],
    stars: &mut [u16],
    marks: &mut [u8],
    ids: &[u32],
) -> u32
    ensures { gives result (lent state.new floats.now numbers.now stars.new marks.new ids.now none [])
        ≡ was_reset (lent state.old floats.now numbers.now stars.old marks.old ids.now none []) }
{
    let graph = read_state(state);
    let checked = check_marks(graph, floats, numbers, stars, marks, ids);
    if let Err(why) = checked {
        return refusal_number(why);
    }
    let mut row = read_marks(marks);
    let done = reset_entry::reset(graph, floats, numbers, stars, &mut row, ids);
    write_marks(&row, marks);
    answer_step(state, done)
}
