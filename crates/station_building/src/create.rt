// Creating a graph, for a caller that hands over numbers and slices.
ghost use Rattle.std.specs.Prelude.{◌≡◌, []};
ghost use Rattle.replies.specs.Left.{lent, none, gives};
ghost use Rattle.station_building.specs.Calls.{created};

use create_entry::create_if;
use lent_marks::has_room;
use replies::{STATE_LENGTH, answer_created};

// An empty graph over the lent slices. Only their lengths are read.
#[unsafe(no_mangle)]
pub extern "C" fn tukmiheb_create(
    state: &mut [u16; STATE_LENGTH],
    floats: &[f64],
    numbers: &[u16],
    stars: &[u16],
    marks: &[u8],
    ids: &[u32],
) -> u32
    ensures { gives result (lent state.new floats.now numbers.now stars.now marks.now ids.now none [])
        ≡ created (lent state.old floats.now numbers.now stars.now marks.now ids.now none []) }
{
    let room = has_room(floats, numbers, stars, marks, ids);
    let done = create_if(room);
    answer_created(state, done)
}
