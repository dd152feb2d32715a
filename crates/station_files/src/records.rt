// Adding the records of a segment file that is held in memory, for a caller that hands over numbers and
// slices.
ghost use Rattle.std.specs.Prelude.{◌≡◌};
ghost use Rattle.replies.specs.Left.{lent, none, gives};
ghost use Rattle.station_files.specs.Calls.{records_added};

use crate::answer::{FILE_LENGTH, answer_records};
use lent_marks::{check_marks, read_marks, write_marks};
use replies::{STATE_LENGTH, read_state};
use tables::refusal_number;

// Adds the file's records, with the tables tested once. The reply is how many were taken, and the
// number of what ended it: 0 at the file's end, else the refusal of the record after those taken.
#[unsafe(no_mangle)]
pub extern "C" fn tukmiheb_add_records(
    state: &mut [u16; STATE_LENGTH],
    file: &[u8],
    floats: &mut [f64],
    numbers: &mut [u16],
    stars: &mut [u16],
    marks: &mut [u8],
    ids: &mut [u32],
    reply: &mut [u64; FILE_LENGTH],
) -> u32
    ensures { gives result (lent state.new floats.new numbers.new stars.new marks.new ids.new none reply.new)
        ≡ records_added file.now (lent state.old floats.old numbers.old stars.old marks.old ids.old none reply.old) }
{
    let graph = read_state(state);
    let checked = check_marks(graph, floats, numbers, stars, marks, ids);
    if let Err(why) = checked {
        return refusal_number(why);
    }
    let mut row = read_marks(marks);
    let done = file_entry::add_records(graph, file, floats, numbers, stars, &mut row, ids);
    write_marks(&row, marks);
    answer_records(state, reply, done)
}
