// Adding a segment, for a caller that hands over numbers and slices.
ghost use Rattle.std.specs.Prelude.{◌≡◌};
ghost use Rattle.replies.specs.Left.{lent, none, gives};
ghost use Rattle.station_building.specs.Calls.{line_from_lem, added};

use geometry::{Coord3D, Line3D};
use lent_marks::{check_marks, read_marks, write_marks};
use replies::{ADDED_LENGTH, STATE_LENGTH, answer_added, read_state};
use tables::refusal_number;

// A line by its numbers.
fn line_from(x1: f64, y1: f64, z1: f64, x2: f64, y2: f64, z2: f64, line_id: u32) -> Line3D
    ensures { result ≡ line_from_lem x1 y1 z1 x2 y2 z2 line_id }
{
    Line3D {
        start: Coord3D {
            x: x1,
            y: y1,
            z: z1,
        },
        end: Coord3D {
            x: x2,
            y: y2,
            z: z2,
        },
        line_id,
    }
}

// Adds a segment from (x1, y1, z1) to (x2, y2, z2). The reply is the edge, and 1 where it is new.
#[unsafe(no_mangle)]
pub extern "C" fn tukmiheb_add_line(
    state: &mut [u16; STATE_LENGTH],
    x1: f64,
    y1: f64,
    z1: f64,
    x2: f64,
    y2: f64,
    z2: f64,
    line_id: u32,
    floats: &mut [f64],
    numbers: &mut [u16],
    stars: &mut [u16],
    marks: &mut [u8],
    ids: &mut [u32],
    reply: &mut [u16; ADDED_LENGTH],
) -> u32
    ensures { gives result (lent state.new floats.new numbers.new stars.new marks.new ids.new none reply.new)
        ≡ added (line_from_lem x1 y1 z1 x2 y2 z2 line_id) (lent state.old floats.old numbers.old stars.old marks.old ids.old none reply.old) }
{
    let graph = read_state(state);
    let checked = check_marks(graph, floats, numbers, stars, marks, ids);
    if let Err(why) = checked {
        return refusal_number(why);
    }
    let line = line_from(x1, y1, z1, x2, y2, z2, line_id);
    let mut row = read_marks(marks);
    let done = add_entry::add_line(graph, line, floats, numbers, stars, &mut row, ids);
    write_marks(&row, marks);
    answer_added(state, reply, done)
}
