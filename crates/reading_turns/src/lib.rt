// One turn of reading: a buffer is filled, its records are taken, and what is left of it is moved to its
// front for the next turn.
#![tactic(auto)]

ghost use Rattle.std.specs.Prelude.{◌+◌, take};
ghost use Rattle.adding.specs.Outcomes.{Ready};
ghost use Rattle.rules.specs.Limits.{limits};
ghost use Rattle.tables.specs.Regions.{state_in};
ghost use Rattle.long_records.specs.Turns.{Kept, Turned};

use long_records::{Turn, is_long, skip_turn};
use std::io::Read;
use tables::PlanarGraph;

// One read behind the bytes that were kept, and the records that are there then.
pub fn read_turn<R: Read>(
    graph: PlanarGraph,
    input: &mut R,
    buffer: &mut [u8],
    kept: usize,
    floats: &mut [f64],
    numbers: &mut [u16],
    stars: &mut [u16],
    marks: &mut [bool],
    ids: &mut [u32],
) -> Turn
    requires { Ready limits (state_in limits graph floats.old numbers.old stars.old marks.old ids.old) × Kept kept buffer.old }
    ensures { Turned (take kept buffer.old) buffer.new
        (state_in limits graph floats.old numbers.old stars.old marks.old ids.old)
        result
        (state_in limits result.graph floats.new numbers.new stars.new marks.new ids.new) }
{
    if is_long(buffer, kept) {
        return skip_turn(graph, input, buffer, kept);
    }
    let brought = buffered_input::read_some(input, &mut buffer[kept..]);
    let source = brought.source;
    let filled = kept + brought.got;
    let taken = intake::take_records(graph, &buffer[..filled], floats, numbers, stars, marks, ids);
    let after = taken.graph;
    let reply = taken.reply;
    Turn {
        graph: after,
        got: brought.got,
        kept: buffered_input::keep_rest(buffer, taken.bytes, filled),
        count: taken.count,
        reply,
        source,
    }
}
