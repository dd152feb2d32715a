// Adding all records of a segment file that is held in memory. The state is tested once for the whole
// file, and not once for each segment, as a call of `add_line` for each would.
#![tactic(auto)]

ghost use Rattle.rules.specs.Limits.{limits};
ghost use Rattle.tables.specs.Regions.{state_in};
ghost use Rattle.file_entry.specs.Clause.{AddsRecords};
ghost use Rattle.file_taking.specs.Replies.{file_reply};

use calls::check_stage;
use file_taking::{FileTaken, take_file};
use tables::{Answer, PlanarGraph};

// Numbers 6, 7 and 5 refuse and change nothing. Else segments are added, and other records passed over,
// up to the file's end or to the first record that is refused: those before it stay, so that refusal is
// a part of the answer.
pub fn add_records(
    graph: PlanarGraph,
    bytes: &[u8],
    floats: &mut [f64],
    numbers: &mut [u16],
    stars: &mut [u16],
    marks: &mut [bool],
    ids: &mut [u32],
) -> Answer<FileTaken>
    ensures { AddsRecords bytes.now
        (state_in limits graph floats.old numbers.old stars.old marks.old ids.old)
        (file_reply result.reply)
        (state_in limits result.graph floats.new numbers.new stars.new marks.new ids.new) }
{
    let checked = check_stage(0, graph, floats, numbers, stars, marks, ids);
    if let Err(why) = checked {
        return Answer {
            graph,
            reply: Err(why),
        };
    }
    take_file(graph, bytes, floats, numbers, stars, marks, ids)
}
