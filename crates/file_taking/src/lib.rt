// A segment file that is held in memory, taken into a graph that passed its tests, and what is answered.
#![tactic(auto)]

ghost use Rattle.std.specs.Prelude.{◌≡◌};
ghost use Rattle.adding.specs.Outcomes.{Ready};
ghost use Rattle.rules.specs.Limits.{limits};
ghost use Rattle.tables.specs.Regions.{state_in};
ghost use Rattle.calls.specs.Replies.{left};
ghost use Rattle.taking.specs.Taking.{take_file_lem};
ghost use Rattle.taking.specs.Answers.{reply_of};
ghost use Rattle.file_taking.specs.FileAdding.{end_number_lem, records_taken};
ghost use Rattle.file_taking.specs.Replies.{file_reply};

use tables::{Answer, PlanarGraph};
use taking::{TakeRefusal, take_number};

// How many records were taken, those passed over among them, and what ended it: the file, or a refusal.
#[derive(Clone, Copy)]
pub struct FileTaken {
    pub count: usize,
    pub ended: Result<(), TakeRefusal>,
}

// The number of what ended the taking of records, 0 where the file did.
pub fn end_number(reply: Result<(), TakeRefusal>) -> u32
    ensures { result ≡ end_number_lem (reply_of reply) }
{
    match reply {
        Ok(()) => 0,
        Err(why) => take_number(why),
    }
}

// The file from its first byte to its end or to its first bad record, into a graph in stage 0 that
// passed numbers 6 and 7.
pub fn take_file(
    graph: PlanarGraph,
    bytes: &[u8],
    floats: &mut [f64],
    numbers: &mut [u16],
    stars: &mut [u16],
    marks: &mut [bool],
    ids: &mut [u32],
) -> Answer<FileTaken>
    requires { Ready limits (state_in limits graph floats.old numbers.old stars.old marks.old ids.old) }
    ensures { left (file_reply result.reply) (state_in limits result.graph floats.new numbers.new stars.new marks.new ids.new)
        ≡ records_taken (take_file_lem limits bytes.now (state_in limits graph floats.old numbers.old stars.old marks.old ids.old)) }
{
    let taken = intake::take_records(graph, bytes, floats, numbers, stars, marks, ids);
    let after = taken.graph;
    let file = FileTaken {
        count: taken.count,
        ended: taken.reply,
    };
    Answer {
        graph: after,
        reply: Ok(file),
    }
}
