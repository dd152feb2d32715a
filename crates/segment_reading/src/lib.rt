// Reading a segment file as it comes: a buffer is filled, its records are taken, and what is left of it
// is moved to its front for the next read. A record that is longer than the buffer is passed over
// without being held.
#![tactic(auto)]

ghost use Rattle.std.specs.Prelude.{◌+◌};
ghost use Rattle.adding.specs.Outcomes.{Ready};
ghost use Rattle.rules.specs.Limits.{limits};
ghost use Rattle.tables.specs.Regions.{state_in};
ghost use Rattle.segment_reading.specs.Reading.{ReadAll};

use buffered_input::Source;
use long_records::{BUFFER_BYTES, capped, goes_on};
use reading_turns::read_turn;
use std::io::Read;
use tables::PlanarGraph;
use taking::TakeRefusal;

// What all turns together left: the counts and the stage, how many bytes came and how many records were
// taken, the answer to them, and how the input ended.
#[derive(Clone, Copy)]
pub struct ReadOut {
    pub graph: PlanarGraph,
    pub bytes: u64,
    pub records: u64,
    pub reply: Result<(), TakeRefusal>,
    pub source: Source,
}

// Reads to the end of the input, to the first bad record or to a read that fails.
pub fn read_segments<R: Read>(
    graph: PlanarGraph,
    input: &mut R,
    floats: &mut [f64],
    numbers: &mut [u16],
    stars: &mut [u16],
    marks: &mut [bool],
    ids: &mut [u32],
) -> ReadOut
    requires { Ready limits (state_in limits graph floats.old numbers.old stars.old marks.old ids.old) }
    ensures { ReadAll
        (state_in limits graph floats.old numbers.old stars.old marks.old ids.old)
        result
        (state_in limits result.graph floats.new numbers.new stars.new marks.new ids.new) }
{
    let mut buffer = [0u8; BUFFER_BYTES];
    let mut current = graph;
    let mut kept = 0;
    let mut bytes: u64 = 0;
    let mut records: u64 = 0;
    loop {
        let turn = read_turn(
            current,
            input,
            &mut buffer,
            kept,
            floats,
            numbers,
            stars,
            marks,
            ids,
        );
        let after = turn.graph;
        let reply = turn.reply;
        let latest = turn.source;
        bytes += turn.got as u64;
        records += turn.count as u64;
        let source = capped(latest, bytes);
        if !goes_on(reply, source) {
            return ReadOut {
                graph: after,
                bytes,
                records,
                reply,
                source,
            };
        }
        kept = turn.kept;
        current = after;
    }
}
