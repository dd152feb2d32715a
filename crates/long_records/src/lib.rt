// A record that is longer than the buffer: it is passed over without being held. And what a turn of reading
// leaves, and whether another follows.
#![tactic(auto)]

ghost use Rattle.std.specs.Prelude.{◌≡◌, ◌+◌, ◌≤◌, true, length, take};
ghost use Rattle.rules.specs.State.{State};
ghost use Rattle.taking.specs.Answers.{reply_of};
ghost use Rattle.long_records.specs.Turns.{goes_on_lem, capped, is_long_lem, long_reply_lem, passed_count_lem, Kept, Turned};

use buffered_input::Source;
use frames::{FileRefusal, LENGTH_BYTES};
use std::io::Read;
use tables::PlanarGraph;
use taking::TakeRefusal;

// No multiple of a segment's bytes, so that records straddle two reads in every long file.
pub const BUFFER_BYTES: usize = 65_536;

// The bytes that say how long a record is and of which kind.
const HEAD_BYTES: usize = 6;

// A proved loop has to end, and nothing says that the input does: more bytes than any run reads, with
// room in a u64 for those of one more turn.
pub const MOST_BYTES: u64 = 0x4000_0000_0000_0000;

// What one turn left: the counts and the stage, how many bytes it brought, how many are kept for the
// next one, how many records were taken, the answer to them, and whether the input may have more.
#[derive(Clone, Copy)]
pub struct Turn {
    pub graph: PlanarGraph,
    pub got: usize,
    pub kept: usize,
    pub count: usize,
    pub reply: Result<(), TakeRefusal>,
    pub source: Source,
}

// Whether there may be more to take: no record was bad, and the input goes on. A short record is one that
// is not there to its end yet.
pub fn goes_on(reply: Result<(), TakeRefusal>, source: Source) -> bool
    ensures { result ≡ goes_on_lem reply source }
{
    match reply {
        Ok(()) => buffered_input::is_open(source),
        Err(TakeRefusal::Record(FileRefusal::Short)) => buffered_input::is_open(source),
        Err(_) => false,
    }
}

// After more bytes than any run reads no more is read, as if a read had failed.
pub fn capped(source: Source, bytes: u64) -> Source
    ensures { result ≡ capped source bytes }
{
    match source {
        Source::Open => {
            if bytes < MOST_BYTES {
                return Source::Open;
            }
            Source::Failed
        }
        Source::Ended => Source::Ended,
        Source::Failed => Source::Failed,
    }
}

// Whether the record at the buffer's front cannot fit into it.
pub fn is_long(buffer: &[u8], kept: usize) -> bool
    requires { kept ≤ length buffer.now }
    ensures { result ≡ is_long_lem (take kept buffer.now) }
{
    if kept < HEAD_BYTES {
        return false;
    }
    BUFFER_BYTES < LENGTH_BYTES + frames::le32(buffer, 0) as usize
}

// The answer to a record that was not held: passed over or refused, or 9 where the input ended inside it.
fn long_reply(source: Source, length: u32, kind: u16) -> Result<(), TakeRefusal>
    ensures { reply_of result ≡ long_reply_lem source length kind }
{
    if !buffered_input::is_open(source) {
        return Err(TakeRefusal::Record(FileRefusal::Short));
    }
    frames::whole_frame(length, kind)?;
    Ok(())
}

// How many records that answer counts.
fn passed_count(reply: Result<(), TakeRefusal>) -> usize
    ensures { result ≡ passed_count_lem (reply_of reply) }
{
    match reply {
        Ok(()) => 1,
        Err(_) => 0,
    }
}

// A record that cannot fit: the rest of it is dropped as it comes.
pub fn skip_turn<R: Read>(graph: PlanarGraph, input: &mut R, buffer: &mut [u8], kept: usize) -> Turn
    requires { Kept kept buffer.old × (is_long_lem (take kept buffer.old) ≡ true) }
    ensures { (result.graph ≡ graph) × ((s : State) → Turned (take kept buffer.old) buffer.new s result s) }
{
    let length = frames::le32(buffer, 0);
    let kind = frames::le16(buffer, LENGTH_BYTES);
    let missing = LENGTH_BYTES + length as usize - kept;
    let brought = buffered_input::drop_bytes(input, buffer, missing);
    let source = brought.source;
    let reply = long_reply(source, length, kind);
    Turn {
        graph,
        got: brought.got,
        kept: 0,
        count: passed_count(reply),
        reply,
        source,
    }
}
