// Rings in the bytes of a file: what a place holds, and how many rings and nodes there are.
#![tactic(auto)]

ghost use Rattle.std.specs.Prelude.{◌≡◌, ◌+◌, drop};
ghost use Rattle.file_rules.specs.Records.{taken, frame, read_file};
ghost use Rattle.file_rules.specs.RingFile.{ring_next};
ghost use Rattle.ring_reading.specs.Found.{number_of, whole_of, found_of, survey_of, surveyed};
ghost use Rattle.ring_reading.specs.declared.RingFileRefusal.TheVariants.{Frame as FrameRefusal};

use frames::{FileRefusal, Frame, NODE_BYTES, RING_BYTES};

// Where in a ring's record its count of nodes stands.
const COUNT_AT: usize = 8;

// Why a ring file, or a list of rings to be written, is refused: by document 02's numbers 9 to 11 of a
// record's frame, 15 of a ring and 14 of lent lists that are too short.
#[derive(Clone, Copy)]
pub enum RingFileRefusal {
    Frame(FileRefusal),
    Ring,
    Room,
}

impl From<FileRefusal> for RingFileRefusal {
    ghost from_gives = { λ why given. given ≡ FrameRefusal why };

    fn from(why: FileRefusal) -> RingFileRefusal {
        RingFileRefusal::Frame(why)
    }
}

// Document 02's number of a refusal.
pub fn ring_file_number(why: RingFileRefusal) -> u32
    ensures { result ≡ number_of why }
{
    match why {
        RingFileRefusal::Frame(frame) => frames::file_number(frame),
        RingFileRefusal::Ring => 15,
        RingFileRefusal::Room => 14,
    }
}

// A record of a file: a ring of so many nodes, or one of another kind by its bytes.
#[derive(Clone, Copy)]
pub enum RingFound {
    Ring(usize),
    Passed(usize),
}

// A record of a ring's kind. Its count must be some, and its length that of so many nodes.
fn whole_ring(bytes: &[u8], at: usize, size: usize) -> Result<RingFound, RingFileRefusal>
    requires { frame (drop at bytes.now) ≡ taken 2 size }
    ensures { whole_of (drop at bytes.now) result ≡ ring_next (drop at bytes.now) }
{
    let count = usize::from(frames::le16(bytes, at + COUNT_AT));
    if count == 0 {
        return Err(RingFileRefusal::Ring);
    }
    if size != RING_BYTES + NODE_BYTES * count {
        return Err(RingFileRefusal::Ring);
    }
    Ok(RingFound::Ring(count))
}

// What the reader of rings finds at `at`, where a byte is left: segments and records of kinds 3 to 15 are
// passed over.
pub fn read_ring(bytes: &[u8], at: usize) -> Result<Option<RingFound>, RingFileRefusal>
    ensures { found_of (drop at bytes.now) result ≡ ring_next (drop at bytes.now) }
{
    let Some(frame) = frames::read_frame(bytes, at)? else {
        return Ok(None);
    };
    match frame {
        Frame::Segment(size) => Ok(Some(RingFound::Passed(size))),
        Frame::Ring(size) => {
            let ring = whole_ring(bytes, at, size)?;
            Ok(Some(ring))
        }
        Frame::Skipped(_, size) => Ok(Some(RingFound::Passed(size))),
    }
}

// How many rings and nodes a file has.
#[derive(Clone, Copy)]
pub struct RingsCounted {
    pub rings: usize,
    pub nodes: usize,
}

// A file from its first byte to its end or the first bad record.
pub fn survey_file(bytes: &[u8]) -> Result<RingsCounted, RingFileRefusal>
    ensures { survey_of result ≡ surveyed (read_file ring_next bytes.now) }
{
    let mut at = 0;
    let mut rings = 0;
    let mut nodes = 0;
    while let Some(found) = read_ring(bytes, at)? {
        match found {
            RingFound::Ring(count) => {
                rings += 1;
                nodes += count;
                at += RING_BYTES + NODE_BYTES * count;
            }
            RingFound::Passed(size) => {
                at += size;
            }
        }
    }
    Ok(RingsCounted { rings, nodes })
}
