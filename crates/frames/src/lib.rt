// Files of records: which record the bytes at a place begin with, told by its length and its kind. Every
// reader of a file stands on this. A record is its length (4 bytes, which count what follows them),
// its kind (2) and what the kind says, each number with its lowest byte first.
#![tactic(auto)]

ghost use Rattle.std.specs.Prelude.{◌≡◌, ◌+◌, ◌≤◌, length, drop};
ghost use Rattle.file_rules.specs.Records.{field, whole_frame_lem, frame};
ghost use Rattle.frames.specs.Frames.{number_of, whole_of, frame_of, WholeSkips, Skips};

// The bytes that a record's length and its kind take.
pub const LENGTH_BYTES: usize = 4;

const KIND_BYTES: u32 = 2;

// The kinds that hold a segment and a ring, and what a length must be for them: a segment's exactly, a
// ring's at least.
pub const SEGMENT_KIND: u16 = 1;

pub const RING_KIND: u16 = 2;

const SEGMENT_LENGTH: u32 = 54;

pub const RING_HEAD: u32 = 14;

// What a ring's record has besides its nodes, and for each node.
pub const RING_BYTES: usize = LENGTH_BYTES + RING_HEAD as usize;

pub const NODE_BYTES: usize = 2;

// Why a record is refused, by the documents' numbers 9 to 11.
#[derive(Clone, Copy)]
pub enum FileRefusal {
    Short,
    Length,
    Kind,
}

// The documents' number of a record's refusal.
pub fn file_number(why: FileRefusal) -> u32
    ensures { result ≡ number_of why }
{
    match why {
        FileRefusal::Short => 9,
        FileRefusal::Length => 10,
        FileRefusal::Kind => 11,
    }
}

// A whole record by its kind, with how many bytes it takes in all.
#[derive(Clone, Copy)]
pub enum Frame {
    Segment(usize),
    Ring(usize),
    Skipped(u16, usize),
}

// The number in 2, 4 or 8 bytes from `at` on, the lowest byte first.
pub fn le16(bytes: &[u8], at: usize) -> u16
    requires { at + 2 ≤ length bytes.now }
    ensures { result ≡ field bytes.now at 2 }
{
    let low = u16::from(bytes[at]);
    let high = u16::from(bytes[at + 1]);
    high * 0x100 + low
}

pub fn le32(bytes: &[u8], at: usize) -> u32
    requires { at + 4 ≤ length bytes.now }
    ensures { result ≡ field bytes.now at 4 }
{
    let low = u32::from(le16(bytes, at));
    let high = u32::from(le16(bytes, at + 2));
    high * 0x1_0000 + low
}

pub fn le64(bytes: &[u8], at: usize) -> u64
    requires { at + 8 ≤ length bytes.now }
    ensures { result ≡ field bytes.now at 8 }
{
    let low = u64::from(le32(bytes, at));
    let high = u64::from(le32(bytes, at + 4));
    high * 0x1_0000_0000 + low
}

// A record that is there to its end, by its length and its kind: 10, then 11, then what it is.
pub fn whole_frame(length: u32, kind: u16) -> Result<Frame, FileRefusal>
    ensures frame { whole_of result ≡ whole_frame_lem length kind }
    ensures skipped { WholeSkips result }
{
    if length < KIND_BYTES {
        return Err(FileRefusal::Length);
    }
    let size = LENGTH_BYTES + length as usize;
    match kind {
        SEGMENT_KIND => {
            if length != SEGMENT_LENGTH {
                return Err(FileRefusal::Length);
            }
            Ok(Frame::Segment(size))
        }
        RING_KIND => {
            if length < RING_HEAD {
                return Err(FileRefusal::Length);
            }
            Ok(Frame::Ring(size))
        }
        3..=15 => Ok(Frame::Skipped(kind, size)),
        _ => Err(FileRefusal::Kind),
    }
}

// What stands at `at`: nothing, where no byte is left; 9, where the record is not there to its end;
// else the whole record. Its kind is read only where its length leaves room for one.
pub fn read_frame(bytes: &[u8], at: usize) -> Result<Option<Frame>, FileRefusal>
    ensures frame { frame_of result ≡ frame (drop at bytes.now) }
    ensures skipped { Skips result }
{
    if bytes.len() <= at {
        return Ok(None);
    }
    let left = bytes.len() - at;
    if left < LENGTH_BYTES {
        return Err(FileRefusal::Short);
    }
    let length = le32(bytes, at);
    let missing = left - LENGTH_BYTES < length as usize;
    if missing {
        return Err(FileRefusal::Short);
    }
    if length < KIND_BYTES {
        return Err(FileRefusal::Length);
    }
    let whole = whole_frame(length, le16(bytes, at + LENGTH_BYTES))?;
    Ok(Some(whole))
}
