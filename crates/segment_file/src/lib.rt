// The segment file: what stands at a place of its bytes. A segment's record is its length and kind, a
// line id and six floats, each with its lowest byte first; every other record is passed over.
#![tactic(auto)]

ghost use Rattle.std.specs.Prelude.{◌≡◌, ◌+◌, ◌≤◌, length, drop};
ghost use Rattle.std.specs.Float.{binary64};
ghost use Rattle.std.specs.Float.Ieee.{of_bits};
ghost use Rattle.file_rules.specs.SegmentFile.{coord_at_lem, segment_next};
ghost use Rattle.segment_file.specs.Record.{line_at, read_of};

use frames::{FileRefusal, Frame, le32, le64};
use geometry::{Coord3D, Line3D};

// A record of the file, with how many bytes it takes: a segment, or one that is passed over.
#[derive(Clone, Copy)]
pub enum Record {
    Segment(Line3D, usize),
    Passed(usize),
}

// The float with these bits. The pattern of a NaN becomes some NaN: its exponent is all ones and its
// fraction is not 0, so without the sign it lies above the pattern of infinity.
pub fn float_of(bits: u64) -> f64
    ensures { result ≡ of_bits binary64 bits }
{
    let nan_pattern = 0x7ff0_0000_0000_0000 < bits % 0x8000_0000_0000_0000;
    if nan_pattern {
        return 0.0 / 0.0;
    }
    f64::from_bits(bits)
}

// x, y and z, 8 bytes each.
fn coord_at(bytes: &[u8], at: usize) -> Coord3D
    requires { at + 24 ≤ length bytes.now }
    ensures { result ≡ coord_at_lem bytes.now at }
{
    Coord3D {
        x: float_of(le64(bytes, at)),
        y: float_of(le64(bytes, at + 8)),
        z: float_of(le64(bytes, at + 16)),
    }
}

// The segment of a record of 58 bytes.
fn segment_at(bytes: &[u8], at: usize) -> Line3D
    requires { at + 58 ≤ length bytes.now }
    ensures { result ≡ line_at bytes.now at }
{
    Line3D {
        start: coord_at(bytes, at + 10),
        end: coord_at(bytes, at + 34),
        line_id: le32(bytes, at + 6),
    }
}

// What stands at `at`: nothing, where no byte is left; a record's refusal, the first that holds of
// 9, 10, 11; its segment; or a record of another kind, passed over.
pub fn read_record(bytes: &[u8], at: usize) -> Result<Option<Record>, FileRefusal>
    ensures { read_of result ≡ segment_next (drop at bytes.now) }
{
    let Some(frame) = frames::read_frame(bytes, at)? else {
        return Ok(None);
    };
    match frame {
        Frame::Segment(size) => Ok(Some(Record::Segment(segment_at(bytes, at), size))),
        Frame::Ring(size) => Ok(Some(Record::Passed(size))),
        Frame::Skipped(_, size) => Ok(Some(Record::Passed(size))),
    }
}
