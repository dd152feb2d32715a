// A record of a segment file, for a caller that hands over numbers and slices.
ghost use Rattle.std.specs.Prelude.{◌≡◌, [], ◌∷◌, drop};
ghost use Rattle.file_rules.specs.SegmentFile.{segment_next};
ghost use Rattle.station_questions.specs.Reading.{floats_of, gave_by, gave_record};

use frames::file_number;
use geometry::Line3D;
use segment_file::Record;

// x, y and z of both ends.
const LINE_LENGTH: usize = 6;

// What the record is, its line id, and the place of the next.
const RECORD_LENGTH: usize = 3;

// What a record can be.
const IS_SEGMENT: u64 = 1;

const IS_PASSED: u64 = 2;

fn write_line(line: &mut [f64; LINE_LENGTH], found: Line3D)
    ensures { line.new ≡ floats_of found }
{
    let start = found.start;
    let end = found.end;
    *line = [start.x, start.y, start.z, end.x, end.y, end.z];
}

// What the record is, its line id, and the place of the next record.
fn write_record(reply: &mut [u64; RECORD_LENGTH], what: u64, line_id: u32, next: usize)
    ensures { reply.new ≡ what ∷ line_id ∷ next ∷ [] }
{
    let id = line_id as u64;
    let place = next as u64;
    *reply = [what, id, place];
}

// The record at a place of a segment file. The reply is 1, its line id and the place of the next
// record; 2, 0 and that place for a record that is passed over; or 0 at the end of the file.
#[unsafe(no_mangle)]
pub extern "C" fn tukmiheb_read_record(
    bytes: &[u8],
    at: usize,
    line: &mut [f64; LINE_LENGTH],
    reply: &mut [u64; RECORD_LENGTH],
) -> u32
    ensures { gave_by result line.new reply.new ≡ gave_record line.old reply.old at (segment_next (drop at bytes.now)) }
{
    match segment_file::read_record(bytes, at) {
        Ok(Some(Record::Segment(found, size))) => {
            write_line(line, found);
            write_record(reply, IS_SEGMENT, found.line_id, at + size);
            0
        }
        Ok(Some(Record::Passed(size))) => {
            write_record(reply, IS_PASSED, 0, at + size);
            0
        }
        Ok(None) => {
            reply[0] = 0;
            0
        }
        Err(why) => file_number(why),
    }
}
