// Writing a ring file, for a caller that hands over numbers and slices.
ghost use Rattle.std.specs.Prelude.{◌≡◌};
ghost use Rattle.file_rules.specs.RingFile.{lent, write_rings_lem};
ghost use Rattle.station_ring_files.specs.Calls.{gave_by, gave, bytes_written};

use ring_reading::ring_file_number;

// How many bytes were written.
const WRITTEN_LENGTH: usize = 1;

// Writes the rings as the bytes of a file. The reply is how many bytes that took.
#[unsafe(no_mangle)]
pub extern "C" fn tukmiheb_write_rings(
    ring_first: &[usize],
    ring_length: &[usize],
    ring_face: &[u16],
    ring_doubled: &[i64],
    nodes: &[u16],
    out: &mut [u8],
    reply: &mut [u64; WRITTEN_LENGTH],
) -> u32
    ensures { gave_by result out.new reply.new ≡ gave bytes_written reply.old (write_rings_lem (lent ring_first.now ring_length.now ring_face.now ring_doubled.now nodes.now) out.old) }
{
    match ring_file::write_rings(ring_first, ring_length, ring_face, ring_doubled, nodes, out) {
        Ok(bytes) => {
            *reply = [bytes as u64];
            0
        }
        Err(why) => ring_file_number(why),
    }
}
