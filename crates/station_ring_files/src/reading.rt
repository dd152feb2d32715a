// Reading a ring file, for a caller that hands over numbers and slices.
ghost use Rattle.std.specs.Prelude.{◌≡◌};
ghost use Rattle.file_rules.specs.RingFile.{lent, read_rings_lem};
ghost use Rattle.station_ring_files.specs.Calls.{gave_by, gave, rings_read};

use ring_reading::ring_file_number;

// How many rings and how many node numbers were written.
const READ_LENGTH: usize = 2;

// Reads the rings of a file into the lent lists. The reply is how many rings and how many node numbers
// that took.
#[unsafe(no_mangle)]
pub extern "C" fn tukmiheb_read_rings(
    bytes: &[u8],
    ring_first: &mut [usize],
    ring_length: &mut [usize],
    ring_face: &mut [u16],
    ring_doubled: &mut [i64],
    nodes: &mut [u16],
    reply: &mut [u64; READ_LENGTH],
) -> u32
    ensures { gave_by result (lent ring_first.new ring_length.new ring_face.new ring_doubled.new nodes.new) reply.new
        ≡ gave rings_read reply.old (read_rings_lem bytes.now (lent ring_first.old ring_length.old ring_face.old ring_doubled.old nodes.old)) }
{
    match ring_file::read_rings(
        bytes,
        ring_first,
        ring_length,
        ring_face,
        ring_doubled,
        nodes,
    ) {
        Ok(counted) => {
            *reply = [counted.rings as u64, counted.nodes as u64];
            0
        }
        Err(why) => ring_file_number(why),
    }
}
