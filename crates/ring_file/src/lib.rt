// Ring files: a list of rings into the bytes of a file, and the rings of a file into lent lists. A list
// of rings is four lists side by side, first places, lengths, face numbers and doubled areas, over one
// of node numbers; it is as long as the shortest of the four.
#![tactic(auto)]

ghost use Rattle.std.specs.Prelude.{◌≡◌, min};
ghost use Rattle.file_rules.specs.RingFile.{lent, write_rings_lem, read_rings_lem};
ghost use Rattle.ring_file.specs.Answers.{written_of, read_of};

use ring_reading::{RingFileRefusal, RingsCounted, survey_file};
use ring_room::{all_writable, bytes_fit};
use ring_taking::take_rings;
use ring_writing::put_rings;

// The length of the shortest of four lists.
fn shortest(first: usize, size: usize, face: usize, doubled: usize) -> usize
    ensures { result ≡ min (min first size) (min face doubled) }
{
    first.min(size).min(face.min(doubled))
}

// Every ring as a record, one after another from the first byte of `out` on. Number 15 is for any ring
// that is empty, longer than 65,535 or reaches past the nodes; 14, tested after it, is for too few
// bytes. Nothing is written before both have passed.
pub fn write_rings(
    ring_first: &[usize],
    ring_length: &[usize],
    ring_face: &[u16],
    ring_doubled: &[i64],
    nodes: &[u16],
    out: &mut [u8],
) -> Result<usize, RingFileRefusal>
    ensures { written_of result out.new ≡ write_rings_lem (lent ring_first.now ring_length.now ring_face.now ring_doubled.now nodes.now) out.old }
{
    let count = shortest(
        ring_first.len(),
        ring_length.len(),
        ring_face.len(),
        ring_doubled.len(),
    );
    if !all_writable(ring_first, ring_length, count, nodes.len()) {
        return Err(RingFileRefusal::Ring);
    }
    if !bytes_fit(ring_length, count, out.len()) {
        return Err(RingFileRefusal::Room);
    }
    Ok(put_rings(
        ring_first,
        ring_length,
        ring_face,
        ring_doubled,
        nodes,
        count,
        out,
    ))
}

// Every ring of a file, with the nodes of all closed up. The whole file is tested first, record by
// record by 9, 10, 11 and 15, then the lists by 14; nothing is written before.
pub fn read_rings(
    bytes: &[u8],
    ring_first: &mut [usize],
    ring_length: &mut [usize],
    ring_face: &mut [u16],
    ring_doubled: &mut [i64],
    nodes: &mut [u16],
) -> Result<RingsCounted, RingFileRefusal>
    ensures { read_of result (lent ring_first.new ring_length.new ring_face.new ring_doubled.new nodes.new) ≡ read_rings_lem bytes.now (lent ring_first.old ring_length.old ring_face.old ring_doubled.old nodes.old) }
{
    let counted = survey_file(bytes)?;
    let room = shortest(
        ring_first.len(),
        ring_length.len(),
        ring_face.len(),
        ring_doubled.len(),
    );
    if room < counted.rings {
        return Err(RingFileRefusal::Room);
    }
    if nodes.len() < counted.nodes {
        return Err(RingFileRefusal::Room);
    }
    take_rings(
        bytes,
        ring_first,
        ring_length,
        ring_face,
        ring_doubled,
        nodes,
    );
    Ok(counted)
}
