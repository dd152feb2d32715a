// The rings of a file into lent lists.
#![tactic(auto)]

mod numbers;

ghost use Rattle.std.specs.Prelude.{◌≡◌, [], ◌+◌, ◌<◌, ◌≤◌, length, drop};
ghost use Rattle.file_rules.specs.Records.{read_file};
ghost use Rattle.file_rules.specs.RingFile.{ring_room_lem, rings_over, all_nodes, closed_up, ring_next, lent};
ghost use Rattle.ring_taking.specs.Taken.{entry_of, ring_set};

use crate::numbers::copy_nodes;
use frames::{NODE_BYTES, RING_BYTES};
use ring_reading::{RingFound, read_ring};

// Where in a ring's record its face number and its doubled area stand.
const FACE_AT: usize = 6;

const DOUBLED_AT: usize = 10;

// The ring whose record stands at `at` becomes entry `ring` of the lists, with its nodes from `place` on.
fn enter_ring(
    bytes: &[u8],
    at: usize,
    count: usize,
    ring: usize,
    place: usize,
    ring_first: &mut [usize],
    ring_length: &mut [usize],
    ring_face: &mut [u16],
    ring_doubled: &mut [i64],
)
    requires at_in_bounds { at + 18 ≤ length bytes.now }
    requires ring_bound { ring < ring_room_lem (lent ring_first.old ring_length.old ring_face.old ring_doubled.old []) }
    ensures { lent ring_first.new ring_length.new ring_face.new ring_doubled.new [] ≡ ring_set ring (entry_of (drop at bytes.now) place count) (lent ring_first.old ring_length.old ring_face.old ring_doubled.old []) }
{
    ring_first[ring] = place;
    ring_length[ring] = count;
    ring_face[ring] = frames::le16(bytes, at + FACE_AT);
    ring_doubled[ring] = frames::le64(bytes, at + DOUBLED_AT).cast_signed();
}

// All rings of a file, with their nodes closed up. A record that is refused ends the reading, as the
// end of the file does.
pub fn take_rings(
    bytes: &[u8],
    ring_first: &mut [usize],
    ring_length: &mut [usize],
    ring_face: &mut [u16],
    ring_doubled: &mut [i64],
    nodes: &mut [u16],
)
    requires bytes_len_bound { length (read_file ring_next bytes.now).holds ≤ ring_room_lem (lent ring_first.old ring_length.old ring_face.old ring_doubled.old nodes.old) }
    requires bytes_in_bounds { length (all_nodes (read_file ring_next bytes.now).holds) ≤ length nodes.old }
    ensures { lent ring_first.new ring_length.new ring_face.new ring_doubled.new nodes.new ≡ rings_over (closed_up 0 (read_file ring_next bytes.now).holds) (all_nodes (read_file ring_next bytes.now).holds) (lent ring_first.old ring_length.old ring_face.old ring_doubled.old nodes.old) }
{
    let mut at = 0;
    let mut ring = 0;
    let mut place = 0;
    while let Some(found) = read_ring(bytes, at).unwrap_or(None) {
        match found {
            RingFound::Ring(count) => {
                enter_ring(
                    bytes,
                    at,
                    count,
                    ring,
                    place,
                    ring_first,
                    ring_length,
                    ring_face,
                    ring_doubled,
                );
                place = copy_nodes(bytes, at + RING_BYTES, count, nodes, place);
                ring += 1;
                at += RING_BYTES + NODE_BYTES * count;
            }
            RingFound::Passed(size) => {
                at += size;
            }
        }
    }
}
