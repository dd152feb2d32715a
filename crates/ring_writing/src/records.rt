// A ring's record, and the records of a list of rings one after another.
ghost use Rattle.std.specs.Prelude.{◌≡◌, true, map, ◌+◌, ◌*◌, ◌≤◌, length};
ghost use Rattle.lists.specs.Lists.{upto, all, flatten};
ghost use Rattle.lists.specs.Buffer.{Put};
ghost use Rattle.file_rules.specs.Records.{little_bytes};
ghost use Rattle.file_rules.specs.RingFile.{ring_room_lem, cut_out, ring_bytes, lent};
ghost use Rattle.ring_writing.specs.Rings.{nodes_in, head_bytes, ring_of, bytes_at, writable_at, sizes_at};

use number_text::put_text;

// So many node numbers from `first` on.
fn put_nodes(out: &mut [u8], at: usize, nodes: &[u16], first: usize, count: usize) -> usize
    requires { (first + count ≤ length nodes.now) × (at + 2 * count ≤ length out.old) }
    ensures { Put at (flatten (map (little_bytes 2) (nodes_in nodes.now first count))) out.old out.new result }
{
    let mut place = at;
    for i in 0..count {
        place = put_text(out, place, &nodes[first + i].to_le_bytes());
    }
    place
}

// What a ring's record says before its nodes. Its length counts the nodes too, two bytes each.
fn put_head(out: &mut [u8], at: usize, face: u16, doubled: i64, count: u16) -> usize
    requires { at + 18 ≤ length out.old }
    ensures { Put at (head_bytes face doubled count) out.old out.new result }
{
    let length = frames::RING_HEAD + 2 * u32::from(count);
    let mut place = put_text(out, at, &length.to_le_bytes());
    place = put_text(out, place, &frames::RING_KIND.to_le_bytes());
    place = put_text(out, place, &face.to_le_bytes());
    place = put_text(out, place, &count.to_le_bytes());
    put_text(out, place, &doubled.to_le_bytes())
}

// A ring's record.
fn put_ring(
    out: &mut [u8],
    at: usize,
    face: u16,
    doubled: i64,
    nodes: &[u16],
    first: usize,
    count: usize,
) -> usize
    requires { (first + count ≤ length nodes.now) × (count ≤ 65535) × (at + (18 + 2 * count) ≤ length out.old) }
    ensures { Put at (ring_bytes (cut_out nodes.now (ring_of first count face doubled))) out.old out.new result }
{
    let place = put_head(out, at, face, doubled, count as u16);
    put_nodes(out, place, nodes, first, count)
}

// The records of the first `count` rings, one after another from the first byte on.
pub fn put_rings(
    ring_first: &[usize],
    ring_length: &[usize],
    ring_face: &[u16],
    ring_doubled: &[i64],
    nodes: &[u16],
    count: usize,
    out: &mut [u8],
) -> usize
    requires count_bound { count ≤ ring_room_lem (lent ring_first.now ring_length.now ring_face.now ring_doubled.now nodes.now) }
    requires count_value { all (writable_at ring_first.now ring_length.now (length nodes.now)) (upto count) ≡ true }
    requires count_in_bounds { sizes_at ring_length.now (upto count) ≤ length out.old }
    ensures { Put 0 (bytes_at (lent ring_first.now ring_length.now ring_face.now ring_doubled.now nodes.now) (upto count)) out.old out.new result }
{
    let mut place = 0;
    for i in 0..count {
        place = put_ring(
            out,
            place,
            ring_face[i],
            ring_doubled[i],
            nodes,
            ring_first[i],
            ring_length[i],
        );
    }
    place
}
