// The lines of the listing, written into a lent buffer. Each function answers the place after what it
// wrote; every other byte of the buffer keeps its contents.
#![tactic(auto)]

ghost use Rattle.std.specs.Prelude.{◌≡◌, ◌+◌, ◌<◌, ◌≤◌, length, get_or};
ghost use Rattle.file_rules.specs.Lines.{spaced, ring_nodes, head_line, ring_line, refusal_line};
ghost use Rattle.listing_text.specs.Rooms.{head_room, ring_room_lem, refusal_room};
ghost use Rattle.lists.specs.Buffer.{Put};

use number_text::{put_labelled, put_signed, put_text};
use tables::{DirEdgeId, FaceId, NodeId};

// The node at which a half-edge starts: 0 past the table's end.
fn origin(dir_edges_src: &[u16], half: DirEdgeId) -> NodeId
    ensures { result.0 ≡ get_or dir_edges_src.now half.0 0 }
{
    NodeId(dir_edges_src.get(usize::from(half.0)).copied().unwrap_or(0))
}

// The nodes at which a ring's half-edges start, a space before each.
fn put_nodes(
    out: &mut [u8],
    at: usize,
    half_edges: &[u16],
    first: usize,
    ring_length: usize,
    dir_edges_src: &[u16],
) -> usize
    requires ring_length_in_bounds { first + ring_length ≤ length half_edges.now }
    requires ring_length_in_bounds_2 { at + length (spaced (ring_nodes dir_edges_src.now half_edges.now first ring_length)) ≤ length out.old }
    ensures { Put at (spaced (ring_nodes dir_edges_src.now half_edges.now first ring_length)) out.old out.new result }
{
    let mut place = at;
    for i in 0..ring_length {
        let half = half_edges[first + i];
        let node = origin(dir_edges_src, DirEdgeId(half));
        place = put_labelled(out, place, b" ", u64::from(node.0));
    }
    place
}

// A face's number, for printing. It is a function of its own for its clause: a proof reads there that the
// number has 16 bits, which a parameter's field does not tell it.
fn face_number(face: FaceId) -> u64
    ensures { (result ≡ face.0) × (result < 65536) }
{
    u64::from(face.0)
}

// Line one of the listing: five counts and the rings' verdict.
pub fn put_head(
    out: &mut [u8],
    at: usize,
    nodes: u64,
    edges: u64,
    dangles: u64,
    cuts: u64,
    rings: u64,
    euler: bool,
) -> usize
    requires { at + head_room ≤ length out.old }
    ensures { Put at (head_line nodes edges dangles cuts rings euler) out.old out.new result }
{
    let mut place = put_labelled(out, at, b"nodes ", nodes);
    place = put_labelled(out, place, b" edges ", edges);
    place = put_labelled(out, place, b" dangles ", dangles);
    place = put_labelled(out, place, b" cuts ", cuts);
    place = put_labelled(out, place, b" rings ", rings);
    if euler {
        return put_text(out, place, b" euler yes\n");
    }
    put_text(out, place, b" euler no\n")
}

// A ring's line. Its half-edges stand from `first` on; `dir_edges_src` says where each starts.
pub fn put_ring(
    out: &mut [u8],
    at: usize,
    ring: u64,
    face: FaceId,
    doubled: i64,
    half_edges: &[u16],
    first: usize,
    ring_length: usize,
    dir_edges_src: &[u16],
) -> usize
    requires ring_length_in_bounds { first + ring_length ≤ length half_edges.now }
    requires ring_length_in_bounds_2 { at + ring_room_lem ring_length ≤ length out.old }
    ensures { Put at (ring_line ring face.0 doubled (ring_nodes dir_edges_src.now half_edges.now first ring_length)) out.old out.new result }
{
    let number = face_number(face);
    let mut place = put_labelled(out, at, b"ring ", ring);
    place = put_labelled(out, place, b" face ", number);
    place = put_text(out, place, b" doubled ");
    place = put_signed(out, place, doubled);
    place = put_text(out, place, b" nodes");
    place = put_nodes(out, place, half_edges, first, ring_length, dir_edges_src);
    put_text(out, place, b"\n")
}

// The one line that is printed where a record is refused.
pub fn put_refusal(out: &mut [u8], at: usize, number: u64, record_number: u64) -> usize
    requires { at + refusal_room ≤ length out.old }
    ensures { Put at (refusal_line number record_number) out.old out.new result }
{
    let mut place = put_labelled(out, at, b"refused ", number);
    place = put_labelled(out, place, b" record ", record_number);
    put_text(out, place, b"\n")
}
