// The lines of the rings, from the lists that ring extraction wrote.
#![tactic(auto)]

ghost use Rattle.std.specs.Prelude.{◌≡◌, List, ◌+◌, ◌<◌, ◌≤◌, length, get_or};
ghost use Rattle.rules.specs.Face.{Ring};
ghost use Rattle.rules.specs.Limits.{limits};
ghost use Rattle.lists.specs.Buffer.{Put};
ghost use Rattle.listing_text.specs.Rooms.{ring_room_lem};
ghost use Rattle.rules.specs.Listing.{line_of, lines_of};
ghost use Rattle.ring_lines.specs.Rooms.{lines_room};
ghost use Rattle.ring_lists.specs.Shown.{Shown};

use ring_lists::doubled_area;
use tables::FaceId;

// The line of ring k.
fn put_line(
    out: &mut [u8],
    at: usize,
    k: u16,
    half_edges: &[u16],
    ring_first: &[u16],
    ring_length: &[u16],
    ring_face: &[u16],
    ring_area: &[f64],
    dir_edges_src: &[u16],
) -> usize
    requires { (rings : List Ring) × Shown rings half_edges.now ring_first.now ring_length.now ring_face.now ring_area.now × (k < length rings) × (at + ring_room_lem (get_or ring_length.now k 0) ≤ length out.old) }
    ensures { (rings : List Ring) → Shown rings half_edges.now ring_first.now ring_length.now ring_face.now ring_area.now → k < length rings
        → Put at (line_of dir_edges_src.now rings k) out.old out.new result }
{
    let i = usize::from(k);
    let first = usize::from(ring_first[i]);
    let size = usize::from(ring_length[i]);
    let face = ring_face[i];
    let doubled = doubled_area(ring_area[i]);
    listing_text::put_ring(
        out,
        at,
        u64::from(k),
        FaceId(face),
        doubled,
        half_edges,
        first,
        size,
        dir_edges_src,
    )
}

// A line for each ring.
pub fn put_rings(
    out: &mut [u8],
    at: usize,
    count: u16,
    half_edges: &[u16],
    ring_first: &[u16],
    ring_length: &[u16],
    ring_face: &[u16],
    ring_area: &[f64],
    dir_edges_src: &[u16],
) -> usize
    requires { (rings : List Ring) × Shown rings half_edges.now ring_first.now ring_length.now ring_face.now ring_area.now × (count ≡ length rings) × (at + lines_room limits ≤ length out.old) }
    ensures { (rings : List Ring) → Shown rings half_edges.now ring_first.now ring_length.now ring_face.now ring_area.now → count ≡ length rings
        → Put at (lines_of dir_edges_src.now rings count) out.old out.new result }
{
    let mut place = at;
    for k in 0..count {
        place = put_line(
            out,
            place,
            k,
            half_edges,
            ring_first,
            ring_length,
            ring_face,
            ring_area,
            dir_edges_src,
        );
    }
    place
}
