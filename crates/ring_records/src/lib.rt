// The rings that ring extraction listed, into the bytes of a ring file.
#![tactic(auto)]

ghost use Rattle.std.specs.Prelude.{◌≡◌, List, ◌≤◌, ℤ, length, get_or};
ghost use Rattle.lists.specs.Lists.{over};
ghost use Rattle.lists.specs.Buffer.{Put};
ghost use Rattle.rules.specs.Face.{Ring};
ghost use Rattle.rules.specs.Limits.{limits};
ghost use Rattle.file_rules.specs.Lines.{starting_nodes};
ghost use Rattle.ring_records.specs.File.{file_of, file_room};
ghost use Rattle.ring_records.specs.Given.{Halves, Listed};

use ring_lists::doubled_area;
use tables::MAX_HALF_EDGES;

// How many bytes the longest ring file of a map has at most: a record has 18 and 2 for each node, and
// there are no more rings than half-edges, nor more nodes in all of them.
pub const RING_FILE_ROOM: usize = (18 + 2) * MAX_HALF_EDGES;

// Numbers of a list in a wider type.
fn widen(from: &[u16], to: &mut [usize])
    requires { length from.now ≡ length to.old }
    ensures { to.new ≡ from.now }
{
    for (i, number) in from.iter().enumerate() {
        to[i] = usize::from(*number);
    }
}

// Where a half-edge starts. Behind the last ring the list may hold any number: it starts at node 0.
fn start_of(dir_edges_src: &[u16], half_edge: u16) -> u16
    ensures { result ≡ get_or dir_edges_src.now half_edge 0 }
{
    dir_edges_src
        .get(usize::from(half_edge))
        .copied()
        .unwrap_or(0)
}

// The nodes where half-edges start.
fn list_nodes(half_edges: &[u16], dir_edges_src: &[u16], nodes: &mut [u16])
    requires { length half_edges.now ≡ length nodes.old }
    ensures { nodes.new ≡ starting_nodes dir_edges_src.now half_edges.now }
{
    for (i, half_edge) in half_edges.iter().enumerate() {
        nodes[i] = start_of(dir_edges_src, *half_edge);
    }
}

// Twice the first areas.
fn double_areas(ring_area: &[f64], count: usize, to: &mut [i64])
    requires { (count ≤ length to.old) × ((zs : List ℤ) × Halves ring_area.now zs × (count ≡ length zs)) }
    ensures { (zs : List ℤ) → Halves ring_area.now zs → count ≡ length zs → to.new ≡ over zs to.old }
{
    for i in 0..count {
        to[i] = doubled_area(ring_area[i]);
    }
}

// The file of the rings that the lists hold, at the front of `out`. Answers how many bytes it has.
pub fn put_records(
    count: u16,
    half_edges: &[u16],
    ring_first: &[u16],
    ring_length: &[u16],
    ring_face: &[u16],
    ring_area: &[f64],
    dir_edges_src: &[u16],
    out: &mut [u8],
) -> usize
    requires { (file_room limits ≤ length out.old) × ((rings : List Ring) × Listed rings half_edges.now ring_first.now ring_length.now ring_face.now ring_area.now × (count ≡ length rings)) }
    ensures { (rings : List Ring) → Listed rings half_edges.now ring_first.now ring_length.now ring_face.now ring_area.now → count ≡ length rings
        → Put 0 (file_of dir_edges_src.now rings) out.old out.new result }
{
    let mut first = [0usize; MAX_HALF_EDGES];
    let mut size = [0usize; MAX_HALF_EDGES];
    let mut doubled = [0i64; MAX_HALF_EDGES];
    let mut nodes = [0u16; MAX_HALF_EDGES];
    let rings = usize::from(count);
    widen(ring_first, &mut first);
    widen(ring_length, &mut size);
    double_areas(ring_area, rings, &mut doubled);
    list_nodes(half_edges, dir_edges_src, &mut nodes);
    ring_writing::put_rings(&first, &size, ring_face, &doubled, &nodes, rings, out)
}
