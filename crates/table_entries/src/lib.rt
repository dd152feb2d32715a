// What a new edge writes, slice by slice.
#![tactic(auto)]

ghost use Rattle.std.specs.Prelude.{◌≡◌, false, ◌+◌, ◌*◌, ◌<◌, ◌≤◌, length};
ghost use Rattle.rules.specs.Adding.{put_segment_lem};
ghost use Rattle.rules.specs.Limits.{limits};
ghost use Rattle.tables.specs.Regions.{xs_in, ys_in, zs_in, segments_in, sources_in, targets_in, list_places_in, links_in, star_table_in, degrees_in, node_marks_in, half_marks_in, least_floats, least_numbers, least_stars, least_marks};
ghost use Rattle.adding.specs.Written.{raised, two_at};
ghost use Rattle.table_entries.specs.Written.{Raisable, StarRoom};

use geometry::Line3D;
use tables::{DEGREES, EdgeId, HALF_MARKS, NodeId, SEGMENTS, TARGETS};

// The segment of an edge, six floats.
pub fn put_segment(edge: EdgeId, line: Line3D, floats: &mut [f64])
    requires { (edge.0 < limits.edges) × (least_floats limits ≤ length floats.old) }
    ensures x { xs_in limits floats.new ≡ xs_in limits floats.old }
    ensures y { ys_in limits floats.new ≡ ys_in limits floats.old }
    ensures z { zs_in limits floats.new ≡ zs_in limits floats.old }
    ensures segment { segments_in limits floats.new ≡ put_segment_lem (segments_in limits floats.old) edge.0 line }
{
    let start = line.start;
    let end = line.end;
    let at = SEGMENTS + 6 * usize::from(edge.0);
    floats[at] = start.x;
    floats[at + 1] = start.y;
    floats[at + 2] = start.z;
    floats[at + 3] = end.x;
    floats[at + 4] = end.y;
    floats[at + 5] = end.z;
}

// What the two halves of an edge have: the first half's entry, and the one behind it.
fn put_halves(entries: &mut [u16], at: usize, a: u16, b: u16)
    requires { at + 1 < length entries.old }
    ensures { entries.new ≡ two_at entries.old at a b }
{
    entries[at] = a;
    entries[at + 1] = b;
}

// The first half of an edge goes from u to v, and its twin back.
pub fn put_ends(edge: EdgeId, u: NodeId, v: NodeId, numbers: &mut [u16])
    requires { (edge.0 < limits.edges) × (least_numbers limits ≤ length numbers.old) }
    ensures source { sources_in limits numbers.new ≡ two_at (sources_in limits numbers.old) (2 * edge.0) u.0 v.0 }
    ensures target { targets_in limits numbers.new ≡ two_at (targets_in limits numbers.old) (2 * edge.0) v.0 u.0 }
    ensures list { list_places_in limits numbers.new ≡ list_places_in limits numbers.old }
    ensures link { links_in limits numbers.new ≡ links_in limits numbers.old }
{
    let first = 2 * usize::from(edge.0);
    put_halves(numbers, first, u.0, v.0);
    put_halves(numbers, TARGETS + first, v.0, u.0);
}

// One more half-edge starts at a node.
fn raise(node: NodeId, stars: &mut [u16])
    requires { (node.0 < limits.nodes) × (least_stars limits ≤ length stars.old) × Raisable (degrees_in limits stars.old) node.0 }
    ensures star { star_table_in limits stars.new ≡ star_table_in limits stars.old }
    ensures degree { degrees_in limits stars.new ≡ raised (degrees_in limits stars.old) node.0 }
{
    let at = DEGREES + usize::from(node.0);
    stars[at] = stars[at] + 1;
}

// The halves of an edge come last in the stars of its ends.
pub fn put_last(edge: EdgeId, u: NodeId, v: NodeId, stars: &mut [u16])
    requires { StarRoom limits edge.0 u.0 v.0 stars.old }
    ensures star { star_table_in limits stars.new ≡ two_at (star_table_in limits stars.old) (2 * edge.0) (2 * edge.0) (2 * edge.0 + 1) }
    ensures degree { degrees_in limits stars.new ≡ raised (raised (degrees_in limits stars.old) u.0) v.0 }
{
    let first = 2 * edge.0;
    put_halves(stars, usize::from(first), first, first + 1);
    raise(u, stars);
    raise(v, stars);
}

// Neither half of an edge is marked.
pub fn unmark(edge: EdgeId, marks: &mut [bool])
    requires { (edge.0 < limits.edges) × (least_marks limits ≤ length marks.old) }
    ensures node { node_marks_in limits marks.new ≡ node_marks_in limits marks.old }
    ensures half { half_marks_in limits marks.new ≡ two_at (half_marks_in limits marks.old) (2 * edge.0) false false }
{
    let at = HALF_MARKS + 2 * usize::from(edge.0);
    marks[at] = false;
    marks[at + 1] = false;
}
