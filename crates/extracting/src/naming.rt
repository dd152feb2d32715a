// Face numbers of rings whose keys stand in front of both halves of one list.
ghost use Rattle.std.specs.Prelude.{◌≡◌, List, ℕ, ◌+◌, ◌≤◌, length, Float};
ghost use Rattle.lists.specs.Lists.{over};
ghost use Rattle.rules.specs.Limits.{limits};
ghost use Rattle.ring_tally.specs.Keys.{keys_y};
ghost use Rattle.faces.specs.Numbers.{rings_at, face_numbers, comparisons_at, Numberable, Nameable};
ghost use Rattle.ring_listing.specs.Listing.{keys_x_of, keys_y_of};

use ring_tally::KEYS_Y;

// The keys are parts of a lent list, since no part of a local array is lent.
pub fn name_rings(
    half_edges: &[u16],
    keys: &[u64],
    firsts: &[u16],
    lengths: &[u16],
    count: usize,
    areas: &[f64],
    ring_face: &mut [u16],
) -> usize
    requires { (keys_y + length half_edges.now ≤ length keys.now) × Nameable limits half_edges.now (keys_x_of half_edges.now keys.now) (keys_y_of half_edges.now keys.now) firsts.now lengths.now count areas.now × (count ≤ length ring_face.old) }
    ensures faces { (source : List ℕ) (X Y : List Float) → Numberable limits half_edges.now (keys_x_of half_edges.now keys.now) (keys_y_of half_edges.now keys.now) firsts.now lengths.now count source X Y areas.now
        → ring_face.new ≡ over (face_numbers (rings_at half_edges.now firsts.now lengths.now count source X Y)) ring_face.old }
    ensures made { (source : List ℕ) (X Y : List Float) → Numberable limits half_edges.now (keys_x_of half_edges.now keys.now) (keys_y_of half_edges.now keys.now) firsts.now lengths.now count source X Y areas.now
        → result ≡ comparisons_at half_edges.now firsts.now lengths.now count source X Y }
{
    let total = half_edges.len();
    let end = KEYS_Y + total;
    let xs = &keys[..total];
    let ys = &keys[KEYS_Y..end];
    faces::number_faces(half_edges, xs, ys, firsts, lengths, count, areas, ring_face)
}
