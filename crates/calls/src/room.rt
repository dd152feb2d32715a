// Number 6: whether every slice has room for its regions.
ghost use Rattle.std.specs.Prelude.{◌≡◌, ◌&&◌, leb};
ghost use Rattle.rules.specs.Limits.{limits};
ghost use Rattle.rules.specs.State.{roomy};
ghost use Rattle.tables.specs.Regions.{state_in, least_floats, least_numbers, least_stars, least_marks, least_ids};
ghost use Rattle.tables.specs.declared.PlanarGraph.{PlanarGraph};

use tables::{FLOATS, IDS, MARKS, NUMBERS, STARS};

// By the lengths of the slices alone: marks are flags here, and bytes where a host lends them.
pub fn are_long(floats: usize, numbers: usize, stars: usize, marks: usize, ids: usize) -> bool
    ensures { result ≡ (leb (least_floats limits) floats && leb (least_numbers limits) numbers && leb (least_stars limits) stars && leb (least_marks limits) marks && leb (least_ids limits) ids) }
{
    (FLOATS <= floats) & (NUMBERS <= numbers) & (STARS <= stars) & (MARKS <= marks) & (IDS <= ids)
}

// Counts and stage do not matter to number 6, so it holds whatever graph the slices are lent with.
pub fn has_room(floats: &[f64], numbers: &[u16], stars: &[u16], marks: &[bool], ids: &[u32]) -> bool
    ensures { (graph : PlanarGraph) → result ≡ roomy limits (state_in limits graph floats.now numbers.now stars.now marks.now ids.now) }
{
    are_long(
        floats.len(),
        numbers.len(),
        stars.len(),
        marks.len(),
        ids.len(),
    )
}
