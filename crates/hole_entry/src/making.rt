// Ring extraction where its tests passed: the rings, and the holes to write.
ghost use Rattle.std.specs.Prelude.{◌≡◌, true, List, ℕ, ◌*◌, ◌≤◌, length};
ghost use Rattle.rules.specs.Limits.{limits, shaped_rings};
ghost use Rattle.rules.specs.State.{sound};
ghost use Rattle.tables.specs.Regions.{state_in, least_floats, least_numbers, least_stars, least_marks};
ghost use Rattle.extracting.specs.Extraction.{lists_of, Room};
ghost use Rattle.ring_entry.specs.Given.{SliceSound};
ghost use Rattle.hole_entry.specs.Replies.{answer_of};
ghost use Rattle.hole_entry.specs.Making.{RingsMade};

use crate::{Made, RingsAndHoles};
use extracting::Extracted;
use holders::holes_of_rings;
use ring_entry::{Rings, extract_regions};
use tables::{Answer, PlanarGraph};

// The answer: each active edge has both halves in rings.
fn answer(done: Extracted, holes: usize) -> RingsAndHoles
    requires { (done.census.edges ≤ limits.edges) × (holes ≤ shaped_rings limits) }
    ensures { result ≡ answer_of done holes }
{
    let census = done.census;
    RingsAndHoles {
        rings: Rings {
            count: done.count,
            census,
            comparisons: done.comparisons,
        },
        half_edges: 2 * census.edges,
        holes: holes as u16,
    }
}

// The rings are written into their lists, and their holes handed back.
pub fn extract_checked(
    graph: PlanarGraph,
    floats: &[f64],
    numbers: &[u16],
    stars: &[u16],
    marks: &[bool],
    half_edges: &mut [u16],
    ring_first: &mut [u16],
    ring_length: &mut [u16],
    ring_face: &mut [u16],
    ring_side: &mut [u8],
    ring_area: &mut [f64],
) -> Made
    requires limits_in_bounds { (least_floats limits ≤ length floats.now) × (least_numbers limits ≤ length numbers.now) × (least_stars limits ≤ length stars.now) × (least_marks limits ≤ length marks.now) }
    requires slice_sound { SliceSound limits graph floats.now numbers.now stars.now marks.now }
    requires room { Room (2 * graph.edge_count) (lists_of half_edges.old ring_first.old ring_length.old ring_face.old ring_side.old ring_area.old) }
    ensures { (ids : List ℕ) → let s = state_in limits graph floats.now numbers.now stars.now marks.now ids in sound limits s ≡ true → RingsMade s
        (lists_of half_edges.old ring_first.old ring_length.old ring_face.old ring_side.old ring_area.old)
        (lists_of half_edges.new ring_first.new ring_length.new ring_face.new ring_side.new ring_area.new) result }
{
    let done = extract_regions(
        graph,
        floats,
        numbers,
        stars,
        marks,
        half_edges,
        ring_first,
        ring_length,
        ring_face,
        ring_side,
        ring_area,
    );
    let found = holes_of_rings(
        graph,
        floats,
        numbers,
        half_edges,
        ring_first,
        ring_length,
        ring_face,
        ring_side,
        ring_area,
        done,
    );
    let after = done.graph;
    let list = found.list;
    let count = found.count;
    let reply = answer(done, count);
    Made {
        list,
        count,
        ringed: Answer {
            graph: after,
            reply: Ok(reply),
        },
    }
}
