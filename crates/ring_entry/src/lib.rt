// Ring extraction without the hole list: stage 3 to 4.
#![tactic(auto)]

mod regions;
mod sides;

ghost use Rattle.rules.specs.Limits.{limits};
ghost use Rattle.tables.specs.Regions.{state_in};
ghost use Rattle.extracting.specs.Extraction.{lists_of};
ghost use Rattle.ring_entry.specs.Replies.{ring_reply};
ghost use Rattle.ring_checks.specs.Clause.{Extracts};

use cycles::Census;
pub use regions::extract_regions;
use ring_checks::check_rings;
pub use sides::sides_of_regions;
use tables::{Answer, PlanarGraph};

// What was listed: how many rings, the census, and how many comparisons naming them took.
#[derive(Clone, Copy)]
pub struct Rings {
    pub count: u16,
    pub census: Census,
    pub comparisons: u16,
}

// Numbers 6, 7, 5 and 8; then the lists get the rings: their half-edges ring by ring, and for each
// ring its first place, length, face number, side and area. No table is written.
pub fn extract_without_holes(
    graph: PlanarGraph,
    floats: &[f64],
    numbers: &[u16],
    stars: &[u16],
    marks: &[bool],
    ids: &[u32],
    half_edges: &mut [u16],
    ring_first: &mut [u16],
    ring_length: &mut [u16],
    ring_face: &mut [u16],
    ring_side: &mut [u8],
    ring_area: &mut [f64],
) -> Answer<Rings>
    ensures { Extracts
        (state_in limits graph floats.now numbers.now stars.now marks.now ids.now)
        (lists_of half_edges.old ring_first.old ring_length.old ring_face.old ring_side.old ring_area.old)
        (ring_reply result.reply)
        (state_in limits result.graph floats.now numbers.now stars.now marks.now ids.now)
        (lists_of half_edges.new ring_first.new ring_length.new ring_face.new ring_side.new ring_area.new) }
{
    let checked = check_rings(
        graph,
        floats,
        numbers,
        stars,
        marks,
        ids,
        half_edges,
        ring_first,
        ring_length,
        ring_face,
        ring_side,
        ring_area,
    );
    if let Err(why) = checked {
        return Answer {
            graph,
            reply: Err(why),
        };
    }
    let done = extract_regions(
        graph,
        floats,
        numbers,
        stars,
        marks,
        half_edges,
        ring_first,
        ring_length,
        ring_face,
        ring_side,
        ring_area,
    );
    let after = done.graph;
    let rings = Rings {
        count: done.count,
        census: done.census,
        comparisons: done.comparisons,
    };
    Answer {
        graph: after,
        reply: Ok(rings),
    }
}
