// Ring extraction with the hole list: stage 3 to 4. The core lists the rings and finds their holes, and
// the entry has the records written.
#![tactic(auto)]

mod making;

ghost use Rattle.rules.specs.Limits.{limits};
ghost use Rattle.tables.specs.Regions.{state_in};
ghost use Rattle.extracting.specs.Extraction.{lists_of};
ghost use Rattle.hole_entry.specs.Replies.{rings_reply};
ghost use Rattle.hole_checks.specs.Clause.{lent_of, Extracts};
ghost use Rattle.hole_entry.specs.Making.{TurnedDown, Makes};

use hole_checks::check_holes;
use holes::Hole;
use making::extract_checked;
use ring_entry::Rings;
use tables::{Answer, MAX_SHAPED, PlanarGraph, Refusal};

// What ring extraction listed: the rings, and how many half-edges and holes it wrote.
#[derive(Clone, Copy)]
pub struct RingsAndHoles {
    pub rings: Rings,
    pub half_edges: u16,
    pub holes: u16,
}

// What the core hands to the entry: the holes to write, and the answer. The records come first, so that
// no padding is copied with them: a copy between places that are not aligned to each other is slow.
#[derive(Clone, Copy)]
pub struct Made {
    pub list: [Hole; MAX_SHAPED],
    pub count: usize,
    pub ringed: Answer<RingsAndHoles>,
}

// A refusal: no hole is to be written.
fn turned_down(graph: PlanarGraph, why: Refusal) -> Made
    ensures { TurnedDown graph why result }
{
    let list = holes::no_holes();
    Made {
        list,
        count: 0,
        ringed: Answer {
            graph,
            reply: Err(why),
        },
    }
}

// All of ring extraction but the writing of the holes, for a hole list of `room` records: numbers 6,
// 7, 5, 8 and 13; then the rings are written into their lists, and the holes handed back.
pub fn extract_core(
    room: usize,
    graph: PlanarGraph,
    floats: &[f64],
    numbers: &[u16],
    stars: &[u16],
    marks: &[bool],
    ids: &[u32],
    half_edges: &mut [u16],
    ring_first: &mut [u16],
    ring_length: &mut [u16],
    ring_face: &mut [u16],
    ring_side: &mut [u8],
    ring_area: &mut [f64],
) -> Made
    ensures { Makes room
        (state_in limits graph floats.now numbers.now stars.now marks.now ids.now)
        (lists_of half_edges.old ring_first.old ring_length.old ring_face.old ring_side.old ring_area.old)
        result
        (state_in limits result.ringed.graph floats.now numbers.now stars.now marks.now ids.now)
        (lists_of half_edges.new ring_first.new ring_length.new ring_face.new ring_side.new ring_area.new) }
{
    let checked = check_holes(
        room,
        graph,
        floats,
        numbers,
        stars,
        marks,
        ids,
        half_edges,
        ring_first,
        ring_length,
        ring_face,
        ring_side,
        ring_area,
    );
    if let Err(why) = checked {
        return turned_down(graph, why);
    }
    extract_checked(
        graph,
        floats,
        numbers,
        stars,
        marks,
        half_edges,
        ring_first,
        ring_length,
        ring_face,
        ring_side,
        ring_area,
    )
}

// Numbers 6, 7, 5, 8 and 13; then the lists get the rings: their half-edges ring by ring, and for each
// ring its first place, length, face number, side and area; and the hole list gets one record for each
// open ring, in ring order. No table is written.
pub fn extract_rings(
    holes: &mut [Hole],
    graph: PlanarGraph,
    floats: &[f64],
    numbers: &[u16],
    stars: &[u16],
    marks: &[bool],
    ids: &[u32],
    half_edges: &mut [u16],
    ring_first: &mut [u16],
    ring_length: &mut [u16],
    ring_face: &mut [u16],
    ring_side: &mut [u8],
    ring_area: &mut [f64],
) -> Answer<RingsAndHoles>
    ensures { Extracts
        (state_in limits graph floats.now numbers.now stars.now marks.now ids.now)
        (lent_of (lists_of half_edges.old ring_first.old ring_length.old ring_face.old ring_side.old ring_area.old) holes.old)
        (rings_reply result.reply)
        (state_in limits result.graph floats.now numbers.now stars.now marks.now ids.now)
        (lent_of (lists_of half_edges.new ring_first.new ring_length.new ring_face.new ring_side.new ring_area.new) holes.new) }
{
    let made = extract_core(
        holes.len(),
        graph,
        floats,
        numbers,
        stars,
        marks,
        ids,
        half_edges,
        ring_first,
        ring_length,
        ring_face,
        ring_side,
        ring_area,
    );
    holes::fill_holes(holes, made.list, made.count);
    made.ringed
}
