// The rings of a map whose cut edges are marked, with no hole list. Extraction refuses no such map; the arm
// that `match` wants for a refusal is proved never to be taken.
#![tactic(auto)]

ghost use Rattle.rules.specs.Limits.{limits};
ghost use Rattle.tables.specs.Regions.{state_in};
ghost use Rattle.extracting.specs.Extraction.{lists_of};
ghost use Rattle.map_steps.specs.Stands.{Stands};
ghost use Rattle.map_steps.specs.Rings.{Wide, Rung};

use tables::PlanarGraph;

// How many rings a cut graph has, and whether Euler's formula holds of them.
#[derive(Clone, Copy)]
pub struct RingMap {
    pub count: u16,
    pub euler: bool,
}

// Cut: the rings are extracted into lists that have room for every graph's.
pub fn ring_map(
    graph: PlanarGraph,
    floats: &[f64],
    numbers: &[u16],
    stars: &[u16],
    marks: &[bool],
    ids: &[u32],
    half_edges: &mut [u16],
    ring_first: &mut [u16],
    ring_length: &mut [u16],
    ring_face: &mut [u16],
    ring_side: &mut [u8],
    ring_area: &mut [f64],
) -> RingMap
    requires { Stands 3 (state_in limits graph floats.now numbers.now stars.now marks.now ids.now) × Wide (lists_of half_edges.old ring_first.old ring_length.old ring_face.old ring_side.old ring_area.old) }
    ensures { Rung (state_in limits graph floats.now numbers.now stars.now marks.now ids.now)
        (lists_of half_edges.new ring_first.new ring_length.new ring_face.new ring_side.new ring_area.new) result.count result.euler }
{
    let done = ring_entry::extract_without_holes(
        graph,
        floats,
        numbers,
        stars,
        marks,
        ids,
        half_edges,
        ring_first,
        ring_length,
        ring_face,
        ring_side,
        ring_area,
    );
    let reply = done.reply;
    match reply {
        Ok(rings) => RingMap {
            count: rings.count,
            euler: rings.census.verdict,
        },
        Err(_) => RingMap {
            count: 0,
            euler: false,
        },
    }
}
