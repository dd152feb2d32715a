// The ring file of a graph that was built: the four steps, one after another, and then the records.
#![tactic(auto)]

ghost use Rattle.std.specs.Prelude.{◌≤◌, length};
ghost use Rattle.rules.specs.Limits.{limits};
ghost use Rattle.tables.specs.Regions.{state_in};
ghost use Rattle.lists.specs.Buffer.{Put};
ghost use Rattle.map_steps.specs.Stands.{Stands};
ghost use Rattle.ring_records.specs.File.{cut_file, file_room};
ghost use Rattle.ring_steps.specs.File.{map_file};

use tables::{MAX_HALF_EDGES, PlanarGraph, TARGETS};

// Cut: the rings are extracted, and their records are written.
fn put_cut(
    graph: PlanarGraph,
    floats: &[f64],
    numbers: &[u16],
    stars: &[u16],
    marks: &[bool],
    ids: &[u32],
    out: &mut [u8],
) -> usize
    requires { Stands 3 (state_in limits graph floats.now numbers.now stars.now marks.now ids.now) × (file_room limits ≤ length out.old) }
    ensures { Put 0 (cut_file (state_in limits graph floats.now numbers.now stars.now marks.now ids.now)) out.old out.new result }
{
    let mut half_edges = [0u16; MAX_HALF_EDGES];
    let mut ring_first = [0u16; MAX_HALF_EDGES];
    let mut ring_length = [0u16; MAX_HALF_EDGES];
    let mut ring_face = [0u16; MAX_HALF_EDGES];
    let mut ring_side = [0u8; MAX_HALF_EDGES];
    let mut ring_area = [0.0f64; MAX_HALF_EDGES];
    let rings = map_rings::ring_map(
        graph,
        floats,
        numbers,
        stars,
        marks,
        ids,
        &mut half_edges,
        &mut ring_first,
        &mut ring_length,
        &mut ring_face,
        &mut ring_side,
        &mut ring_area,
    );
    ring_records::put_records(
        rings.count,
        &half_edges,
        &ring_first,
        &ring_length,
        &ring_face,
        &ring_area,
        &numbers[0..TARGETS],
        out,
    )
}

// The ring file of a graph that was built, written to the front of `out`. Answers how many bytes it
// has.
pub fn put_map(
    graph: PlanarGraph,
    floats: &[f64],
    numbers: &[u16],
    stars: &mut [u16],
    marks: &mut [bool],
    ids: &[u32],
    out: &mut [u8],
) -> usize
    requires { Stands 0 (state_in limits graph floats.now numbers.now stars.old marks.old ids.now) × (file_room limits ≤ length out.old) }
    ensures { Put 0 (map_file (state_in limits graph floats.now numbers.now stars.old marks.old ids.now)) out.old out.new result }
{
    let map = map_steps::cut_map(graph, floats, numbers, stars, marks, ids);
    put_cut(map.graph, floats, numbers, stars, marks, ids, out)
}
