// Holes: for each open ring the enclosed ring that holds it, all in whole numbers (document 02, §2).
#![tactic(auto)]

mod finding;

ghost use Rattle.std.specs.Prelude.{◌≡◌, List, map, ℕ, ◌<◌, ◌≤◌, ℤ, length, get_or, take};
ghost use Rattle.lists.specs.Lists.{over};
ghost use Rattle.rules.specs.Limits.{limits, shaped_rings};
ghost use Rattle.rules.specs.State.{point_in};
ghost use Rattle.rules.specs.Face.{Ring};
ghost use Rattle.rules.specs.Holes.{holes_of, ring_nodes};
ghost use Rattle.holes.specs.Lent.{hole_of};
ghost use Rattle.inside.specs.Spots.{spot_in};
ghost use Rattle.candidates.specs.Candidates.{Candidates};
ghost use Rattle.holding.specs.Maps.{origins, map_of};
ghost use Rattle.views.specs.Views.{Slanted};
ghost use Rattle.holders.specs.Asked.{Asked, Ready, Boxable};

use candidate_order::order_by_start;
use candidates::{CANDIDATE_NUMBERS, list_enclosed};
pub use finding::holes_of_rings;
use hole_listing::{HoleList, list_holes};
use inside::write_whole;
use passing::write_passing;
use tables::{MAX_HALF_EDGES, MAX_NODES, MAX_SHAPED};
use views::{PLAIN, choose_slope, write_along};

// The node where each of the half-edges starts.
fn write_nodes(half_edges: &[u16], dir_edges_src: &[u16], nodes: &mut [u16])
    requires { (length half_edges.now ≤ length nodes.old) × ((k : ℕ) → k < length half_edges.now → get_or half_edges.now k 0 < length dir_edges_src.now) }
    ensures { nodes.new ≡ over (ring_nodes (origins dir_edges_src.now) half_edges.now) nodes.old }
{
    for k in 0..half_edges.len() {
        nodes[k] = dir_edges_src[usize::from(half_edges[k])];
    }
}

// Lists the enclosed rings in ring order, with their boxes in a view, and answers how many there are.
// As the map is, where a point lies to the right is its x, and no table has to be made for it.
// Not inlined, so that its tables have a frame of their own (docs/DECISIONS.md, the stack of a call).
#[inline(never)]
fn list_boxed(
    slope: u8,
    node_count: usize,
    ring_count: u16,
    nodes: &[u16],
    xs: &[i64],
    ys: &[i64],
    ring_first: &[u16],
    ring_length: &[u16],
    ring_side: &[u8],
    ring_area: &[f64],
    rings: &mut [u16],
    numbers: &mut [i64],
) -> usize
    requires { (rs : List Ring) × Boxable rs node_count nodes.now xs.now ys.now ring_first.now ring_length.now ring_side.now ring_area.now ring_count rings.old numbers.old }
    ensures { (rs : List Ring) → Boxable rs node_count nodes.now xs.now ys.now ring_first.now ring_length.now ring_side.now ring_area.now ring_count rings.old numbers.old
        → ((along : List ℤ) × Slanted slope xs.now ys.now node_count along × Candidates rs nodes.now along ys.now ring_first.now ring_length.now node_count ring_count rings.new numbers.new result) }
{
    let plain = slope == PLAIN;
    if plain {
        return list_enclosed(
            ring_count,
            node_count,
            nodes,
            xs,
            ys,
            ring_first,
            ring_length,
            ring_side,
            ring_area,
            rings,
            numbers,
        );
    }
    let mut along = [0i64; MAX_NODES];
    write_along(slope, xs, ys, node_count, &mut along);
    list_enclosed(
        ring_count,
        node_count,
        nodes,
        &along,
        ys,
        ring_first,
        ring_length,
        ring_side,
        ring_area,
        rings,
        numbers,
    )
}

// A record for each open ring of a map in whole numbers: the enclosed rings get boxes and an order, so
// that few of them are tested.
// Not inlined, so that its tables have a frame of their own (docs/DECISIONS.md, the stack of a call).
#[inline(never)]
fn holes_of_map(
    slope: u8,
    node_count: u16,
    ring_count: u16,
    ring_side: &[u8],
    ring_area: &[f64],
    half_edges: &[u16],
    nodes: &[u16],
    ring_first: &[u16],
    ring_length: &[u16],
    ring_face: &[u16],
    dir_edges_src: &[u16],
    xs: &[i64],
    ys: &[i64],
) -> HoleList
    requires { (rs : List Ring) × Ready rs node_count (map_of dir_edges_src.now xs.now ys.now half_edges.now nodes.now ring_first.now ring_length.now ring_face.now) ring_side.now ring_area.now ring_count }
    ensures holes { (rs : List Ring) → Ready rs node_count (map_of dir_edges_src.now xs.now ys.now half_edges.now nodes.now ring_first.now ring_length.now ring_face.now) ring_side.now ring_area.now ring_count
        → map hole_of (take result.count result.list) ≡ holes_of (spot_in xs.now ys.now) (origins dir_edges_src.now) rs }
    ensures few { (result.count ≤ shaped_rings limits) × (length result.list ≡ shaped_rings limits) }
{
    let mut rings = [0u16; MAX_SHAPED];
    let mut numbers = [0i64; CANDIDATE_NUMBERS];
    let count = list_boxed(
        slope,
        usize::from(node_count),
        ring_count,
        nodes,
        xs,
        ys,
        ring_first,
        ring_length,
        ring_side,
        ring_area,
        &mut rings,
        &mut numbers,
    );
    let mut order = [0u16; MAX_SHAPED];
    let mut least = [0i64; MAX_SHAPED];
    let mut reaches = [0u16; MAX_SHAPED];
    order_by_start(&numbers, count, &mut order);
    write_passing(&numbers, &order, count, &mut least, &mut reaches);
    list_holes(
        ring_count,
        ring_side,
        ring_area,
        slope,
        count,
        &rings,
        &numbers,
        &order,
        &least,
        &reaches,
        half_edges,
        nodes,
        ring_first,
        ring_length,
        ring_face,
        dir_edges_src,
        xs,
        ys,
    )
}

// A record for each open ring of the lists, in ring order. Coordinates become whole numbers once.
fn find_holes(
    node_count: u16,
    nodes_x: &[f64],
    nodes_y: &[f64],
    dir_edges_src: &[u16],
    half_edges: &[u16],
    ring_count: u16,
    ring_first: &[u16],
    ring_length: &[u16],
    ring_face: &[u16],
    ring_side: &[u8],
    ring_area: &[f64],
) -> HoleList
    requires { (rs : List Ring) × Asked rs node_count nodes_x.now nodes_y.now dir_edges_src.now half_edges.now ring_first.now ring_length.now ring_face.now ring_side.now ring_area.now ring_count }
    ensures holes { (rs : List Ring) → Asked rs node_count nodes_x.now nodes_y.now dir_edges_src.now half_edges.now ring_first.now ring_length.now ring_face.now ring_side.now ring_area.now ring_count
        → map hole_of (take result.count result.list) ≡ holes_of (point_in nodes_x.now nodes_y.now) (origins dir_edges_src.now) rs }
    ensures few { (result.count ≤ shaped_rings limits) × (length result.list ≡ shaped_rings limits) }
{
    let mut xs = [0i64; MAX_NODES];
    let mut ys = [0i64; MAX_NODES];
    write_whole(nodes_x, usize::from(node_count), &mut xs);
    write_whole(nodes_y, usize::from(node_count), &mut ys);
    let mut nodes = [0u16; MAX_HALF_EDGES];
    write_nodes(half_edges, dir_edges_src, &mut nodes);
    let slope = choose_slope(half_edges, dir_edges_src, nodes_x, nodes_y);
    holes_of_map(
        slope,
        node_count,
        ring_count,
        ring_side,
        ring_area,
        half_edges,
        &nodes,
        ring_first,
        ring_length,
        ring_face,
        dir_edges_src,
        &xs,
        &ys,
    )
}
