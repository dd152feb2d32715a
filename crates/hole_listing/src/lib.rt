// The holes: a record for each open ring, in ring order.
#![tactic(auto)]

ghost use Rattle.std.specs.Prelude.{◌≡◌, List, map, ℕ, ◌<◌, ◌≤◌, length, take};
ghost use Rattle.rules.specs.Limits.{limits, shaped_rings};
ghost use Rattle.rules.specs.Face.{Ring};
ghost use Rattle.rules.specs.Holes.{ring_at, holder_of_lem, holes_of};
ghost use Rattle.holes.specs.Lent.{hole_of};
ghost use Rattle.inside.specs.Spots.{spot_in};
ghost use Rattle.candidate_order.specs.Order.{InOrder};
ghost use Rattle.passing.specs.Passing.{Passable};
ghost use Rattle.holding.specs.Maps.{origins, map_of};
ghost use Rattle.holding.specs.Holding.{Stamps};
ghost use Rattle.holder_search.specs.Search.{Field};
ghost use Rattle.hole_listing.specs.Listing.{OpenListed};

use candidates::sides_at;
use holder_search::best_holder;
use holes::Hole;
use ring_lists::{OPEN, doubled_area};
use tables::{MAX_NODES, MAX_SHAPED, NodeId};
use views::along_of;

// The holder of a ring that no ring holds: the one outside.
const OUTSIDE: u16 = 65535;

// Records, and how many of them are holes.
#[derive(Clone, Copy)]
pub struct HoleList {
    pub list: [Hole; MAX_SHAPED],
    pub count: usize,
}

// The number of the ring that holds a ring.
fn holder_of(
    ring: u16,
    slope: u8,
    count: usize,
    rings: &[u16],
    numbers: &[i64],
    order: &[u16],
    least: &[i64],
    reaches: &[u16],
    half_edges: &[u16],
    nodes: &[u16],
    ring_first: &[u16],
    ring_length: &[u16],
    ring_face: &[u16],
    dir_edges_src: &[u16],
    xs: &[i64],
    ys: &[i64],
    stamps: &mut [u16],
) -> u16
    requires by_index { (rs : List Ring) × (bound : ℕ) × Field rs (map_of dir_edges_src.now xs.now ys.now half_edges.now nodes.now ring_first.now ring_length.now ring_face.now) bound slope rings.now numbers.now count × Stamps rs dir_edges_src.now bound stamps.old × (ring < length rs) }
    requires in_order { InOrder numbers.now count order.now × Passable numbers.now order.now count least.now reaches.now }
    ensures holder { (rs : List Ring) (bound : ℕ) → Field rs (map_of dir_edges_src.now xs.now ys.now half_edges.now nodes.now ring_first.now ring_length.now ring_face.now) bound slope rings.now numbers.now count → ring < length rs → result ≡ holder_of_lem (spot_in xs.now ys.now) (origins dir_edges_src.now) rs (ring_at rs ring) }
    ensures stamps { (rs : List Ring) (bound : ℕ) → Field rs (map_of dir_edges_src.now xs.now ys.now half_edges.now nodes.now ring_first.now ring_length.now ring_face.now) bound slope rings.now numbers.now count → Stamps rs dir_edges_src.now bound stamps.old → Stamps rs dir_edges_src.now bound stamps.new }
{
    let i = usize::from(ring);
    let sides = sides_at(ring, nodes, xs, ys, ring_first, ring_length);
    let corner = usize::from(sides.left);
    let y = ys[corner];
    let x = along_of(slope, xs[corner], y);
    let first = usize::from(ring_first[i]);
    let end = first + usize::from(ring_length[i]);
    let best = best_holder(
        &nodes[first..end],
        NodeId(sides.left),
        x,
        y,
        count,
        rings,
        numbers,
        order,
        least,
        reaches,
        half_edges,
        nodes,
        ring_first,
        ring_length,
        ring_face,
        dir_edges_src,
        xs,
        ys,
        stamps,
    );
    if best == count {
        return OUTSIDE;
    }
    rings[best]
}

// A record for each open ring.
// Not inlined, so that its tables have a frame of their own (docs/DECISIONS.md, the stack of a call).
#[inline(never)]
pub fn list_holes(
    ring_count: u16,
    ring_side: &[u8],
    ring_area: &[f64],
    slope: u8,
    count: usize,
    rings: &[u16],
    numbers: &[i64],
    order: &[u16],
    least: &[i64],
    reaches: &[u16],
    half_edges: &[u16],
    nodes: &[u16],
    ring_first: &[u16],
    ring_length: &[u16],
    ring_face: &[u16],
    dir_edges_src: &[u16],
    xs: &[i64],
    ys: &[i64],
) -> HoleList
    requires by_index { (rs : List Ring) × (bound : ℕ) × Field rs (map_of dir_edges_src.now xs.now ys.now half_edges.now nodes.now ring_first.now ring_length.now ring_face.now) bound slope rings.now numbers.now count × OpenListed rs ring_side.now ring_area.now ring_count × (bound ≤ limits.nodes) }
    requires in_order { InOrder numbers.now count order.now × Passable numbers.now order.now count least.now reaches.now }
    ensures holes { (rs : List Ring) (bound : ℕ) → Field rs (map_of dir_edges_src.now xs.now ys.now half_edges.now nodes.now ring_first.now ring_length.now ring_face.now) bound slope rings.now numbers.now count → OpenListed rs ring_side.now ring_area.now ring_count → bound ≤ limits.nodes → map hole_of (take result.count result.list) ≡ holes_of (spot_in xs.now ys.now) (origins dir_edges_src.now) rs }
    ensures few { (result.count ≤ shaped_rings limits) × (length result.list ≡ shaped_rings limits) }
{
    let mut list = [Hole {
        ring: 0,
        holder: 0,
        doubled: 0,
    }; MAX_SHAPED];
    let mut stamps = [0u16; MAX_NODES];
    let mut k = 0;
    for i in 0..ring_count {
        let ring = usize::from(i);
        let open = ring_side[ring] == OPEN;
        if open {
            let holder = holder_of(
                i,
                slope,
                count,
                rings,
                numbers,
                order,
                least,
                reaches,
                half_edges,
                nodes,
                ring_first,
                ring_length,
                ring_face,
                dir_edges_src,
                xs,
                ys,
                &mut stamps,
            );
            let doubled = doubled_area(ring_area[ring]);
            list[k] = Hole {
                ring: i,
                holder,
                doubled,
            };
            k += 1;
        }
    }
    HoleList { list, count: k }
}
