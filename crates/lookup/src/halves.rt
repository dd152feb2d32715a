// Half-edges chained by their ends: behind the heads of the chains comes an entry for each entry of the
// star table.
ghost use Rattle.std.specs.Prelude.{◌≡◌, ℕ, ◌+◌, ◌*◌, ◌<◌, ◌≤◌, length, get_or};
ghost use Rattle.rules.specs.Limits.{limits};
ghost use Rattle.searching.specs.Searches.{find_half_in};
ghost use Rattle.lookup.specs.Codes.{half_heads, pair_code_lem};
ghost use Rattle.lookup.specs.Indexed.{HalvesChained};

use crate::codes::{HALF_HEADS, pair_code};
use tables::{DirEdgeId, NodeId};

// The code of a half-edge.
fn half_code(dir_edges_src: &[u16], dir_edges_dst: &[u16], half: DirEdgeId) -> usize
    requires { (half.0 < length dir_edges_src.now) × (half.0 < length dir_edges_dst.now) }
    ensures { result ≡ pair_code_lem (get_or dir_edges_src.now half.0 0) (get_or dir_edges_dst.now half.0 0) }
{
    let h = half.0 as usize;
    pair_code(NodeId(dir_edges_src[h]), NodeId(dir_edges_dst[h]))
}

// Chains the half-edges at the star table's entries from `from` up to `to`, those before being chained.
pub fn enter_halves(
    dir_edges_src: &[u16],
    dir_edges_dst: &[u16],
    nodes_outgoing: &[u16],
    half_chains: &mut [u16],
    from: u16,
    to: u16,
)
    requires halves_chained { HalvesChained from dir_edges_src.now dir_edges_dst.now nodes_outgoing.now half_chains.old }
    requires from_le_to { (from ≤ to) × (to ≤ length nodes_outgoing.now) × (half_heads + to ≤ length half_chains.old) }
    requires by_index { (i : ℕ) → i < to → (get_or nodes_outgoing.now i 0 < length dir_edges_src.now) × (get_or nodes_outgoing.now i 0 < length dir_edges_dst.now) }
    ensures { HalvesChained to dir_edges_src.now dir_edges_dst.now nodes_outgoing.now half_chains.new }
{
    for i in from..to {
        let h = nodes_outgoing[i as usize];
        let code = half_code(dir_edges_src, dir_edges_dst, DirEdgeId(h));
        chains::enter(half_chains, HALF_HEADS, code, i);
    }
}

// The first half-edge of u's star that ends at v, or the number of half-edges. The chain of the two
// ends' code is walked to its end, from the last entry to the first.
pub fn find_half(
    edges: u16,
    dir_edges_src: &[u16],
    dir_edges_dst: &[u16],
    nodes_outgoing: &[u16],
    half_chains: &[u16],
    u: NodeId,
    v: NodeId,
) -> DirEdgeId
    requires { (edges ≤ limits.edges) × HalvesChained (2 * edges) dir_edges_src.now dir_edges_dst.now nodes_outgoing.now half_chains.now }
    ensures { result.0 ≡ find_half_in edges dir_edges_src.now dir_edges_dst.now nodes_outgoing.now u.0 v.0 }
{
    let code = pair_code(u, v);
    let mut found = 2 * edges;
    let mut at = half_chains[code];
    while 0 < at {
        let i = (at - 1) as usize;
        let h = nodes_outgoing[i];
        if searching::goes(dir_edges_src, dir_edges_dst, DirEdgeId(h), u, v) {
            found = h;
        }
        at = half_chains[HALF_HEADS + i];
    }
    DirEdgeId(found)
}
