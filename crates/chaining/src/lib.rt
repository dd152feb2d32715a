// The nodes and half-edges of a graph, chained: all of them at first, and then what an addition brought; and
// what a line comes to in such a graph.
#![tactic(auto)]

ghost use Rattle.std.specs.Prelude.{◌≡◌, ◌+◌, ◌*◌, ◌≤◌, length, replicate};
ghost use Rattle.rules.specs.Limits.{limits};
ghost use Rattle.tables.specs.Regions.{xs_in, ys_in, sources_in, targets_in, star_table_in};
ghost use Rattle.making.specs.Matching.{SearchableIn, FoundIn};
ghost use Rattle.lookup.specs.Codes.{node_heads, half_heads};
ghost use Rattle.lookup.specs.Indexed.{NodesChained, HalvesChained};

use geometry::Line3D;
use lookup::{enter_halves, enter_nodes, find_half, find_node};
use making::Matches;
use tables::{DEGREES, LIST_PLACES, NODES_Y, NODES_Z, PlanarGraph, TARGETS};

// Chains the nodes and half-edges of a graph that has more of them than are chained.
pub fn chain_more(
    chained: PlanarGraph,
    graph: PlanarGraph,
    floats: &[f64],
    numbers: &[u16],
    stars: &[u16],
    node_chains: &mut [u16],
    half_chains: &mut [u16],
)
    requires searchable_in { SearchableIn limits graph floats.now numbers.now stars.now }
    requires nodes_chained { NodesChained chained.node_count (xs_in limits floats.now) (ys_in limits floats.now) node_chains.old
        × (chained.node_count ≤ graph.node_count) × (node_heads + graph.node_count ≤ length node_chains.old) }
    requires halves_chained { HalvesChained (2 * chained.edge_count) (sources_in limits numbers.now) (targets_in limits numbers.now) (star_table_in limits stars.now) half_chains.old
        × (chained.edge_count ≤ graph.edge_count) × (half_heads + 2 * graph.edge_count ≤ length half_chains.old) }
    ensures nodes { NodesChained graph.node_count (xs_in limits floats.now) (ys_in limits floats.now) node_chains.new }
    ensures halves { HalvesChained (2 * graph.edge_count) (sources_in limits numbers.now) (targets_in limits numbers.now) (star_table_in limits stars.now) half_chains.new }
{
    enter_nodes(
        &floats[0..NODES_Y],
        &floats[NODES_Y..NODES_Z],
        node_chains,
        chained.node_count,
        graph.node_count,
    );
    enter_halves(
        &numbers[0..TARGETS],
        &numbers[TARGETS..LIST_PLACES],
        &stars[0..DEGREES],
        half_chains,
        2 * chained.edge_count,
        2 * graph.edge_count,
    );
}

// Chains all nodes and half-edges of a graph, in tables of chains that hold none.
pub fn chain_all(
    graph: PlanarGraph,
    floats: &[f64],
    numbers: &[u16],
    stars: &[u16],
    node_chains: &mut [u16],
    half_chains: &mut [u16],
)
    requires searchable_in { SearchableIn limits graph floats.now numbers.now stars.now }
    requires node_chains_value { (node_chains.old ≡ replicate (length node_chains.old) 0) × (node_heads + limits.nodes ≤ length node_chains.old) }
    requires half_chains_value { (half_chains.old ≡ replicate (length half_chains.old) 0) × (half_heads + 2 * limits.edges ≤ length half_chains.old) }
    ensures nodes { NodesChained graph.node_count (xs_in limits floats.now) (ys_in limits floats.now) node_chains.new }
    ensures halves { HalvesChained (2 * graph.edge_count) (sources_in limits numbers.now) (targets_in limits numbers.now) (star_table_in limits stars.now) half_chains.new }
{
    let none = PlanarGraph {
        node_count: 0,
        edge_count: 0,
        stage: 0,
    };
    chain_more(
        none,
        graph,
        floats,
        numbers,
        stars,
        node_chains,
        half_chains,
    );
}

// The nodes of a line's ends and the half-edge between them, by the chains.
pub fn find_chained(
    graph: PlanarGraph,
    line: Line3D,
    floats: &[f64],
    numbers: &[u16],
    stars: &[u16],
    node_chains: &[u16],
    half_chains: &[u16],
) -> Matches
    requires searchable_in { SearchableIn limits graph floats.now numbers.now stars.now }
    requires nodes_chained { NodesChained graph.node_count (xs_in limits floats.now) (ys_in limits floats.now) node_chains.now }
    requires halves_chained { HalvesChained (2 * graph.edge_count) (sources_in limits numbers.now) (targets_in limits numbers.now) (star_table_in limits stars.now) half_chains.now }
    ensures { FoundIn limits line graph floats.now numbers.now stars.now result }
{
    let xs = &floats[0..NODES_Y];
    let ys = &floats[NODES_Y..NODES_Z];
    let start = find_node(graph.node_count, xs, ys, node_chains, line.start);
    let end = find_node(graph.node_count, xs, ys, node_chains, line.end);
    let half = find_half(
        graph.edge_count,
        &numbers[0..TARGETS],
        &numbers[TARGETS..LIST_PLACES],
        &stars[0..DEGREES],
        half_chains,
        start,
        end,
    );
    Matches { start, end, half }
}
