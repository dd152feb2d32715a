// Number 7: document 01's soundness list, a small function for each of its tests, and all of them in one. A test
// goes on past what fails it: a sound state is read to its end anyway, and a loop with one way out takes
// many entries at a time.
ghost use Rattle.std.specs.Prelude.{◌≡◌, List, ℕ, ◌+◌, ◌*◌, ◌<◌, ◌≤◌, length, Float};
ghost use Rattle.lists.specs.Lists.{upto, all};
ghost use Rattle.rules.specs.Limits.{limits};
ghost use Rattle.rules.specs.LineIds.{Tracings};
ghost use Rattle.rules.specs.State.{sound_graph};
ghost use Rattle.tables.specs.Tables.{state_of};
ghost use Rattle.table_tests.specs.Tests.{counts_within_lem, ends_swap_lem, twins_alike, stands_once, lies_whole, unmarked, node_fresh, fresh_tables, listed_tables};
ghost use Rattle.table_tests.specs.Given.{Room, Listable, Resettable};

use crate::starts::count_starts;
use tables::{MAX_EDGES, MAX_NODES, PlanarGraph, is_marked};

// Counts are within the limits, and the stage is one of 0 to 4.
fn counts_within(graph: PlanarGraph) -> bool
    ensures { result ≡ counts_within_lem limits graph.node_count graph.edge_count graph.stage }
{
    (usize::from(graph.node_count) <= MAX_NODES)
        & (usize::from(graph.edge_count) <= MAX_EDGES)
        & (graph.stage <= 4)
}

// Edge k's half-edges swap two different nodes below the node count.
fn ends_swap(nodes: u16, dir_edges_src: &[u16], dir_edges_dst: &[u16], k: usize) -> bool
    requires { (2 * k + 1 < length dir_edges_src.now) × (2 * k + 1 < length dir_edges_dst.now) }
    ensures { result ≡ ends_swap_lem nodes dir_edges_src.now dir_edges_dst.now k }
{
    let a = dir_edges_src[2 * k];
    let b = dir_edges_dst[2 * k];
    (a < nodes)
        & (b < nodes)
        & (a != b)
        & (dir_edges_src[2 * k + 1] == b)
        & (dir_edges_dst[2 * k + 1] == a)
}

// Every edge's half-edges do.
fn all_ends_swap(nodes: u16, edges: usize, dir_edges_src: &[u16], dir_edges_dst: &[u16]) -> bool
    requires { (2 * edges ≤ length dir_edges_src.now) × (2 * edges ≤ length dir_edges_dst.now) }
    ensures { result ≡ all (ends_swap_lem nodes dir_edges_src.now dir_edges_dst.now) (upto edges) }
{
    let mut good = true;
    for k in 0..edges {
        good = good & ends_swap(nodes, dir_edges_src, dir_edges_dst, k);
    }
    good
}

// Twins are marked alike.
fn all_twins_alike(edges: usize, dir_edges_marked: &[bool]) -> bool
    requires { 2 * edges ≤ length dir_edges_marked.now }
    ensures { result ≡ all (twins_alike dir_edges_marked.now) (upto edges) }
{
    let mut good = true;
    for k in 0..edges {
        let alike = is_marked(dir_edges_marked, 2 * k) == is_marked(dir_edges_marked, 2 * k + 1);
        good = good & alike;
    }
    good
}

// Each half-edge stands once among as many entries of the star table: none is out of range and
// none is there twice, so that by their number all are there.
fn all_stand_once(halves: usize, nodes_outgoing: &[u16]) -> bool
    requires { (halves ≤ 2 * limits.edges) × (halves ≤ length nodes_outgoing.now) }
    ensures { result ≡ all (stands_once halves nodes_outgoing.now) (upto halves) }
{
    let mut seen = [false; 2 * MAX_EDGES];
    for i in 0..halves {
        let h = usize::from(nodes_outgoing[i]);
        if halves <= h {
            return false;
        }
        if seen[h] {
            return false;
        }
        seen[h] = true;
    }
    true
}

// Stored x and y meet the rule of number 1.
fn all_lie_whole(nodes: usize, nodes_x: &[f64], nodes_y: &[f64]) -> bool
    requires { (nodes ≤ length nodes_x.now) × (nodes ≤ length nodes_y.now) }
    ensures { result ≡ all (lies_whole limits.bound nodes_x.now nodes_y.now) (upto nodes) }
{
    let mut good = true;
    for n in 0..nodes {
        let whole = geometry::is_coordinate(nodes_x[n]) & geometry::is_coordinate(nodes_y[n]);
        good = good & whole;
    }
    good
}

// No mark is set.
fn none_marked(count: usize, marks: &[bool]) -> bool
    requires { count ≤ length marks.now }
    ensures { result ≡ all (unmarked marks.now) (upto count) }
{
    let mut good = true;
    for i in 0..count {
        good = good & !is_marked(marks, i);
    }
    good
}

// No node is marked, and each degree is the count beside it.
fn nodes_fresh(
    nodes: usize,
    nodes_degree: &[u16],
    nodes_marked: &[bool],
    counts: &[u16; MAX_NODES],
) -> bool
    requires { (nodes ≤ limits.nodes) × (nodes ≤ length nodes_degree.now) × (nodes ≤ length nodes_marked.now) }
    ensures { result ≡ all (node_fresh nodes_marked.now nodes_degree.now counts.now) (upto nodes) }
{
    let mut good = true;
    for n in 0..nodes {
        let fresh = !is_marked(nodes_marked, n) & (nodes_degree[n] == counts[n]);
        good = good & fresh;
    }
    good
}

// What every state has to meet: ends, twins, stars and coordinates. In a sound state every test
// runs to its end, so none is skipped for another.
fn tables_listed(
    graph: PlanarGraph,
    nodes_x: &[f64],
    nodes_y: &[f64],
    dir_edges_src: &[u16],
    dir_edges_dst: &[u16],
    dir_edges_marked: &[bool],
    nodes_outgoing: &[u16],
) -> bool
    requires { Listable limits graph.node_count graph.edge_count nodes_x.now nodes_y.now dir_edges_src.now dir_edges_dst.now dir_edges_marked.now nodes_outgoing.now }
    ensures { result ≡ listed_tables limits.bound graph.node_count graph.edge_count nodes_x.now nodes_y.now dir_edges_src.now dir_edges_dst.now dir_edges_marked.now nodes_outgoing.now }
{
    let nodes = usize::from(graph.node_count);
    let edges = usize::from(graph.edge_count);
    all_ends_swap(graph.node_count, edges, dir_edges_src, dir_edges_dst)
        & all_twins_alike(edges, dir_edges_marked)
        & all_stand_once(2 * edges, nodes_outgoing)
        & all_lie_whole(nodes, nodes_x, nodes_y)
}

// Nothing is marked, and each degree is the number of half-edges that start at the node.
fn tables_fresh(
    graph: PlanarGraph,
    nodes_degree: &[u16],
    nodes_marked: &[bool],
    dir_edges_src: &[u16],
    dir_edges_marked: &[bool],
) -> bool
    requires { Resettable limits graph.node_count graph.edge_count dir_edges_src.now nodes_degree.now nodes_marked.now dir_edges_marked.now }
    ensures { result ≡ fresh_tables graph.node_count (2 * graph.edge_count) nodes_degree.now nodes_marked.now dir_edges_src.now dir_edges_marked.now }
{
    let nodes = usize::from(graph.node_count);
    let halves = 2 * usize::from(graph.edge_count);
    let counts = count_starts(halves, dir_edges_src);
    nodes_fresh(nodes, nodes_degree, nodes_marked, &counts) & none_marked(halves, dir_edges_marked)
}

// The list holds. What the tables hold that no test reads does not matter.
pub fn is_sound(
    graph: PlanarGraph,
    nodes_x: &[f64],
    nodes_y: &[f64],
    nodes_degree: &[u16],
    nodes_marked: &[bool],
    dir_edges_src: &[u16],
    dir_edges_dst: &[u16],
    dir_edges_marked: &[bool],
    nodes_outgoing: &[u16],
) -> bool
    requires { Room limits nodes_x.now nodes_y.now nodes_degree.now nodes_marked.now dir_edges_src.now dir_edges_dst.now dir_edges_marked.now nodes_outgoing.now }
    ensures { (nodes_z edges_line : List Float) (edges_line_id : List ℕ) (tracings : Tracings) → result ≡ sound_graph limits (state_of graph nodes_x.now nodes_y.now nodes_z nodes_degree.now nodes_marked.now edges_line edges_line_id dir_edges_src.now dir_edges_dst.now dir_edges_marked.now nodes_outgoing.now tracings) }
{
    if !counts_within(graph) {
        return false;
    }
    if !tables_listed(
        graph,
        nodes_x,
        nodes_y,
        dir_edges_src,
        dir_edges_dst,
        dir_edges_marked,
        nodes_outgoing,
    ) {
        return false;
    }
    if 1 < graph.stage {
        return true;
    }
    tables_fresh(
        graph,
        nodes_degree,
        nodes_marked,
        dir_edges_src,
        dir_edges_marked,
    )
}
