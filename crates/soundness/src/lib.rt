// Number 7: the soundness list and the lists of line ids, of tables that are regions.
#![tactic(auto)]

ghost use Rattle.std.specs.Prelude.{◌≡◌, List, ℕ, ◌≤◌, length};
ghost use Rattle.rules.specs.Limits.{limits};
ghost use Rattle.rules.specs.LineIds.{sound_lists};
ghost use Rattle.rules.specs.State.{sound_graph, sound};
ghost use Rattle.tables.specs.Regions.{state_in, line_ids_in, tracings_in, least_floats, least_numbers, least_stars, least_marks, least_ids, SliceRoom};

use tables::{
    DEGREES, HALF_MARKS, LINKS, LIST_PLACES, NODES_Y, NODES_Z, PAIR_IDS, PlanarGraph, TARGETS,
};

// Document 01's list. Each table that it reads is lent as a part of its slice; ids are not read.
fn is_sound_graph(
    graph: PlanarGraph,
    floats: &[f64],
    numbers: &[u16],
    stars: &[u16],
    marks: &[bool],
) -> bool
    requires { (least_floats limits ≤ length floats.now) × (least_numbers limits ≤ length numbers.now) × (least_stars limits ≤ length stars.now) × (least_marks limits ≤ length marks.now) }
    ensures { (ids : List ℕ) → result ≡ sound_graph limits (state_in limits graph floats.now numbers.now stars.now marks.now ids) }
{
    table_tests::is_sound(
        graph,
        &floats[0..NODES_Y],
        &floats[NODES_Y..NODES_Z],
        &stars[DEGREES..],
        &marks[0..HALF_MARKS],
        &numbers[0..TARGETS],
        &numbers[TARGETS..LIST_PLACES],
        &marks[HALF_MARKS..],
        &stars[0..DEGREES],
    )
}

// The lists of line ids of that many edges.
fn are_lists_sound(edges: u16, numbers: &[u16], ids: &[u32]) -> bool
    requires { (edges ≤ limits.edges) × (least_numbers limits ≤ length numbers.now) × (least_ids limits ≤ length ids.now) }
    ensures { result ≡ sound_lists limits.pairs (tracings_in limits numbers.now ids.now) (line_ids_in limits ids.now) edges }
{
    list_tests::lists_sound(
        usize::from(edges),
        &numbers[LIST_PLACES..LINKS],
        &ids[0..PAIR_IDS],
        &ids[PAIR_IDS..],
        &numbers[LINKS..],
    )
}

// Both. Lists are read of no more edges than there may be.
pub fn is_sound(
    graph: PlanarGraph,
    floats: &[f64],
    numbers: &[u16],
    stars: &[u16],
    marks: &[bool],
    ids: &[u32],
) -> bool
    requires { SliceRoom limits floats.now numbers.now stars.now marks.now ids.now }
    ensures { result ≡ sound limits (state_in limits graph floats.now numbers.now stars.now marks.now ids.now) }
{
    if is_sound_graph(graph, floats, numbers, stars, marks) {
        return are_lists_sound(graph.edge_count, numbers, ids);
    }
    false
}
