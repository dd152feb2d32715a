// What an addition looks for before it decides: the nodes of both ends, the edge between them, and the place
// of its line id.
#![tactic(auto)]

ghost use Rattle.rules.specs.Limits.{limits};
ghost use Rattle.tables.specs.Regions.{state_in};
ghost use Rattle.std.specs.Prelude.{Bool, List, ℕ, Float};
ghost use Rattle.placing.specs.Placing.{SeekableIn};
ghost use Rattle.making.specs.Matching.{SearchableIn, FoundIn, PlacedIn};

use geometry::Line3D;
use line_ids::next_free;
use making::{IdPlace, Matches};
use placing::{mark_lists, seek_line};
use searching::{find_edge, find_node};
use tables::{DEGREES, LIST_PLACES, NODES_Y, NODES_Z, PlanarGraph, TARGETS};

// The nodes of a line's ends and the half-edge between them, searched in the parts of the slices that
// they lie in.
pub fn find_matches(
    graph: PlanarGraph,
    line: Line3D,
    floats: &[f64],
    numbers: &[u16],
    stars: &[u16],
) -> Matches
    requires { SearchableIn limits graph floats.now numbers.now stars.now }
    ensures { FoundIn limits line graph floats.now numbers.now stars.now result }
{
    let xs = &floats[0..NODES_Y];
    let ys = &floats[NODES_Y..NODES_Z];
    let start = find_node(graph, xs, ys, line.start);
    let end = find_node(graph, xs, ys, line.end);
    let half = find_edge(
        graph,
        &numbers[0..TARGETS],
        &numbers[TARGETS..LIST_PLACES],
        &stars[0..DEGREES],
        start,
        end,
    );
    Matches { start, end, half }
}

// Where the line's id goes. The places in use are marked anew in each call: what the test of the state saw
// of them is gone.
pub fn find_place(
    graph: PlanarGraph,
    line: Line3D,
    matches: Matches,
    numbers: &[u16],
    ids: &[u32],
) -> IdPlace
    requires { SeekableIn limits graph.edge_count numbers.now ids.now }
    ensures { (floats : List Float) (stars : List ℕ) (marks : List Bool) → PlacedIn limits line (state_in limits graph floats numbers.now stars marks ids.now) matches result }
{
    let edges = graph.edge_count;
    let half = matches.half;
    let sought = seek_line(edges, half, line.line_id, numbers, ids);
    let used = mark_lists(edges, numbers);
    let free = next_free(0, &used);
    IdPlace {
        known: sought.known,
        behind: sought.behind,
        free,
    }
}
