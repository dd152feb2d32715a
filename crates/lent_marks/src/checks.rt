// The tests of bytes that every call makes before it reads them as marks: number 6 of all slices, and
// number 7 of the bytes in use.
ghost use Rattle.std.specs.Prelude.{◌≡◌, ◌≤◌, length};
ghost use Rattle.lists.specs.Lists.{upto, all};
ghost use Rattle.rules.specs.Limits.{limits};
ghost use Rattle.rules.specs.State.{roomy};
ghost use Rattle.tables.specs.Regions.{least_marks};
ghost use Rattle.tables.specs.declared.PlanarGraph.{PlanarGraph};
ghost use Rattle.lent_marks.specs.Marks.{lent_state, mark_at_lem, plain};
ghost use Rattle.lent_marks.specs.Checks.{marks_check};

use tables::{HALF_MARKS, MAX_EDGES, MAX_NODES, PlanarGraph, Refusal};

// Number 6. Counts and stage do not matter to it, so it holds whatever graph the slices are lent with.
pub fn has_room(floats: &[f64], numbers: &[u16], stars: &[u16], marks: &[u8], ids: &[u32]) -> bool
    ensures { (graph : PlanarGraph) → result ≡ roomy limits (lent_state limits graph floats.now numbers.now stars.now marks.now ids.now) }
{
    calls::are_long(
        floats.len(),
        numbers.len(),
        stars.len(),
        marks.len(),
        ids.len(),
    )
}

// The first bytes are 0 or 1. It goes on past a bad one: a loop with one way out takes many bytes at a
// time, and a good row has to be read to its end anyway.
fn are_marks(count: usize, bytes: &[u8]) -> bool
    requires { count ≤ length bytes.now }
    ensures { result ≡ all (mark_at_lem bytes.now) (upto count) }
{
    let mut good = true;
    for i in 0..count {
        good = good & (bytes[i] < 2);
    }
    good
}

// The bytes in use, of nodes and of half-edges. Counts past the limits use bytes that are not there.
fn are_plain(graph: PlanarGraph, marks: &[u8]) -> bool
    requires { least_marks limits ≤ length marks.now }
    ensures { result ≡ plain limits graph.node_count graph.edge_count marks.now }
{
    let nodes = usize::from(graph.node_count);
    let edges = usize::from(graph.edge_count);
    if MAX_NODES < nodes {
        return false;
    }
    if MAX_EDGES < edges {
        return false;
    }
    are_marks(nodes, marks) & are_marks(2 * edges, &marks[HALF_MARKS..])
}

// Numbers 6 and 7 of what is lent as bytes.
pub fn check_marks(
    graph: PlanarGraph,
    floats: &[f64],
    numbers: &[u16],
    stars: &[u16],
    marks: &[u8],
    ids: &[u32],
) -> Result<(), Refusal>
    ensures { result ≡ marks_check limits (lent_state limits graph floats.now numbers.now stars.now marks.now ids.now) marks.now }
{
    if has_room(floats, numbers, stars, marks, ids) {
        if are_plain(graph, marks) {
            return Ok(());
        }
        return Err(Refusal::Unsound);
    }
    Err(Refusal::TableTooShort)
}
