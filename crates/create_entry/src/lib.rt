// Creating an empty graph over lent slices.
#![tactic(auto)]

ghost use Rattle.std.specs.Prelude.{◌≡◌};
ghost use Rattle.rules.specs.Limits.{limits};
ghost use Rattle.tables.specs.Regions.{state_in};
ghost use Rattle.tables.specs.declared.PlanarGraph.{PlanarGraph};
ghost use Rattle.create_entry.specs.Replies.{created_reply, created_graph, created_if};
ghost use Rattle.create_entry.specs.Clause.{Creates};

use tables::{PlanarGraph, Refusal};

// Counts and stage 0 where every slice has room, for a caller that tested number 6 itself.
pub fn create_if(room: bool) -> Result<PlanarGraph, Refusal>
    ensures { result ≡ created_if room }
{
    if room {
        return Ok(PlanarGraph {
            node_count: 0,
            edge_count: 0,
            stage: 0,
        });
    }
    Err(Refusal::TableTooShort)
}

// Number 6, then counts and stage 0. No table is read or written. Where it is refused, whatever
// graph the caller had over these slices stays as it was.
pub fn create(
    floats: &[f64],
    numbers: &[u16],
    stars: &[u16],
    marks: &[bool],
    ids: &[u32],
) -> Result<PlanarGraph, Refusal>
    ensures { (graph : PlanarGraph) → Creates
        (state_in limits graph floats.now numbers.now stars.now marks.now ids.now)
        (created_reply result)
        (state_in limits (created_graph graph result) floats.now numbers.now stars.now marks.now ids.now) }
{
    create_if(calls::has_room(floats, numbers, stars, marks, ids))
}
