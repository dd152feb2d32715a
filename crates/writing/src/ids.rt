// Writing one more line id behind an edge that is there.
ghost use Rattle.std.specs.Prelude.{◌≡◌, Bool, false, List, ℕ, Float};
ghost use Rattle.rules.specs.Adding.{with_id};
ghost use Rattle.rules.specs.Limits.{limits};
ghost use Rattle.tables.specs.Regions.{state_in};
ghost use Rattle.tables.specs.declared.PlanarGraph.{PlanarGraph};
ghost use Rattle.table_entries.specs.Written.{IdRoom};

use pair_entries::{put_behind, put_first, put_lowest, put_pair};
use tables::{EdgeId, LIST_END, LIST_PLACES};

// An id that is new to an edge, as a pair at a place: behind the last pair of its list with a lower id,
// or first where there is none, and then the edge's line id is lowered to it.
pub fn enter_id(
    edge: EdgeId,
    id: u32,
    behind: u16,
    place: u16,
    numbers: &mut [u16],
    ids: &mut [u32],
)
    requires { IdRoom limits edge.0 id behind place numbers.old ids.old }
    ensures { (graph : PlanarGraph) (floats : List Float) (stars : List ℕ) (marks : List Bool) →
        state_in limits graph floats numbers.new stars marks ids.new
        ≡ with_id false limits.pairs edge.0 id place (state_in limits graph floats numbers.old stars marks ids.old) }
{
    if behind == LIST_END {
        let first = numbers[LIST_PLACES + usize::from(edge.0)];
        put_first(edge, place, first, numbers);
        put_lowest(edge, place, id, ids);
    } else {
        put_behind(behind, place, numbers);
        put_pair(place, id, ids);
    }
}
