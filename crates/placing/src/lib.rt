// Where a line's id goes: the marks of the places in use and the search in an edge's list, on the lent
// slices, and the lowest free place after an addition.
#![tactic(auto)]

ghost use Rattle.std.specs.Prelude.{◌≡◌, true, ◌&&◌, cond, ◌+◌, ◌*◌, ◌≤◌, ltb, length};
ghost use Rattle.lists.specs.Lists.{member};
ghost use Rattle.rules.specs.HalfEdge.{edge_of};
ghost use Rattle.rules.specs.Limits.{limits};
ghost use Rattle.rules.specs.LineIds.{list_end, places_of, ids_of, last_lower};
ghost use Rattle.rules.specs.Traced.{entered};
ghost use Rattle.tables.specs.Regions.{list_places_in, links_in, tracings_in, least_numbers};
ghost use Rattle.line_ids.specs.Free.{used_marks, Ending, free_from};
ghost use Rattle.adding.specs.Outcomes.{reply_of};
ghost use Rattle.placing.specs.Placing.{SeekableIn};

use adding::LineEdge;
use line_ids::{Sought, mark_used, next_free, seek_id};
use tables::{DirEdgeId, EdgeId, LINKS, LIST_END, LIST_PLACES, MAX_PAIRS, PAIR_IDS, Refusal};

// The places that the lists of that many edges use.
pub fn mark_lists(edges: u16, numbers: &[u16]) -> [bool; MAX_PAIRS]
    requires { (least_numbers limits ≤ length numbers.now) × Ending limits.pairs (list_places_in limits numbers.now) (links_in limits numbers.now) edges }
    ensures { result ≡ used_marks limits.pairs (list_places_in limits numbers.now) (links_in limits numbers.now) edges }
{
    mark_used(
        usize::from(edges),
        &numbers[LIST_PLACES..LINKS],
        &numbers[LINKS..],
    )
}

// Whether the edge of a half-edge has the id, and the place behind which it goes. A half-edge that is not
// there has neither.
pub fn seek_line(edges: u16, half: DirEdgeId, id: u32, numbers: &[u16], ids: &[u32]) -> Sought
    requires { SeekableIn limits edges numbers.now ids.now }
    ensures known { result.known ≡ (ltb half.0 (2 * edges) && member id (ids_of limits.pairs (tracings_in limits numbers.now ids.now) (edge_of half.0))) }
    ensures behind { ltb half.0 (2 * edges) ≡ true → result.behind ≡ last_lower (tracings_in limits numbers.now ids.now).id id list_end (places_of limits.pairs (tracings_in limits numbers.now ids.now) (edge_of half.0)) }
{
    if half.0 < 2 * edges {
        return seek_id(
            EdgeId(half.0 / 2),
            id,
            &numbers[LIST_PLACES..LINKS],
            &ids[PAIR_IDS..],
            &numbers[LINKS..],
        );
    }
    Sought {
        known: false,
        behind: LIST_END,
    }
}

// The lowest free place after an addition: the next one where it took a pair. Marks that were made before
// serve on, since no addition frees a place.
pub fn free_after(
    reply: Result<LineEdge, Refusal>,
    known: bool,
    free: u16,
    used: &[bool; MAX_PAIRS],
) -> u16
    requires { entered known (reply_of reply) ≡ true → free + 1 ≤ limits.pairs }
    ensures { result ≡ cond (entered known (reply_of reply)) (free_from used.now (free + 1) limits.pairs) free }
{
    match reply {
        Ok(LineEdge::New(_)) => next_free(free + 1, used),
        Ok(LineEdge::Old(_)) => {
            if known {
                free
            } else {
                next_free(free + 1, used)
            }
        }
        Err(_) => free,
    }
}
