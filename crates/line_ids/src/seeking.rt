// Where an id is in an edge's list, or where it goes.
ghost use Rattle.std.specs.Prelude.{◌≡◌};
ghost use Rattle.lists.specs.Lists.{member};
ghost use Rattle.rules.specs.Limits.{limits};
ghost use Rattle.rules.specs.LineIds.{list_end, places_of, ids_of, last_lower};
ghost use Rattle.line_ids.specs.Seeking.{Seekable};

use tables::{EdgeId, LIST_END};

// Whether the id is there, and the last place whose id is lower; LIST_END where none is. A struct and
// no Option: where the id is there, seek_id's clause `behind` still gives the last lower place.
#[derive(Clone, Copy)]
pub struct Sought {
    pub known: bool,
    pub behind: u16,
}

// The list rises, so the walk ends at the first id that is not lower.
pub fn seek_id(
    edge: EdgeId,
    id: u32,
    list_places: &[u16],
    pair_ids: &[u32],
    links: &[u16],
) -> Sought
    requires { Seekable limits.pairs (record { place = list_places.now; id = pair_ids.now; next = links.now }) edge.0 }
    ensures known { result.known ≡ member id (ids_of limits.pairs (record { place = list_places.now; id = pair_ids.now; next = links.now }) edge.0) }
    ensures behind { result.behind ≡ last_lower pair_ids.now id list_end (places_of limits.pairs (record { place = list_places.now; id = pair_ids.now; next = links.now }) edge.0) }
{
    let k = usize::from(edge.0);
    let mut behind = LIST_END;
    let mut at = list_places[k];
    while at != LIST_END {
        let p = usize::from(at);
        let here = pair_ids[p];
        if id <= here {
            return Sought {
                known: id == here,
                behind,
            };
        }
        behind = at;
        at = links[p];
    }
    Sought {
        known: false,
        behind,
    }
}
