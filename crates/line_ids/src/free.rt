// Which places of the table are in use, and the first that is free. The marks are made once: no
// addition frees a place, so that a search may go on from where the last one ended.
ghost use Rattle.std.specs.Prelude.{◌≡◌, ◌≤◌};
ghost use Rattle.rules.specs.Limits.{limits};
ghost use Rattle.line_ids.specs.Free.{used_marks, list_places_lem, marked, Ends, Ending, free_from};

use tables::{LIST_END, MAX_PAIRS};

// The places of edge k's list are marked.
fn mark_list(k: usize, list_places: &[u16], links: &[u16], used: &mut [bool; MAX_PAIRS])
    requires { Ends limits.pairs list_places.now links.now k }
    ensures { used.new ≡ marked (list_places_lem limits.pairs list_places.now links.now k) used.old }
{
    let mut at = list_places[k];
    while at != LIST_END {
        let p = usize::from(at);
        used[p] = true;
        at = links[p];
    }
}

// Those of all lists.
pub fn mark_used(edges: usize, list_places: &[u16], links: &[u16]) -> [bool; MAX_PAIRS]
    requires { Ending limits.pairs list_places.now links.now edges }
    ensures { result ≡ used_marks limits.pairs list_places.now links.now edges }
{
    let mut used = [false; MAX_PAIRS];
    for k in 0..edges {
        mark_list(k, list_places, links, &mut used);
    }
    used
}

// The first place from a given one on that is not marked; MAX_PAIRS where all are. A loop and no find,
// whose closure would have to answer at places past the marks too.
pub fn next_free(from: u16, used: &[bool; MAX_PAIRS]) -> u16
    requires { from ≤ limits.pairs }
    ensures { result ≡ free_from used.now from limits.pairs }
{
    for p in usize::from(from)..MAX_PAIRS {
        if !used[p] {
            return p as u16;
        }
    }
    MAX_PAIRS as u16
}
