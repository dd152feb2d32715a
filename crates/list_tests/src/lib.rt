// Number 7 of the lists: each starts with its edge's line id, rises strictly and ends, and no two share
// a place. One pass over all of them, with a table of the places passed.
#![tactic(auto)]

ghost use Rattle.std.specs.Prelude.{◌≡◌, ◌<◌, ◌≤◌, length, get_or, ltb};
ghost use Rattle.rules.specs.Limits.{limits};
ghost use Rattle.rules.specs.LineIds.{sound_lists};
ghost use Rattle.list_tests.specs.Walks.{walk_from, walk_list};

use tables::{LIST_END, MAX_PAIRS};

// The id at place q is higher than the one at p. A place outside the table holds none.
fn rises(pair_ids: &[u32], p: usize, q: usize) -> bool
    requires { p < length pair_ids.now }
    ensures { result ≡ ltb (get_or pair_ids.now p 0) (get_or pair_ids.now q 0) }
{
    if pair_ids.len() <= q {
        return false;
    }
    pair_ids[p] < pair_ids[q]
}

// A list from a place on: every place lies in the table and is passed for the first time, ids rise, and
// the list ends.
fn goes_on(start: u16, pair_ids: &[u32], links: &[u16], seen: &mut [bool; MAX_PAIRS]) -> bool
    requires { (limits.pairs ≤ length pair_ids.now) × (limits.pairs ≤ length links.now) }
    ensures { record { good = result; seen = seen.new } ≡ walk_from limits.pairs pair_ids.now links.now limits.pairs start seen.old }
{
    let mut at = usize::from(start);
    for steps in 0..MAX_PAIRS {
        if MAX_PAIRS <= at {
            return false;
        }
        if seen[at] {
            return false;
        }
        seen[at] = true;
        let next = links[at];
        if next == LIST_END {
            return true;
        }
        let q = usize::from(next);
        if !rises(pair_ids, at, q) {
            return false;
        }
        at = q;
    }
    false
}

// Edge k's list: it starts with the line id, and goes on well.
fn list_sound(
    k: usize,
    list_places: &[u16],
    line_ids: &[u32],
    pair_ids: &[u32],
    links: &[u16],
    seen: &mut [bool; MAX_PAIRS],
) -> bool
    requires { (k < length list_places.now) × (k < length line_ids.now) × (limits.pairs ≤ length pair_ids.now) × (limits.pairs ≤ length links.now) }
    ensures { record { good = result; seen = seen.new } ≡ walk_list limits.pairs (record { place = list_places.now; id = pair_ids.now; next = links.now }) line_ids.now k seen.old }
{
    let start = list_places[k];
    let p = usize::from(start);
    if MAX_PAIRS <= p {
        return false;
    }
    if pair_ids[p] != line_ids[k] {
        return false;
    }
    goes_on(start, pair_ids, links, seen)
}

// All lists. A list that fails does not end the pass: in a sound state every one is read anyway.
pub fn lists_sound(
    edges: usize,
    list_places: &[u16],
    line_ids: &[u32],
    pair_ids: &[u32],
    links: &[u16],
) -> bool
    requires { (edges ≤ length list_places.now) × (edges ≤ length line_ids.now) × (limits.pairs ≤ length pair_ids.now) × (limits.pairs ≤ length links.now) }
    ensures { result ≡ sound_lists limits.pairs (record { place = list_places.now; id = pair_ids.now; next = links.now }) line_ids.now edges }
{
    let mut seen = [false; MAX_PAIRS];
    let mut good = true;
    for k in 0..edges {
        good = good & list_sound(k, list_places, line_ids, pair_ids, links, &mut seen);
    }
    good
}
