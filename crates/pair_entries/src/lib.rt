// What one pair more writes, an id and the next place of its list, slice by slice.
#![tactic(auto)]

ghost use Rattle.std.specs.Prelude.{◌≡◌, ◌<◌, ◌≤◌, length, get_or, set};
ghost use Rattle.rules.specs.Limits.{limits};
ghost use Rattle.rules.specs.LineIds.{list_end};
ghost use Rattle.tables.specs.Regions.{sources_in, targets_in, list_places_in, links_in, line_ids_in, pair_ids_in, least_numbers, least_ids};

use tables::{EdgeId, LINKS, LIST_PLACES, PAIR_IDS};

// An edge's list starts with the pair at a place, and goes on at the next.
pub fn put_first(edge: EdgeId, place: u16, next: u16, numbers: &mut [u16])
    requires { (edge.0 < limits.edges) × (place < limits.pairs) × (least_numbers limits ≤ length numbers.old) }
    ensures source { sources_in limits numbers.new ≡ sources_in limits numbers.old }
    ensures target { targets_in limits numbers.new ≡ targets_in limits numbers.old }
    ensures list { list_places_in limits numbers.new ≡ set (list_places_in limits numbers.old) edge.0 place }
    ensures link { links_in limits numbers.new ≡ set (links_in limits numbers.old) place next }
{
    numbers[LIST_PLACES + usize::from(edge.0)] = place;
    numbers[LINKS + usize::from(place)] = next;
}

// The pair at a place stands behind another, and leads to where that one led.
pub fn put_behind(behind: u16, place: u16, numbers: &mut [u16])
    requires { (behind < limits.pairs) × (place < limits.pairs) × (least_numbers limits ≤ length numbers.old) }
    ensures source { sources_in limits numbers.new ≡ sources_in limits numbers.old }
    ensures target { targets_in limits numbers.new ≡ targets_in limits numbers.old }
    ensures list { list_places_in limits numbers.new ≡ list_places_in limits numbers.old }
    ensures link { links_in limits numbers.new ≡ set (set (links_in limits numbers.old) place (get_or (links_in limits numbers.old) behind list_end)) behind place }
{
    let at = LINKS + usize::from(behind);
    let next = numbers[at];
    numbers[LINKS + usize::from(place)] = next;
    numbers[at] = place;
}

// The id of a pair.
pub fn put_pair(place: u16, id: u32, ids: &mut [u32])
    requires { (place < limits.pairs) × (least_ids limits ≤ length ids.old) }
    ensures line { line_ids_in limits ids.new ≡ line_ids_in limits ids.old }
    ensures pair { pair_ids_in limits ids.new ≡ set (pair_ids_in limits ids.old) place id }
{
    ids[PAIR_IDS + usize::from(place)] = id;
}

// The id of a pair that its edge's list starts with: it is the edge's line id too.
pub fn put_lowest(edge: EdgeId, place: u16, id: u32, ids: &mut [u32])
    requires { (edge.0 < limits.edges) × (place < limits.pairs) × (least_ids limits ≤ length ids.old) }
    ensures line { line_ids_in limits ids.new ≡ set (line_ids_in limits ids.old) edge.0 id }
    ensures pair { pair_ids_in limits ids.new ≡ set (pair_ids_in limits ids.old) place id }
{
    let line = usize::from(edge.0);
    let pair = PAIR_IDS + usize::from(place);
    ids[line] = id;
    ids[pair] = id;
}
