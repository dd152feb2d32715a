// Lending: the tables that a call list works on, a slice whole or one entry short, a list as long as it is
// set to be.
#![tactic(auto)]

ghost use Rattle.std.specs.Prelude.{◌≡◌, ◌+◌, ◌*◌, ◌≤◌, length, min, is_some};
ghost use Rattle.rules.specs.Limits.{limits};
ghost use Rattle.tables.specs.Regions.{least_floats, least_numbers, least_stars, least_marks, least_ids};
ghost use Rattle.call_lending.specs.Lent.{IsLent};

mod tests;

use call_list::Table;
use tables::{FLOATS, IDS, MARKS, MAX_HALF_EDGES, NUMBERS, PlanarGraph, STARS};

// The slices that hold a graph, in the order of the entries' parameters.
#[derive(Drop)]
pub struct Slices {
    pub floats: [f64; FLOATS],
    pub numbers: [u16; NUMBERS],
    pub stars: [u16; STARS],
    pub marks: [bool; MARKS],
    pub ids: [u32; IDS],
}

// The lists of rings but for their half-edges.
#[derive(Drop)]
pub struct RingLists {
    pub ring_first: [u16; MAX_HALF_EDGES],
    pub ring_length: [u16; MAX_HALF_EDGES],
    pub ring_face: [u16; MAX_HALF_EDGES],
    pub ring_side: [u8; MAX_HALF_EDGES],
    pub ring_area: [f64; MAX_HALF_EDGES],
}

// The lists that the extraction of rings writes. Pruning and cutting list edges where the half-edges of
// rings go, so these are lent apart from the others.
#[derive(Drop)]
pub struct Lists {
    pub half_edges: [u16; MAX_HALF_EDGES],
    pub rings: RingLists,
}

// Everything that calls are lent.
#[derive(Drop)]
pub struct Tables {
    pub slices: Slices,
    pub lists: Lists,
}

// The names of the slices.
#[derive(Clone, Copy, PartialEq, Eq)]
pub enum Slice {
    Floats,
    Numbers,
    Stars,
    Marks,
    Ids,
}

// What the call list sets: the small state, the slice that the next call gets one entry short, how
// long the lists are lent, and how many records the hole list has.
#[derive(Clone, Copy)]
pub struct Settings {
    pub graph: PlanarGraph,
    pub short: Option<Slice>,
    pub length: usize,
    pub holes: usize,
}

// The slices as a call gets them.
#[derive(Drop)]
pub struct LentSlices<'a> {
    pub floats: &'a mut [f64],
    pub numbers: &'a mut [u16],
    pub stars: &'a mut [u16],
    pub marks: &'a mut [bool],
    pub ids: &'a mut [u32],
}

// The slices, to be read.
#[derive(Clone, Copy)]
pub struct SharedSlices<'a> {
    pub floats: &'a [f64],
    pub numbers: &'a [u16],
    pub stars: &'a [u16],
    pub marks: &'a [bool],
    pub ids: &'a [u32],
}

// The lists as a call gets them.
#[derive(Drop)]
pub struct LentLists<'a> {
    pub half_edges: &'a mut [u16],
    pub ring_first: &'a mut [u16],
    pub ring_length: &'a mut [u16],
    pub ring_face: &'a mut [u16],
    pub ring_side: &'a mut [u8],
    pub ring_area: &'a mut [f64],
}

// The lists, to be read.
#[derive(Clone, Copy)]
pub struct SharedLists<'a> {
    pub half_edges: &'a [u16],
    pub ring_first: &'a [u16],
    pub ring_length: &'a [u16],
    pub ring_face: &'a [u16],
    pub ring_side: &'a [u8],
    pub ring_area: &'a [f64],
}

// The slice that holds a state table, where there is a table.
pub fn slice_of(table: Option<Table>) -> Option<Slice>
    ensures { is_some result ≡ is_some table }
{
    match table? {
        Table::X | Table::Y | Table::Z | Table::Segments => Some(Slice::Floats),
        Table::Sources | Table::Targets | Table::ListPlaces | Table::Links => Some(Slice::Numbers),
        Table::Degrees | Table::Stars => Some(Slice::Stars),
        Table::NodeMarks | Table::HalfMarks => Some(Slice::Marks),
        Table::LineIds | Table::PairIds => Some(Slice::Ids),
    }
}

// How many entries of a slice are lent: one fewer where it is the short one and has any.
fn lent(full: usize, slice: Slice, short: Option<Slice>) -> usize
    ensures { (result ≤ full) × (full ≤ result + 1) }
{
    let missing = usize::from(short == Some(slice));
    full.saturating_sub(missing)
}

// A slice as a call gets it that may write it.
pub fn lend_slice<T>(entries: &mut [T], slice: Slice, short: Option<Slice>) -> &mut [T]
    ensures { IsLent (length entries.old) result.now }
{
    let n = lent(entries.len(), slice, short);
    &mut entries[..n]
}

// A slice as a call gets it that only reads it.
pub fn share_slice<T>(entries: &[T], slice: Slice, short: Option<Slice>) -> &[T]
    ensures { IsLent (length entries.now) result.now }
{
    let n = lent(entries.len(), slice, short);
    &entries[..n]
}

// The first entries of a list, or all where there are no more.
pub fn first<T>(list: &mut [T], most: usize) -> &mut [T]
    ensures { length result.now ≡ min most (length list.old) }
{
    let n = most.min(list.len());
    &mut list[..n]
}

impl Slices {
    // Each slice whole, but for the one that is to be one entry short.
    pub fn lend(&mut self, short: Option<Slice>) -> LentSlices<'_>
        ensures floats { IsLent (least_floats limits) result.floats.now }
        ensures numbers { IsLent (least_numbers limits) result.numbers.now }
        ensures stars { IsLent (least_stars limits) result.stars.now }
        ensures marks { IsLent (least_marks limits) result.marks.now }
        ensures ids { IsLent (least_ids limits) result.ids.now }
    {
        let Slices {
            floats,
            numbers,
            stars,
            marks,
            ids,
        } = self;
        let whole = LentSlices {
            floats,
            numbers,
            stars,
            marks,
            ids,
        };
        whole.lend(short)
    }

    // Each slice whole, to be read.
    pub fn share(&self) -> SharedSlices<'_>
        ensures floats { result.floats.now ≡ self.now.floats }
        ensures numbers { result.numbers.now ≡ self.now.numbers }
        ensures stars { result.stars.now ≡ self.now.stars }
        ensures marks { result.marks.now ≡ self.now.marks }
        ensures ids { result.ids.now ≡ self.now.ids }
    {
        SharedSlices {
            floats: &self.floats,
            numbers: &self.numbers,
            stars: &self.stars,
            marks: &self.marks,
            ids: &self.ids,
        }
    }
}

impl<'a> LentSlices<'a> {
    // Each slice as it is, but for the one that is to be one entry short.
    pub fn lend(self, short: Option<Slice>) -> LentSlices<'a>
        ensures floats { IsLent (length self.entry.floats.now) result.floats.now }
        ensures numbers { IsLent (length self.entry.numbers.now) result.numbers.now }
        ensures stars { IsLent (length self.entry.stars.now) result.stars.now }
        ensures marks { IsLent (length self.entry.marks.now) result.marks.now }
        ensures ids { IsLent (length self.entry.ids.now) result.ids.now }
    {
        let LentSlices {
            floats,
            numbers,
            stars,
            marks,
            ids,
        } = self;
        LentSlices {
            floats: lend_slice(floats, Slice::Floats, short),
            numbers: lend_slice(numbers, Slice::Numbers, short),
            stars: lend_slice(stars, Slice::Stars, short),
            marks: lend_slice(marks, Slice::Marks, short),
            ids: lend_slice(ids, Slice::Ids, short),
        }
    }
}

impl<'a> SharedSlices<'a> {
    // Each slice as it is, but for the one that is to be one entry short.
    pub fn lend(self, short: Option<Slice>) -> SharedSlices<'a>
        ensures floats { IsLent (length self.entry.floats.now) result.floats.now }
        ensures numbers { IsLent (length self.entry.numbers.now) result.numbers.now }
        ensures stars { IsLent (length self.entry.stars.now) result.stars.now }
        ensures marks { IsLent (length self.entry.marks.now) result.marks.now }
        ensures ids { IsLent (length self.entry.ids.now) result.ids.now }
    {
        SharedSlices {
            floats: share_slice(self.floats, Slice::Floats, short),
            numbers: share_slice(self.numbers, Slice::Numbers, short),
            stars: share_slice(self.stars, Slice::Stars, short),
            marks: share_slice(self.marks, Slice::Marks, short),
            ids: share_slice(self.ids, Slice::Ids, short),
        }
    }
}

impl Lists {
    // The first entries of each list.
    pub fn lend(&mut self, most: usize) -> LentLists<'_>
        ensures half_edges { length result.half_edges.now ≡ min most (2 * limits.edges) }
        ensures first { length result.ring_first.now ≡ min most (2 * limits.edges) }
        ensures lengths { length result.ring_length.now ≡ min most (2 * limits.edges) }
        ensures face { length result.ring_face.now ≡ min most (2 * limits.edges) }
        ensures side { length result.ring_side.now ≡ min most (2 * limits.edges) }
        ensures area { length result.ring_area.now ≡ min most (2 * limits.edges) }
    {
        let Lists { half_edges, rings } = self;
        let RingLists {
            ring_first,
            ring_length,
            ring_face,
            ring_side,
            ring_area,
        } = rings;
        let whole = LentLists {
            half_edges,
            ring_first,
            ring_length,
            ring_face,
            ring_side,
            ring_area,
        };
        whole.lend(most)
    }

    // Each list whole, to be read.
    pub fn share(&self) -> SharedLists<'_>
        ensures half_edges { result.half_edges.now ≡ self.now.half_edges }
        ensures first { result.ring_first.now ≡ self.now.rings.ring_first }
        ensures lengths { result.ring_length.now ≡ self.now.rings.ring_length }
        ensures face { result.ring_face.now ≡ self.now.rings.ring_face }
        ensures side { result.ring_side.now ≡ self.now.rings.ring_side }
        ensures area { result.ring_area.now ≡ self.now.rings.ring_area }
    {
        let rings = &self.rings;
        SharedLists {
            half_edges: &self.half_edges,
            ring_first: &rings.ring_first,
            ring_length: &rings.ring_length,
            ring_face: &rings.ring_face,
            ring_side: &rings.ring_side,
            ring_area: &rings.ring_area,
        }
    }
}

impl<'a> LentLists<'a> {
    // The first entries of each list, or all where there are no more.
    pub fn lend(self, most: usize) -> LentLists<'a>
        ensures half_edges { length result.half_edges.now ≡ min most (length self.entry.half_edges.now) }
        ensures first { length result.ring_first.now ≡ min most (length self.entry.ring_first.now) }
        ensures lengths { length result.ring_length.now ≡ min most (length self.entry.ring_length.now) }
        ensures face { length result.ring_face.now ≡ min most (length self.entry.ring_face.now) }
        ensures side { length result.ring_side.now ≡ min most (length self.entry.ring_side.now) }
        ensures area { length result.ring_area.now ≡ min most (length self.entry.ring_area.now) }
    {
        let LentLists {
            half_edges,
            ring_first,
            ring_length,
            ring_face,
            ring_side,
            ring_area,
        } = self;
        LentLists {
            half_edges: first(half_edges, most),
            ring_first: first(ring_first, most),
            ring_length: first(ring_length, most),
            ring_face: first(ring_face, most),
            ring_side: first(ring_side, most),
            ring_area: first(ring_area, most),
        }
    }
}
