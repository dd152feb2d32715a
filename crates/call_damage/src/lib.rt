// Setting an entry of a state table to a number that the call list gives.
#![tactic(auto)]

use call_lending::Slices;
use call_list::{Number, Table};
use tables::{
    DEGREES, HALF_MARKS, LINKS, LIST_PLACES, NODES_Y, NODES_Z, PAIR_IDS, SEGMENTS, TARGETS,
};

// A number as an entry of one of the tables, where it is one; `None` is no number.
trait Entry: Copy {
    fn of(number: Option<Number>) -> Option<Self>;
}

impl Entry for f64 {
    fn of(number: Option<Number>) -> Option<f64> {
        call_list::real_of(number)
    }
}

impl Entry for u16 {
    fn of(number: Option<Number>) -> Option<u16> {
        Some(call_list::count_of(number, 0x1_0000)? as u16)
    }
}

impl Entry for u32 {
    fn of(number: Option<Number>) -> Option<u32> {
        Some(call_list::count_of(number, 0x1_0000_0000)? as u32)
    }
}

impl Entry for bool {
    fn of(number: Option<Number>) -> Option<bool> {
        Some(call_list::count_of(number, 2)? == 1)
    }
}

// Puts a number at a place of a table, where both are the table's.
fn put<T: Entry>(table: &mut [T], place: usize, number: Option<Number>) -> Option<()> {
    let entry = table.get_mut(place)?;
    *entry = T::of(number)?;
    Some(())
}

// Sets an entry of a table. Where there is no table, or the place or the number is none of the table's, nothing
// is set.
pub fn put_entry(
    slices: &mut Slices,
    table: Option<Table>,
    place: usize,
    number: Option<Number>,
) -> Option<()> {
    let Slices {
        floats,
        numbers,
        stars,
        marks,
        ids,
    } = slices;
    match table? {
        Table::X => put(&mut floats[..NODES_Y], place, number),
        Table::Y => put(&mut floats[NODES_Y..NODES_Z], place, number),
        Table::Z => put(&mut floats[NODES_Z..SEGMENTS], place, number),
        Table::Degrees => put(&mut stars[DEGREES..], place, number),
        Table::NodeMarks => put(&mut marks[..HALF_MARKS], place, number),
        Table::Segments => put(&mut floats[SEGMENTS..], place, number),
        Table::LineIds => put(&mut ids[..PAIR_IDS], place, number),
        Table::Sources => put(&mut numbers[..TARGETS], place, number),
        Table::Targets => put(&mut numbers[TARGETS..LIST_PLACES], place, number),
        Table::HalfMarks => put(&mut marks[HALF_MARKS..], place, number),
        Table::Stars => put(&mut stars[..DEGREES], place, number),
        Table::ListPlaces => put(&mut numbers[LIST_PLACES..LINKS], place, number),
        Table::PairIds => put(&mut ids[PAIR_IDS..], place, number),
        Table::Links => put(&mut numbers[LINKS..], place, number),
    }
}
