// Who has a table gets its slice by `unwrap`, with nothing more to prove.
use crate::{Slice, slice_of};
use call_list::Table;

#[test]
fn a_table_has_its_slice(rt: HostRuntime) {
    assert!(rt; slice_of(Some(Table::Segments)).unwrap() == Slice::Floats);
    assert!(rt; slice_of(Some(Table::Links)).unwrap() == Slice::Numbers);
    assert!(rt; slice_of(Some(Table::Degrees)).unwrap() == Slice::Stars);
    assert!(rt; slice_of(Some(Table::HalfMarks)).unwrap() == Slice::Marks);
    assert!(rt; slice_of(Some(Table::PairIds)).unwrap() == Slice::Ids);
    assert!(rt; slice_of(None).is_none());
}
