// Entries of tables and lists: what stands at a place, or 0 past the end.
use std::{fmt, iter};

pub fn entry<T: Copy + Default>(table: &[T], i: usize) -> T {
    table.get(i).copied().unwrap_or_default()
}

// So many entries of a list from a place on, with a space before each.
#[derive(Clone, Copy)]
pub struct Entries<'a> {
    pub list: &'a [u16],
    pub first: usize,
    pub count: usize,
}

impl fmt::Display for Entries<'_> {
    fn fmt<W: fmt::Write>(&self, f: &mut fmt::Formatter<W>) -> fmt::Result {
        let there = self.list.iter().skip(self.first).copied();
        for x in there.chain(iter::repeat(0)).take(self.count) {
            write!(f, " {x}")?;
        }
        Ok(())
    }
}
