// Call lists: text with one call of the graph's entries a line. Every text can be read; a line that
// is no call is `Unknown`.
#![tactic(auto)]

mod lines;
mod numbers;
mod state_table;
mod tests;
mod words;

use geometry::Line3D;
pub use lines::read_call;
pub use numbers::{Number, count_of, real_of};
pub use state_table::Table;
use tables::PlanarGraph;

// A call of one of the graph's public entries but the extraction of rings, which is lent other lists.
#[derive(Clone, Copy)]
pub enum GraphCall {
    Create,
    Add(Line3D),
    Sort,
    Prune,
    Cut,
    Reset,
}

// What a line says. `State` has the counts of nodes and edges and the stage; `Set` a table, the place in
// it, and what is put there. `None` stands for a number that no table has, and for what is no number.
#[derive(Clone, Copy)]
pub enum Call {
    Blank,
    Comment,
    Graph(GraphCall),
    Rings,
    Show,
    State(PlanarGraph),
    Set(Option<Table>, usize, Option<Number>),
    Short(Option<Table>),
    List(usize),
    Holes(usize),
    Unknown,
}

// A text's first line without its end, the call that it is, and the text behind it.
#[derive(Clone, Copy)]
pub struct Read<'a> {
    pub call: Call,
    pub line: &'a [u8],
    pub rest: &'a [u8],
}
