// The state tables.
ghost use Rattle.std.specs.Prelude.{◌≡◌, slice_get};

// How many there are.
pub const TABLES: usize = 14;

// In the order of the rules' state, by which a call list numbers them.
#[derive(Clone, Copy)]
pub enum Table {
    X,
    Y,
    Z,
    Degrees,
    NodeMarks,
    Segments,
    LineIds,
    Sources,
    Targets,
    HalfMarks,
    Stars,
    ListPlaces,
    PairIds,
    Links,
}

impl Table {
    // Each table at its number.
    pub const ALL: [Table; TABLES] = [
        Table::X,
        Table::Y,
        Table::Z,
        Table::Degrees,
        Table::NodeMarks,
        Table::Segments,
        Table::LineIds,
        Table::Sources,
        Table::Targets,
        Table::HalfMarks,
        Table::Stars,
        Table::ListPlaces,
        Table::PairIds,
        Table::Links,
    ];

    // The table that has a number, where one has it.
    pub fn numbered(number: usize) -> Option<Table>
        ensures { result ≡ slice_get Self.ALL number }
    {
        Table::ALL.get(number).copied()
    }
}
