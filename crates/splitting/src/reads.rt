// How the tables are read.
ghost use Rattle.std.specs.Prelude.{◌≡◌, ◌<◌, length, get_or};

use tables::DirEdgeId;

// What a table holds for a half-edge, as an index.
pub fn index_at(table: &[u16], half: DirEdgeId) -> usize
    requires { half.0 < length table.now }
    ensures { result ≡ get_or table.now half.0 0 }
{
    usize::from(table[usize::from(half.0)])
}
