// Bytes as a row of marks, and a row written back.
ghost use Rattle.std.specs.Prelude.{◌≡◌, ◌≤◌, length};
ghost use Rattle.rules.specs.Limits.{limits};
ghost use Rattle.tables.specs.Regions.{least_marks};
ghost use Rattle.lent_marks.specs.Marks.{marks_in, blend, blended};

use tables::MARKS;

// The marks that the first bytes hold.
pub fn read_marks(bytes: &[u8]) -> [bool; MARKS]
    requires { least_marks limits ≤ length bytes.now }
    ensures { result ≡ marks_in limits bytes.now }
{
    let mut row = [false; MARKS];
    for i in 0..MARKS {
        row[i] = bytes[i] != 0;
    }
    row
}

// A byte with a mark written over it: it stays where it says the mark already. Asked in this order, a
// row of them takes few steps for many bytes.
fn with_mark(mark: bool, byte: u8) -> u8
    ensures { result ≡ blend mark byte }
{
    if mark {
        if byte == 0 {
            return 1;
        }
        return byte;
    }
    0
}

// A row of marks over the first bytes. Every byte whose mark did not change keeps what it holds; it is
// written all the same, since a loop that writes each byte takes many at a time.
pub fn write_marks(row: &[bool], bytes: &mut [u8])
    requires { length row.now ≤ length bytes.old }
    ensures { bytes.new ≡ blended row.now bytes.old }
{
    for i in 0..row.len() {
        bytes[i] = with_mark(row[i], bytes[i]);
    }
}
