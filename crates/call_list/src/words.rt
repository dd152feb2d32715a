// The words of a line, one after another: they stand one space apart.
ghost use Rattle.std.specs.Prelude.{◌≡◌, ℕ, ◌<◌, Some};

use crate::numbers::{Number, count_of, number_in, real_of};
use geometry::Coord3D;
use std::str::Split;

// The words that are still to be read.
pub type Words<'a> = Split<'a, char>;

// The next word's number.
pub fn next_number(words: &mut Words<'_>) -> Option<Number> {
    number_in(words.next()?.as_bytes())
}

// The next word's number as a float.
fn next_float(words: &mut Words<'_>) -> Option<f64> {
    real_of(next_number(words))
}

// The next word's number where it is a whole number from 0 up to below the limit.
pub fn next_count(words: &mut Words<'_>, limit: u64) -> Option<u64>
    ensures { (n : ℕ) → result ≡ Some n → n < limit }
{
    count_of(next_number(words), limit)
}

// Three words: x, y and z.
pub fn next_coord(words: &mut Words<'_>) -> Option<Coord3D> {
    let x = next_float(words)?;
    let y = next_float(words)?;
    let z = next_float(words)?;
    Some(Coord3D { x, y, z })
}
