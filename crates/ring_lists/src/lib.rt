// Rings as they stand in the lists that ring extraction writes.
#![tactic(auto)]

ghost use Rattle.std.specs.Prelude.{◌≡◌, ℤ};
ghost use Rattle.ring_lists.specs.Shown.{HalfOf};

// The numbers of an enclosed and an open ring's side in the lists. They are numbers and no RingSide, since
// C lends the lists too.
pub const ENCLOSED: u8 = 1;

pub const OPEN: u8 = 2;

// Twice a ring's area. The area is exactly half of a whole number, so nothing is cut off.
pub fn doubled_area(area: f64) -> i64
    requires { (z : ℤ) × HalfOf area z }
    ensures { (z : ℤ) → HalfOf area z → result ≡ z }
{
    std::num::truncating_f64_to_i64(area + area)
}
