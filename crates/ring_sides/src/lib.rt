// The side of a ring, read back from the lists that ring extraction replied.
#![tactic(auto)]

ghost use Rattle.std.specs.Prelude.{◌≡◌};
ghost use Rattle.ring_sides.specs.Sides.{side_at_lem};

use ring_tally::RingSide;

// Why there is no side: the lists end before the place, or they hold a number there that says none.
#[derive(Clone, Copy)]
pub enum NoSide {
    PastLists,
    OtherNumber,
}

// The side of ring i by its number and its area: 0 flat, 1 enclosed, 2 open.
pub fn side_at(ring_side: &[u8], ring_area: &[f64], i: usize) -> Result<RingSide, NoSide>
    ensures { result ≡ side_at_lem ring_side.now ring_area.now i }
{
    if ring_side.len() <= i {
        return Err(NoSide::PastLists);
    }
    if ring_area.len() <= i {
        return Err(NoSide::PastLists);
    }
    let area = ring_area[i];
    match ring_side[i] {
        0 => Ok(RingSide::Flat),
        1 => Ok(RingSide::Enclosed(area)),
        2 => Ok(RingSide::Open(area)),
        _ => Err(NoSide::OtherNumber),
    }
}
