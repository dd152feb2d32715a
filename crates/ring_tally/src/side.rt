// The side of a ring: enclosed with its area, open with its area, or flat.
ghost use Rattle.std.specs.Prelude.{◌≡◌};
ghost use Rattle.rules.specs.Ringing.{side_number_lem, side_area_lem};
ghost use Rattle.ring_tally.specs.Sides.{side_of, sign_side};

#[derive(Clone, Copy)]
pub enum RingSide {
    Enclosed(f64),
    Open(f64),
    Flat,
}

// By the sign of the area.
pub fn side_of(area: f64) -> RingSide
    ensures { result ≡ sign_side area }
{
    if area > 0.0 {
        RingSide::Enclosed(area)
    } else if area < 0.0 {
        RingSide::Open(area)
    } else {
        RingSide::Flat
    }
}

// 0 flat, 1 enclosed, 2 open.
pub fn side_number(side: RingSide) -> u8
    ensures { result ≡ side_number_lem (side_of side) }
{
    match side {
        RingSide::Enclosed(_) => 1,
        RingSide::Open(_) => 2,
        RingSide::Flat => 0,
    }
}

// The area, 0.0 where flat.
pub fn side_area(side: RingSide) -> f64
    ensures { result ≡ side_area_lem (side_of side) }
{
    match side {
        RingSide::Enclosed(area) => area,
        RingSide::Open(area) => area,
        RingSide::Flat => 0.0,
    }
}
