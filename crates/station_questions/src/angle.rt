// An angular order, for a caller that hands over numbers.
ghost use Rattle.std.specs.Prelude.{◌≡◌};
ghost use Rattle.geometry.specs.Coordinate.{coordinate_bound};
ghost use Rattle.geometry.specs.Comparison.{comparison, order_of};
ghost use Rattle.station_questions.specs.Questions.{order_number_lem, told_by, told_order, flat};

use geometry::{Coord3D, NotACoordinate};
use std::cmp::Ordering;
use tables::{Refusal, refusal_number};

// One number for the order.
const ORDER_LENGTH: usize = 1;

// A point of the plane. Its z is not read.
fn flat_point(x: f64, y: f64) -> Coord3D
    ensures { result ≡ flat x y }
{
    Coord3D { x, y, z: 0.0 }
}

// 0 before, 1 at one place, 2 after.
fn order_number(order: Ordering) -> u8
    ensures { result ≡ order_number_lem (order_of order) }
{
    match order {
        Ordering::Less => 0,
        Ordering::Equal => 1,
        Ordering::Greater => 2,
    }
}

// The order of the points a and b around the centre c.
#[unsafe(no_mangle)]
pub extern "C" fn tukmiheb_compare_angular(
    cx: f64,
    cy: f64,
    ax: f64,
    ay: f64,
    bx: f64,
    by: f64,
    reply: &mut [u8; ORDER_LENGTH],
) -> u32
    ensures { told_by result reply.new ≡ told_order reply.old (comparison coordinate_bound (flat cx cy) (flat ax ay) (flat bx by)) }
{
    let center = flat_point(cx, cy);
    match geometry::compare_angular(center, flat_point(ax, ay), flat_point(bx, by)) {
        Err(NotACoordinate) => refusal_number(Refusal::NotWhole),
        Ok(order) => {
            let number = order_number(order);
            *reply = [number];
            0
        }
    }
}
