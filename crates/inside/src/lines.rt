// How a line stands to a point.
ghost use Rattle.std.specs.Prelude.{◌≡◌};
ghost use Rattle.geometry.specs.Coordinate.{coordinate_bound};
ghost use Rattle.geometry.specs.Angle.{orientation};
ghost use Rattle.rules.specs.Holes.{between};
ghost use Rattle.inside.specs.Spots.{spot, AllNear};
ghost use Rattle.inside.specs.Meeting.{meets_of};

// The point lies on the line, or the line crosses the point's level to its right, or neither.
#[derive(Clone, Copy)]
pub enum Meets {
    OnLine,
    Right,
    Apart,
}

// Above 0 where p is to the left of the way from a to b.
fn orient(ax: i64, ay: i64, bx: i64, by: i64, px: i64, py: i64) -> i64
    requires { AllNear coordinate_bound (spot ax ay) (spot bx by) (spot px py) }
    ensures { result ≡ orientation (spot ax ay) (spot bx by) (spot px py) }
{
    (bx - ax) * (py - ay) - (by - ay) * (px - ax)
}

// Whether z lies between a and b, whichever is the lower.
fn is_between(a: i64, b: i64, z: i64) -> bool
    ensures { result ≡ between a b z }
{
    ((a <= z) & (z <= b)) | ((b <= z) & (z <= a))
}

// The line from a to b and the point p. Most lines pass the level of p by, and end at the first test.
pub fn line_meets(ax: i64, ay: i64, bx: i64, by: i64, px: i64, py: i64) -> Meets
    requires { AllNear coordinate_bound (spot ax ay) (spot bx by) (spot px py) }
    ensures { result ≡ meets_of (spot ax ay) (spot bx by) (spot px py) }
{
    if !is_between(ay, by, py) {
        return Meets::Apart;
    }
    let turn = orient(ax, ay, bx, by, px, py);
    if (turn == 0) & is_between(ax, bx, px) {
        return Meets::OnLine;
    }
    if ((ay <= py) != (by <= py)) & ((0 < turn) == (ay < by)) {
        return Meets::Right;
    }
    Meets::Apart
}
