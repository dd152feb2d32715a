// The numbers of candidates: for each its box and its doubled area.
ghost use Rattle.std.specs.Prelude.{◌≡◌, ◌+◌, ◌*◌, ◌≤◌, length, set};
ghost use Rattle.std.proofs.lemmas.List.Edits.{sets};
ghost use Rattle.corners.specs.Boxes.{SidesWithin};
ghost use Rattle.candidates.specs.Candidates.{numbers_of, number_at, numbers_by, beyond, in_box_lem};

use corners::Sides;
use tables::MAX_SHAPED;

// The places of a candidate's numbers: least x, greatest x, least y, greatest y, doubled area.
pub const LOW_X: usize = 0;

pub const HIGH_X: usize = 1;

const LOW_Y: usize = 2;

const HIGH_Y: usize = 3;

pub const AREA: usize = 4;

// How many they are.
pub const NUMBERS: usize = 5;

// A candidate is a ring with an area.
pub const CANDIDATE_NUMBERS: usize = NUMBERS * MAX_SHAPED;

// Above every number of a candidate.
pub const BEYOND: i64 = 9223372036854775807;

// Writes the numbers of candidate j.
pub fn put_numbers(
    numbers: &mut [i64],
    j: usize,
    sides: Sides,
    xs: &[i64],
    ys: &[i64],
    doubled: i64,
)
    requires { SidesWithin sides (length xs.now) (length ys.now) × (numbers_of * j + numbers_of ≤ length numbers.old) }
    ensures { numbers.new ≡ sets numbers.old (numbers_of * j) (numbers_by xs.now ys.now sides doubled) }
{
    let place = NUMBERS * j;
    let low_x = xs[usize::from(sides.left)];
    let high_x = xs[usize::from(sides.right)];
    let low_y = ys[usize::from(sides.low)];
    let high_y = ys[usize::from(sides.high)];
    numbers[place + LOW_X] = low_x;
    numbers[place + HIGH_X] = high_x;
    numbers[place + LOW_Y] = low_y;
    numbers[place + HIGH_Y] = high_y;
    numbers[place + AREA] = doubled;
}

// Shuts the box of candidate j: it begins to the right of every point.
pub fn shut_box(numbers: &mut [i64], j: usize)
    requires { numbers_of * j + numbers_of ≤ length numbers.old }
    ensures { numbers.new ≡ set numbers.old (numbers_of * j + 0) beyond }
{
    numbers[NUMBERS * j + LOW_X] = BEYOND;
}

// Whether the point is not beside the box of candidate j. What lies beside it is not inside the ring.
pub fn in_box(numbers: &[i64], j: usize, x: i64, y: i64) -> bool
    requires { numbers_of * j + numbers_of ≤ length numbers.now }
    ensures { result ≡ in_box_lem numbers.now j x y }
{
    let place = NUMBERS * j;
    if x < numbers[place + LOW_X] {
        return false;
    }
    if numbers[place + HIGH_X] < x {
        return false;
    }
    if y < numbers[place + LOW_Y] {
        return false;
    }
    !(numbers[place + HIGH_Y] < y)
}

// The least x of candidate j.
pub fn low_x_of(numbers: &[i64], j: usize) -> i64
    requires { numbers_of * j + numbers_of ≤ length numbers.now }
    ensures { result ≡ number_at numbers.now j 0 }
{
    numbers[NUMBERS * j + LOW_X]
}

// The doubled area of candidate j.
pub fn doubled_of(numbers: &[i64], j: usize) -> i64
    requires { numbers_of * j + numbers_of ≤ length numbers.now }
    ensures { result ≡ number_at numbers.now j 4 }
{
    numbers[NUMBERS * j + AREA]
}
