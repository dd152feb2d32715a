// What lets a search from right to left pass candidates by, many at once: of those to the left of a
// place the least doubled area, and how far back from a place none reaches further to the right.
#![tactic(auto)]

ghost use Rattle.std.specs.Prelude.{◌≡◌, ◌*◌, ◌<◌, ◌≤◌, length};
ghost use Rattle.candidates.specs.Candidates.{numbers_of};
ghost use Rattle.candidate_order.specs.Order.{InOrder};
ghost use Rattle.passing.specs.Passing.{LeastAreas, Within, Reaches, Passable, EndsBefore, rest_larger};

use candidate_order::number_at;
use candidates::{AREA, BEYOND, HIGH_X, doubled_of};

// The least doubled area from the beginning to each place.
fn write_least(numbers: &[i64], order: &[u16], count: usize, least: &mut [i64])
    requires { InOrder numbers.now count order.now × (count ≤ length least.old) }
    ensures { LeastAreas numbers.now order.now count least.new }
{
    let mut lowest = BEYOND;
    for k in 0..count {
        lowest = lowest.min(number_at(numbers, order, count, k, AREA));
        least[k] = lowest;
    }
}

// How far back from place k none reaches further to the right than that at k. Those to the left of k
// know theirs.
fn reach_back(numbers: &[i64], order: &[u16], count: usize, k: usize, reaches: &[u16]) -> usize
    requires { InOrder numbers.now count order.now × (k < count) × (k ≤ length reaches.now) × Reaches numbers.now order.now k reaches.now }
    ensures { (result ≤ k) × Within numbers.now order.now result k }
{
    let right = number_at(numbers, order, count, k, HIGH_X);
    let mut from = k;
    while 0 < from {
        if right < number_at(numbers, order, count, from - 1, HIGH_X) {
            return from;
        }
        from = usize::from(reaches[from - 1]);
    }
    0
}

// The same for each place.
fn write_reaches(numbers: &[i64], order: &[u16], count: usize, reaches: &mut [u16])
    requires { InOrder numbers.now count order.now × (count ≤ length reaches.old) × (count ≤ 65536) }
    ensures { Reaches numbers.now order.now count reaches.new }
{
    for k in 0..count {
        let from = reach_back(numbers, order, count, k, reaches);
        reaches[k] = from as u16;
    }
}

// Both tables.
pub fn write_passing(
    numbers: &[i64],
    order: &[u16],
    count: usize,
    least: &mut [i64],
    reaches: &mut [u16],
)
    requires { InOrder numbers.now count order.now × (count ≤ length least.old) × (count ≤ length reaches.old) × (count ≤ 65536) }
    ensures { Passable numbers.now order.now count least.new reaches.new }
{
    write_least(numbers, order, count, least);
    write_reaches(numbers, order, count, reaches);
}

// Whether there is a best so far, and all up to place k have larger areas.
pub fn rest_is_larger(numbers: &[i64], count: usize, best: usize, least: &[i64], k: usize) -> bool
    requires { (numbers_of * count ≤ length numbers.now) × (best ≤ count) × (k < length least.now) }
    ensures { result ≡ rest_larger numbers.now count best least.now k }
{
    if best == count {
        return false;
    }
    doubled_of(numbers, best) < least[k]
}

// The end of those that are left once place k was met: where the candidate there ends to the left of
// x, so do all that reach no further.
pub fn next_end(
    numbers: &[i64],
    order: &[u16],
    count: usize,
    reaches: &[u16],
    k: usize,
    x: i64,
) -> usize
    requires { InOrder numbers.now count order.now × Reaches numbers.now order.now count reaches.now × (count ≤ length reaches.now) × (k < count) }
    ensures { (result ≤ k) × EndsBefore numbers.now order.now x result k }
{
    if number_at(numbers, order, count, k, HIGH_X) < x {
        return usize::from(reaches[k]);
    }
    k
}
