// Whether a ring holds an open one: it has the open one's test point strictly inside.
#![tactic(auto)]

ghost use Rattle.std.specs.Prelude.{◌≡◌, ℕ};
ghost use Rattle.inside.specs.Spots.{spot_in};
ghost use Rattle.holding.specs.Holding.{holds_by_lem, Testable, Corner, Restamped};

use corners::{stamp_nodes, test_point};
use inside::{Stands, ring_stands};
use tables::NodeId;

// The nodes of the ring, and those of the open one. The ring's nodes get its stamp, so that those of
// the open one which the ring passes are told at a glance.
fn holds_free(
    outer: &[u16],
    inner: &[u16],
    xs: &[i64],
    ys: &[i64],
    stamp: u16,
    stamps: &mut [u16],
) -> bool
    requires { (bound : ℕ) × Testable bound outer.now inner.now xs.now ys.now stamp stamps.old }
    ensures held { result ≡ holds_by_lem (spot_in xs.now ys.now) outer.now inner.now }
    ensures stamps { Restamped outer.now stamp stamps.old stamps.new }
{
    stamp_nodes(outer, stamp, stamps);
    match test_point(inner, xs, ys, stamp, stamps) {
        None => false,
        Some(point) => {
            let n = usize::from(point);
            match ring_stands(outer, xs, ys, xs[n], ys[n]) {
                Stands::Inside => true,
                Stands::Outside => false,
                Stands::OnRing => false,
            }
        }
    }
}

// The same, by the open ring's leftmost node first: where that is not on the ring, the ring does not
// pass it, so it is the test point, and nothing has to be stamped.
pub fn ring_holds(
    outer: &[u16],
    inner: &[u16],
    corner: NodeId,
    xs: &[i64],
    ys: &[i64],
    stamp: u16,
    stamps: &mut [u16],
) -> bool
    requires by_index { (bound : ℕ) × Testable bound outer.now inner.now xs.now ys.now stamp stamps.old }
    requires corner { Corner xs.now ys.now inner.now corner.0 }
    ensures held { result ≡ holds_by_lem (spot_in xs.now ys.now) outer.now inner.now }
    ensures stamps { Restamped outer.now stamp stamps.old stamps.new }
{
    let n = usize::from(corner.0);
    match ring_stands(outer, xs, ys, xs[n], ys[n]) {
        Stands::Inside => true,
        Stands::Outside => false,
        Stands::OnRing => holds_free(outer, inner, xs, ys, stamp, stamps),
    }
}
