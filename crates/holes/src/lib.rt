// The lent list of holes, a slice of records.
#![tactic(auto)]

ghost use Rattle.std.specs.Prelude.{◌≡◌, ◌≤◌, length};
ghost use Rattle.rules.specs.Limits.{limits, shaped_rings};
ghost use Rattle.holes.specs.Filled.{filled};

use tables::MAX_SHAPED;

// A hole: an open ring, the enclosed ring that holds it, 65,535 for none, and the open ring's
// doubled area.
#[repr(C)]
#[derive(Clone, Copy)]
pub struct Hole {
    pub ring: u16,
    pub holder: u16,
    pub doubled: i64,
}

// Records to start from. An open ring has an area, so there are never more of them than rings with
// one.
pub fn no_holes() -> [Hole; MAX_SHAPED]
    ensures { length result ≡ shaped_rings limits }
{
    [Hole {
        ring: 0,
        holder: 0,
        doubled: 0,
    }; MAX_SHAPED]
}

// The first `count` records are the list's, and the others stay as they were.
pub fn fill_holes(holes: &mut [Hole], list: [Hole; MAX_SHAPED], count: usize)
    requires { (count ≤ length holes.old) × (count ≤ shaped_rings limits) }
    ensures { holes.new ≡ filled list count holes.old }
{
    holes[..count].copy_from_slice(&list[..count]);
}
