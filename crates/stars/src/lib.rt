// The flat star table: its stars grouped by node; and which half-edges of a star are active.
#![tactic(auto)]

mod group;

ghost use Rattle.std.specs.Prelude.{◌≡◌, ◌<◌, length};
ghost use Rattle.stars.specs.Groups.{unmarked};

pub use group::group_stars;
use tables::DirEdgeId;

// A half-edge is active while it is not marked.
pub fn is_active(dir_edges_marked: &[bool], half: DirEdgeId) -> bool
    requires { half.0 < length dir_edges_marked.now }
    ensures { result ≡ unmarked dir_edges_marked.now half.0 }
{
    !dir_edges_marked[usize::from(half.0)]
}
