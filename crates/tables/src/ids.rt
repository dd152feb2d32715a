// The numbers of nodes, edges, half-edges and faces: four counters, and none is handed over for
// another. A table holds bare numbers; one that is read from it is wrapped there.
ghost use Rattle.std.specs.Prelude.{◌≡◌};
ghost use Rattle.rules.specs.HalfEdge.{twin};

#[derive(Clone, Copy)]
pub struct NodeId(pub u16);

#[derive(Clone, Copy)]
pub struct EdgeId(pub u16);

#[derive(Clone, Copy)]
pub struct DirEdgeId(pub u16);

#[derive(Clone, Copy)]
pub struct FaceId(pub u16);

// The other half of a half-edge's edge: 2k and 2k + 1 are the halves of edge k.
pub fn twin_of(half: DirEdgeId) -> DirEdgeId
    ensures { result.0 ≡ twin half.0 }
{
    let h = half.0;
    let other = if h % 2 == 0 { h + 1 } else { h - 1 };
    DirEdgeId(other)
}
