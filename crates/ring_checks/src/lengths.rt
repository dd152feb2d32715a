// Number 8 of ring extraction.
ghost use Rattle.std.specs.Prelude.{◌≡◌};
ghost use Rattle.rules.specs.Ringing.{long_enough};
ghost use Rattle.extracting.specs.Extraction.{lists_of};

// Number 8: each list has an entry for each half-edge.
pub fn lists_long(
    halves: usize,
    half_edges: &[u16],
    ring_first: &[u16],
    ring_length: &[u16],
    ring_face: &[u16],
    ring_side: &[u8],
    ring_area: &[f64],
) -> bool
    ensures { result ≡ long_enough halves (lists_of half_edges.now ring_first.now ring_length.now ring_face.now ring_side.now ring_area.now) }
{
    (halves <= half_edges.len())
        & (halves <= ring_first.len())
        & (halves <= ring_length.len())
        & (halves <= ring_face.len())
        & (halves <= ring_side.len())
        & (halves <= ring_area.len())
}
