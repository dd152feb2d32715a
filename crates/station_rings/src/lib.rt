// Ring extraction, for a station that is written in Rust: an entry on numbers and slices. It answers 0,
// or the number of a refusal. The core lists the rings and finds their holes, and the entry has the
// records written.
#![tactic(auto)]

mod telling;

ghost use Rattle.std.specs.Prelude.{◌≡◌};
ghost use Rattle.extracting.specs.Extraction.{lists_of};
ghost use Rattle.hole_checks.specs.Clause.{lent_of};
ghost use Rattle.replies.specs.Left.{lent, gives};
ghost use Rattle.station_rings.specs.Calls.{ringed};

use holes::Hole;
use replies::STATE_LENGTH;
use ring_replies::RINGS_LENGTH;
use telling::rings_core;

// Lists the rings and their holes. The reply is the rings' count, V, E, cycles, C, the verdict, the
// comparisons that naming them took, and how many half-edges and holes were written.
#[unsafe(no_mangle)]
pub extern "C" fn tukmiheb_extract_rings(
    holes: &mut [Hole],
    state: &mut [u16; STATE_LENGTH],
    floats: &[f64],
    numbers: &[u16],
    stars: &[u16],
    marks: &[u8],
    ids: &[u32],
    half_edges: &mut [u16],
    ring_first: &mut [u16],
    ring_length: &mut [u16],
    ring_face: &mut [u16],
    ring_side: &mut [u8],
    ring_area: &mut [f64],
    reply: &mut [u16; RINGS_LENGTH],
) -> u32
    ensures { gives result (lent state.new floats.now numbers.now stars.now marks.now ids.now (lent_of (lists_of half_edges.new ring_first.new ring_length.new ring_face.new ring_side.new ring_area.new) holes.new) reply.new)
        ≡ ringed (lent state.old floats.now numbers.now stars.now marks.now ids.now (lent_of (lists_of half_edges.old ring_first.old ring_length.old ring_face.old ring_side.old ring_area.old) holes.old) reply.old) }
{
    let told = rings_core(
        holes.len(),
        state,
        floats,
        numbers,
        stars,
        marks,
        ids,
        half_edges,
        ring_first,
        ring_length,
        ring_face,
        ring_side,
        ring_area,
        reply,
    );
    holes::fill_holes(holes, told.list, told.count);
    told.number
}
