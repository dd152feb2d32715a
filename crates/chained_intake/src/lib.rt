// All records of some bytes taken into a graph that is chained, one after another.
#![tactic(auto)]

ghost use Rattle.std.specs.Prelude.{◌≡◌};
ghost use Rattle.adding.specs.Outcomes.{Ready};
ghost use Rattle.line_ids.specs.Free.{FreeAt};
ghost use Rattle.lookup.specs.Indexed.{Indexed};
ghost use Rattle.rules.specs.Limits.{limits};
ghost use Rattle.tables.specs.Regions.{state_in};
ghost use Rattle.taking.specs.Taking.{take_file_lem};
ghost use Rattle.taking.specs.Answers.{taking_of};
ghost use Rattle.taking.specs.Taking.{take_file_lem};
ghost use Rattle.taking.specs.Answers.{taking_of};

use record_intake::take_record;
use std::ops::ControlFlow;
use tables::{MAX_PAIRS, PlanarGraph};
use taking::Taken;

// All records of the bytes, one after another, to their end or to the first that is refused.
pub fn take_chained(
    graph: PlanarGraph,
    bytes: &[u8],
    free: u16,
    used: &[bool; MAX_PAIRS],
    floats: &mut [f64],
    numbers: &mut [u16],
    stars: &mut [u16],
    marks: &mut [bool],
    ids: &mut [u32],
    node_chains: &mut [u16],
    half_chains: &mut [u16],
) -> Taken
    requires ready { Ready limits (state_in limits graph floats.old numbers.old stars.old marks.old ids.old) }
    requires free_at { FreeAt limits (state_in limits graph floats.old numbers.old stars.old marks.old ids.old) used.now free }
    requires indexed { Indexed limits (state_in limits graph floats.old numbers.old stars.old marks.old ids.old) node_chains.old half_chains.old }
    ensures { taking_of result floats.new numbers.new stars.new marks.new ids.new
        ≡ take_file_lem limits bytes.now (state_in limits graph floats.old numbers.old stars.old marks.old ids.old) }
{
    let mut current = graph;
    let mut place = free;
    let mut count = 0;
    let mut at = 0;
    loop {
        let turn = take_record(
            current,
            bytes,
            at,
            place,
            used,
            floats,
            numbers,
            stars,
            marks,
            ids,
            node_chains,
            half_chains,
        );
        let after = turn.graph;
        let next = turn.next;
        match next {
            ControlFlow::Break(reply) => {
                return Taken {
                    graph: after,
                    count,
                    bytes: at,
                    reply,
                };
            }
            ControlFlow::Continue(size) => {
                current = after;
                place = turn.free;
                count += 1;
                at += size;
            }
        }
    }
}
