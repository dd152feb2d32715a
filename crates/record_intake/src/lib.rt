// One record taken into a graph whose nodes and half-edges are chained, with the places marked that line
// ids used at first.
#![tactic(auto)]

ghost use Rattle.std.specs.Prelude.{◌≡◌, drop};
ghost use Rattle.adding.specs.Outcomes.{Ready};
ghost use Rattle.line_ids.specs.Free.{FreeAt};
ghost use Rattle.lookup.specs.Indexed.{Indexed};
ghost use Rattle.rules.specs.Limits.{limits};
ghost use Rattle.file_rules.specs.SegmentFile.{segment_next};
ghost use Rattle.tables.specs.Regions.{state_in};
ghost use Rattle.taking.specs.Taking.{take_record_lem};
ghost use Rattle.taking.specs.Answers.{turn_of};

use segment_file::Record;
use std::ops::ControlFlow;
use tables::{MAX_PAIRS, PlanarGraph};
use taking::{TakeRefusal, Turn, after_adding};

// The record at a place: a segment is added to the graph, which is in stage 0, passed numbers 6 and 7
// and is chained, with the lowest free place told. Another record is passed over.
pub fn take_record(
    graph: PlanarGraph,
    bytes: &[u8],
    at: usize,
    free: u16,
    used: &[bool; MAX_PAIRS],
    floats: &mut [f64],
    numbers: &mut [u16],
    stars: &mut [u16],
    marks: &mut [bool],
    ids: &mut [u32],
    node_chains: &mut [u16],
    half_chains: &mut [u16],
) -> Turn
    requires ready { Ready limits (state_in limits graph floats.old numbers.old stars.old marks.old ids.old) }
    requires free_at { FreeAt limits (state_in limits graph floats.old numbers.old stars.old marks.old ids.old) used.now free }
    requires indexed { Indexed limits (state_in limits graph floats.old numbers.old stars.old marks.old ids.old) node_chains.old half_chains.old }
    ensures turn { turn_of result floats.new numbers.new stars.new marks.new ids.new
        ≡ take_record_lem limits (segment_next (drop at bytes.now)) (state_in limits graph floats.old numbers.old stars.old marks.old ids.old) }
    ensures place { FreeAt limits (state_in limits result.graph floats.new numbers.new stars.new marks.new ids.new) used.now result.free }
    ensures chains { Indexed limits (state_in limits result.graph floats.new numbers.new stars.new marks.new ids.new) node_chains.new half_chains.new }
{
    match segment_file::read_record(bytes, at) {
        Ok(Some(Record::Segment(line, size))) => {
            let added = indexing::add_chained(
                graph,
                line,
                free,
                used,
                floats,
                numbers,
                stars,
                marks,
                ids,
                node_chains,
                half_chains,
            );
            let after = added.graph;
            let answer = added.reply;
            Turn {
                graph: after,
                next: after_adding(answer, size),
                free: added.free,
            }
        }
        Ok(Some(Record::Passed(size))) => Turn {
            graph,
            next: ControlFlow::Continue(size),
            free,
        },
        Ok(None) => Turn {
            graph,
            next: ControlFlow::Break(Ok(())),
            free,
        },
        Err(why) => Turn {
            graph,
            next: ControlFlow::Break(Err(TakeRefusal::Record(why))),
            free,
        },
    }
}
