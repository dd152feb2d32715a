// Adding a line to a graph that is being built.
#![tactic(auto)]

ghost use Rattle.rules.specs.Limits.{limits};
ghost use Rattle.tables.specs.Regions.{state_in};
ghost use Rattle.adding.specs.Outcomes.{reply_of};
ghost use Rattle.add_entry.specs.Clause.{Adds};

use add_search::{find_matches, find_place};
use adding::LineEdge;
use calls::check_stage;
use geometry::Line3D;
use making::add_found;
use tables::{Answer, PlanarGraph};

// Numbers 6, 7, 5, 1, 2; then an edge that joins the two nodes, either way round, is the answer: it gets
// the line's id if it lacks it, after 12. Else 3, 4 and 12, and the new nodes and edge are written.
pub fn add_line(
    graph: PlanarGraph,
    line: Line3D,
    floats: &mut [f64],
    numbers: &mut [u16],
    stars: &mut [u16],
    marks: &mut [bool],
    ids: &mut [u32],
) -> Answer<LineEdge>
    ensures { Adds line
        (state_in limits graph floats.old numbers.old stars.old marks.old ids.old)
        (reply_of result.reply)
        (state_in limits result.graph floats.new numbers.new stars.new marks.new ids.new) }
{
    let checked = check_stage(0, graph, floats, numbers, stars, marks, ids);
    if let Err(why) = checked {
        return Answer {
            graph,
            reply: Err(why),
        };
    }
    let matches = find_matches(graph, line, floats, numbers, stars);
    let spot = find_place(graph, line, matches, numbers, ids);
    add_found(
        graph, line, matches, spot, floats, numbers, stars, marks, ids,
    )
}
