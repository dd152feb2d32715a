// One call of the extraction of rings, on slices and lists that may be lent short. The entry's core is
// called: it does all but write the holes, which it hands over.
use call_lending::{LentLists, Settings, SharedSlices};
use call_replies::Reply;
use hole_entry::RingsAndHoles;
use holes::Hole;
use ring_entry::Rings;
use tables::{Answer, MAX_SHAPED};

// What the call did, and the holes that the entry would write.
#[derive(Clone, Copy)]
pub struct Extraction {
    pub outcome: Answer<Reply>,
    pub list: [Hole; MAX_SHAPED],
    pub count: usize,
}

// Its reply in the form that all calls have.
fn outcome_of(done: Answer<RingsAndHoles>) -> Answer<Reply> {
    let reply = match done.reply {
        Ok(listed) => {
            let Rings {
                count,
                census,
                comparisons,
            } = listed.rings;
            Ok(Reply::Rings {
                count,
                census,
                comparisons,
                halves: listed.half_edges,
                holes: listed.holes,
            })
        }
        Err(why) => Err(why),
    };
    Answer {
        graph: done.graph,
        reply,
    }
}

// The core is lent the slices and lists as they are set to be lent.
pub fn extract(settings: Settings, slices: SharedSlices<'_>, lists: LentLists<'_>) -> Extraction {
    let SharedSlices {
        floats,
        numbers,
        stars,
        marks,
        ids,
    } = slices.lend(settings.short);
    let LentLists {
        half_edges,
        ring_first,
        ring_length,
        ring_face,
        ring_side,
        ring_area,
    } = lists.lend(settings.length);
    let made = hole_entry::extract_core(
        settings.holes,
        settings.graph,
        floats,
        numbers,
        stars,
        marks,
        ids,
        half_edges,
        ring_first,
        ring_length,
        ring_face,
        ring_side,
        ring_area,
    );
    let done = made.ringed;
    let list = made.list;
    let outcome = outcome_of(done);
    Extraction {
        outcome,
        list,
        count: made.count,
    }
}
