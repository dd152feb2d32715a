// What taking the records of a segment file answers, record by record and for all of them.
#![tactic(auto)]

ghost use Rattle.std.specs.Prelude.{◌≡◌};
ghost use Rattle.adding.specs.Outcomes.{reply_of as add_reply_of};
ghost use Rattle.taking.specs.Taking.{after_adding_lem};
ghost use Rattle.taking.specs.Answers.{number_of, rest_of};
ghost use Rattle.taking.specs.declared.TakeRefusal.TheVariants.{Record};

use adding::LineEdge;
use frames::{FileRefusal, file_number};
use std::ops::ControlFlow;
use tables::{PlanarGraph, Refusal, refusal_number};

// Why taking ends before the file does: a record's frame is refused, or the addition of its segment.
#[derive(Clone, Copy)]
pub enum TakeRefusal {
    Record(FileRefusal),
    Segment(Refusal),
}

impl From<FileRefusal> for TakeRefusal {
    ghost from_gives = { λ why given. given ≡ Record why };

    fn from(why: FileRefusal) -> TakeRefusal {
        TakeRefusal::Record(why)
    }
}

// The documents' number of it.
pub fn take_number(why: TakeRefusal) -> u32
    ensures { result ≡ number_of why }
{
    match why {
        TakeRefusal::Record(frame) => file_number(frame),
        TakeRefusal::Segment(added) => refusal_number(added),
    }
}

// The counts and the stage after one record, what follows it, and the lowest free place for a line id.
// The next record follows behind so many bytes, or nothing does, with the answer to all of them.
#[derive(Clone, Copy)]
pub struct Turn {
    pub graph: PlanarGraph,
    pub next: ControlFlow<Result<(), TakeRefusal>, usize>,
    pub free: u16,
}

// The counts and the stage after many, how many were taken or passed over, which is the number from 0 of
// one that is refused, and how many bytes these have.
#[derive(Clone, Copy)]
pub struct Taken {
    pub graph: PlanarGraph,
    pub count: usize,
    pub bytes: usize,
    pub reply: Result<(), TakeRefusal>,
}

// An added segment takes its record's bytes; a refused one ends the taking.
pub fn after_adding(
    reply: Result<LineEdge, Refusal>,
    size: usize,
) -> ControlFlow<Result<(), TakeRefusal>, usize>
    ensures { rest_of result ≡ after_adding_lem (add_reply_of reply) size }
{
    match reply {
        Ok(LineEdge::New(_)) => ControlFlow::Continue(size),
        Ok(LineEdge::Old(_)) => ControlFlow::Continue(size),
        Err(why) => ControlFlow::Break(Err(TakeRefusal::Segment(why))),
    }
}
