// Replies, rings and holes as lines of text.
use crate::Reply;
use crate::entries::{Entries, entry};
use crate::floats::Printed;
use call_lending::SharedLists;
use cycles::Census;
use holes::Hole;
use std::io::Write;
use std::{fmt, io};

// What cutting and ring extraction count.
#[derive(Clone, Copy)]
struct Counted(Census);

impl fmt::Display for Counted {
    fn fmt<W: fmt::Write>(&self, f: &mut fmt::Formatter<W>) -> fmt::Result {
        let Census {
            vertices,
            edges,
            cycles,
            pieces,
            verdict,
        } = self.0;
        let verdict = if verdict { "yes" } else { "no" };
        write!(f, " census {vertices} {edges} {cycles} {pieces} {verdict}")
    }
}

// A reply, or the number of a refusal, and the list in which the call lists edges where it lists any.
#[derive(Clone, Copy)]
struct Shown<'a> {
    reply: Result<Reply, u64>,
    listed: &'a [u16],
}

impl fmt::Display for Shown<'_> {
    fn fmt<W: fmt::Write>(&self, f: &mut fmt::Formatter<W>) -> fmt::Result {
        let list = self.listed;
        let listed = |count| Entries {
            list,
            first: 0,
            count: usize::from(count),
        };
        match self.reply {
            Ok(Reply::Created) => write!(f, "created"),
            Ok(Reply::New(edge)) => write!(f, "edge {} new", edge.0),
            Ok(Reply::Old(edge)) => write!(f, "edge {} old", edge.0),
            Ok(Reply::Sorted | Reply::WasReset) => write!(f, "done"),
            Ok(Reply::Dangles(count)) => write!(f, "dangles {count}{}", listed(count)),
            Ok(Reply::Cuts { count, census }) => {
                write!(f, "cuts {count}{}{}", listed(count), Counted(census))
            }
            Ok(
                Reply::Rings {
                    count,
                    census,
                    comparisons,
                    halves,
                    holes,
                },
            ) => {
                write!(f, "rings {count}{}", Counted(census))?;
                write!(
                    f,
                    " comparisons {comparisons} halves {halves} holes {holes}"
                )
            }
            Err(number) => write!(f, "refused {number}"),
        }
    }
}

// A reply's line, which ends in a word where something changed that had to stay. A refusal is told by its number.
pub fn say_reply<W: Write>(
    out: &mut W,
    reply: Result<Reply, u64>,
    listed: &[u16],
    is_kept: bool,
) -> io::Result<()> {
    let mark = if is_kept { "" } else { " CHANGED" };
    writeln!(out, "{}{mark}", Shown { reply, listed })
}

// The word for the side of a ring that its face is on.
fn side_word(side: u8) -> &'static str {
    match side {
        0 => "flat",
        1 => "enclosed",
        2 => "open",
        _ => "unknown",
    }
}

fn say_ring<W: Write>(out: &mut W, lists: SharedLists<'_>, i: usize) -> io::Result<()> {
    let face = entry(lists.ring_face, i);
    let side = side_word(entry(lists.ring_side, i));
    let area = entry(lists.ring_area, i);
    let doubled = Printed(area + area);
    let halves = Entries {
        list: lists.half_edges,
        first: usize::from(entry(lists.ring_first, i)),
        count: usize::from(entry(lists.ring_length, i)),
    };
    writeln!(
        out,
        "ring {i} face {face} side {side} doubled {doubled} halves{halves}"
    )
}

// A line for each ring, where there are any.
pub fn say_rings<W: Write>(
    out: &mut W,
    reply: Result<Reply, u64>,
    lists: SharedLists<'_>,
) -> io::Result<()> {
    if let Ok(Reply::Rings { count, .. }) = reply {
        for i in 0..usize::from(count) {
            say_ring(out, lists, i)?;
        }
    }
    Ok(())
}

// A line for each hole.
pub fn say_holes<W: Write>(out: &mut W, holes: &[Hole]) -> io::Result<()> {
    for hole in holes {
        let Hole {
            ring,
            holder,
            doubled,
        } = *hole;
        writeln!(out, "hole {ring} holder {holder} doubled {doubled}")?;
    }
    Ok(())
}
