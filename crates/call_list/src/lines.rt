// Lines: the call that each one is.
ghost use Rattle.std.specs.Prelude.{◌≡◌, ◌-◌, ◌<◌, ◌≤◌, length, take, drop};

use crate::state_table::{TABLES, Table};
use crate::words::{Words, next_coord, next_count, next_number};
use crate::{Call, GraphCall, Read};
use geometry::Line3D;
use std::str;
use tables::{MAX_EDGES, MAX_HALF_EDGES, PlanarGraph};

// A list is lent with a length below this: at most an entry for each half-edge.
const LENGTHS: u64 = (MAX_HALF_EDGES + 1) as u64;

// The hole list: at most a record for each edge.
const HOLE_LENGTHS: u64 = (MAX_EDGES + 1) as u64;

// A count of 16 bits.
fn next_u16(words: &mut Words<'_>) -> Option<u16> {
    Some(next_count(words, 0x1_0000)? as u16)
}

// Two points and a line id.
fn read_line(words: &mut Words<'_>) -> Option<Call> {
    let start = next_coord(words)?;
    let end = next_coord(words)?;
    let line_id = next_count(words, 0x1_0000_0000)? as u32;
    Some(Call::Graph(GraphCall::Add(Line3D {
        start,
        end,
        line_id,
    })))
}

// The small state.
fn read_state(words: &mut Words<'_>) -> Option<Call> {
    let node_count = next_u16(words)?;
    let edge_count = next_u16(words)?;
    let stage = next_count(words, 0x100)? as u8;
    Some(Call::State(PlanarGraph {
        node_count,
        edge_count,
        stage,
    }))
}

// The number of a table.
fn next_table(words: &mut Words<'_>) -> Option<Table> {
    let number = next_count(words, TABLES as u64)?;
    Table::numbered(number as usize)
}

// A table, a place, and what is put there. A line is this call also where no number stands last, but for one that
// is not UTF-8, which is no call.
fn read_entry(words: &mut Words<'_>) -> Option<Call> {
    let table = next_table(words)?;
    let place = next_u16(words)?;
    let number = next_number(words);
    Some(Call::Set(Some(table), usize::from(place), number))
}

// The length of a list.
fn next_length(words: &mut Words<'_>, limit: u64) -> Option<usize> {
    Some(next_count(words, limit)? as usize)
}

// A call's name, and the numbers behind it where it takes any.
fn read_named(name: &[u8], words: &mut Words<'_>) -> Option<Call> {
    match name {
        b"create" => Some(Call::Graph(GraphCall::Create)),
        b"add" => read_line(words),
        b"sort" => Some(Call::Graph(GraphCall::Sort)),
        b"prune" => Some(Call::Graph(GraphCall::Prune)),
        b"cut" => Some(Call::Graph(GraphCall::Cut)),
        b"rings" => Some(Call::Rings),
        b"reset" => Some(Call::Graph(GraphCall::Reset)),
        b"show" => Some(Call::Show),
        b"graph" => read_state(words),
        b"set" => read_entry(words),
        b"short" => Some(Call::Short(Some(next_table(words)?))),
        b"list" => next_length(words, LENGTHS).map(Call::List),
        b"holes" => next_length(words, HOLE_LENGTHS).map(Call::Holes),
        _ => None,
    }
}

// The call of a line of words, which has to be read whole.
fn read_words(line: &[u8]) -> Option<Call> {
    let mut words = str::from_utf8(line).ok()?.split(' ');
    let name = words.next()?;
    let call = read_named(name.as_bytes(), &mut words)?;
    if words.next().is_some() {
        return None;
    }
    Some(call)
}

// The call that a line is.
fn call_of(line: &[u8]) -> Call {
    match line {
        [] => Call::Blank,
        [b'#', ..] => Call::Comment,
        _ => read_words(line).unwrap_or(Call::Unknown),
    }
}

// The first line of a text, and the text behind it. The empty text's line is `Blank`.
pub fn read_call(text: &[u8]) -> Read<'_>
    ensures line { result.line.now ≡ take (length result.line.now) text.now }
    ensures rest { result.rest.now ≡ drop (length text.now - length result.rest.now) text.now }
    ensures shorter { 0 < length text.now → length result.rest.now < length text.now }
{
    let (line, rest) = match text.iter().position(|b| *b == b'\n') {
        Some(end) => (&text[..end], &text[end + 1..]),
        None => (text, &text[text.len()..]),
    };
    Read {
        call: call_of(line),
        line,
        rest,
    }
}
