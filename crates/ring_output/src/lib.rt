// The ring file of a segment file: read from an input to its end, written to an output. What went wrong is
// said on standard error, and nothing is written in its place.
#![tactic(auto)]

ghost use Rattle.std.specs.Prelude.{◌≤◌, length};
ghost use Rattle.rules.specs.Limits.{limits};
ghost use Rattle.tables.specs.Regions.{state_in};
ghost use Rattle.taking.specs.Answers.{reply_of};
ghost use Rattle.map_steps.specs.Stands.{Stands};
ghost use Rattle.ring_records.specs.File.{file_room};
ghost use Rattle.ring_output.specs.Output.{Tells, Writes, Ends};

use ring_records::RING_FILE_ROOM;
use std::io::{Read, Write};
use tables::{FLOATS, IDS, MARKS, NUMBERS, PlanarGraph, STARS};
use taking::{TakeRefusal, take_number};
use written_output::{complain, write_front};

// What stands in the buffer for the input: a ring file of so many bytes, or the line of a refusal.
#[derive(Clone, Copy)]
enum Output {
    File(usize),
    Refusal(usize),
}

// What was taken from a file, at the front of `out`: the line of the refusal that record `records` met,
// or the ring file of the graph.
fn put_taken(
    graph: PlanarGraph,
    records: u64,
    reply: Result<(), TakeRefusal>,
    floats: &[f64],
    numbers: &[u16],
    stars: &mut [u16],
    marks: &mut [bool],
    ids: &[u32],
    out: &mut [u8],
) -> Output
    requires { Stands 0 (state_in limits graph floats.now numbers.now stars.old marks.old ids.now) × (file_room limits ≤ length out.old) }
    ensures { Tells (reply_of reply) records (state_in limits graph floats.now numbers.now stars.old marks.old ids.now) result out.old out.new }
{
    match reply {
        Ok(()) => {
            let size = ring_steps::put_map(graph, floats, numbers, stars, marks, ids, out);
            Output::File(size)
        }
        Err(why) => {
            let shown = u64::from(take_number(why));
            let size = listing_text::put_refusal(out, 0, shown, records);
            Output::Refusal(size)
        }
    }
}

// Reads the input and writes what it comes to at the front of `out`. A read that failed is no end of the
// input: then nothing is written, and there is no output.
fn put_input<R: Read>(input: &mut R, out: &mut [u8]) -> Option<Output>
    requires { file_room limits ≤ length out.old }
    ensures text { Writes result out.old out.new }
    ensures size { Ends result out.new }
{
    let mut floats = [0.0f64; FLOATS];
    let mut numbers = [0u16; NUMBERS];
    let mut stars = [0u16; STARS];
    let mut marks = [false; MARKS];
    let mut ids = [0u32; IDS];
    let read = segment_reading::read_segments(
        byte_listing::empty_graph(),
        input,
        &mut floats,
        &mut numbers,
        &mut stars,
        &mut marks,
        &mut ids,
    );
    let after = read.graph;
    let reply = read.reply;
    let source = read.source;
    if buffered_input::is_failed(source) {
        return None;
    }
    let output = put_taken(
        after,
        read.records,
        reply,
        &floats,
        &numbers,
        &mut stars,
        &mut marks,
        &ids,
        out,
    );
    Some(output)
}

// Writes the ring file of the segments that can be read from `input` to `output`; the line of a refusal
// and what failed go to `errors`.
pub fn polygonize<R: Read, W: Write, E: Write>(input: &mut R, output: &mut W, errors: &mut E) {
    let mut buffer = [0u8; RING_FILE_ROOM];
    match put_input(input, &mut buffer) {
        Some(Output::File(size)) => write_front(output, errors, &buffer, size),
        Some(Output::Refusal(size)) => complain(errors, &buffer[..size]),
        None => complain(errors, b"read error\n"),
    }
}
