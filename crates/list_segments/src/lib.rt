// The listing of a segment file: read from an input to its end, printed to an output.
#![tactic(auto)]

ghost use Rattle.std.specs.Prelude.{◌≤◌, length};
ghost use Rattle.rules.specs.Limits.{limits};
ghost use Rattle.ring_lines.specs.Rooms.{listing_room};
ghost use Rattle.list_segments.specs.Printing.{Prints, Ends};

use listing_steps::LISTING_ROOM;
use std::io::{Read, Write};
use tables::{FLOATS, IDS, MARKS, NUMBERS, STARS};
use written_output::{complain, write_front};

// Reads the input and writes its text to the front of `out`; answers how many bytes it has. A read that
// failed is no end of the input: then nothing is written, and there is no answer.
fn put_input<R: Read>(input: &mut R, out: &mut [u8]) -> Option<usize>
    requires { listing_room limits ≤ length out.old }
    ensures text { Prints result out.old out.new }
    ensures size { Ends result out.new }
{
    let mut floats = [0.0f64; FLOATS];
    let mut numbers = [0u16; NUMBERS];
    let mut stars = [0u16; STARS];
    let mut marks = [false; MARKS];
    let mut ids = [0u32; IDS];
    let read = segment_reading::read_segments(
        byte_listing::empty_graph(),
        input,
        &mut floats,
        &mut numbers,
        &mut stars,
        &mut marks,
        &mut ids,
    );
    let after = read.graph;
    let reply = read.reply;
    let source = read.source;
    if buffered_input::is_failed(source) {
        return None;
    }
    let size = taken_text::put_taken(
        after,
        read.records,
        reply,
        &floats,
        &numbers,
        &mut stars,
        &mut marks,
        &ids,
        out,
    );
    Some(size)
}

// Lists the segments that can be read from `input` on `output`; what failed is said on `errors`.
pub fn list<R: Read, W: Write, E: Write>(input: &mut R, output: &mut W, errors: &mut E) {
    let mut text = [0u8; LISTING_ROOM];
    match put_input(input, &mut text) {
        Some(size) => write_front(output, errors, &text, size),
        None => complain(errors, b"read error\n"),
    }
}
