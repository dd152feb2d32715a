// Runs the call lists in the file stdin through the public entries of the graph and prints every reply: the worked cases, and a
// sample of the original Rust's answers. After each call every entry that it has to leave alone is compared with what stood there
// before.
#![tactic(auto)]

use call_lending::{Lists, RingLists, Settings, Slices, Tables};
use call_list::Call;
use call_steps::step;
use std::io;
use std::io::{BufWriter, Read, Write};
use tables::{FLOATS, IDS, MARKS, MAX_EDGES, MAX_HALF_EDGES, NUMBERS, PlanarGraph, STARS};

// A longer text is not run.
const TEXT: usize = 524288;

// The slices and lists hold something from the start, so that a call that takes them for empty, or
// clears more than it may, is seen.
// Not inlined, so that what they are made from, nearly a mebibyte, is off the stack before the calls begin.
#[inline(never)]
fn filled_tables() -> Tables {
    Tables {
        slices: Slices {
            floats: [7.0; FLOATS],
            numbers: [7; NUMBERS],
            stars: [7; STARS],
            marks: [true; MARKS],
            ids: [7; IDS],
        },
        lists: Lists {
            half_edges: [7; MAX_HALF_EDGES],
            rings: RingLists {
                ring_first: [7; MAX_HALF_EDGES],
                ring_length: [7; MAX_HALF_EDGES],
                ring_face: [7; MAX_HALF_EDGES],
                ring_side: [7; MAX_HALF_EDGES],
                ring_area: [7.0; MAX_HALF_EDGES],
            },
        },
    }
}

// No graph yet, and everything lent whole.
fn first_settings() -> Settings {
    Settings {
        graph: PlanarGraph {
            node_count: 0,
            edge_count: 0,
            stage: 0,
        },
        short: None,
        length: MAX_HALF_EDGES,
        holes: MAX_EDGES,
    }
}

// A comment that starts with `#` is printed as it is.
fn run<W: Write>(out: &mut W, text: &[u8]) -> io::Result<()> {
    let mut tables = filled_tables();
    let mut settings = first_settings();
    let mut rest = text;
    while !rest.is_empty() {
        let read = call_list::read_call(rest);
        if let Call::Comment = read.call {
            out.write_all(read.line)?;
            writeln!(out)?;
        }
        settings = step(out, read.call, settings, &mut tables)?;
        rest = read.rest;
    }
    Ok(())
}

// The call list on standard input. A text of that length may go on behind it, so it is not run.
fn main(rt: HostRuntime) -> io::Result<()> {
    let mut text = Vec::new(rt.alloc());
    rt.stdin().take(TEXT as u64).read_to_end(&mut text)?;
    let mut out = BufWriter::new(rt.alloc(), rt.stdout())?;
    if text.len() == TEXT {
        writeln!(out, "too long")?;
    } else {
        run(&mut out, &text)?;
    }
    out.flush()
}
