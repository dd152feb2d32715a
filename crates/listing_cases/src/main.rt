// Lists each segment file that an argument names, under its name; then files with a record that is
// longer than the listing's buffer, which are made here.
#![tactic(auto)]

use std::fs::File;
use std::io::Write;
use std::{env, fs, io};

// A line with the name, and then the listing of the file.
fn list_file(rt: &HostRuntime, name: &str) -> io::Result<()> {
    let mut file = File::open(rt, name)?;
    println!(rt; "# {name}")?;
    list_segments::list(&mut file, &mut rt.stdout(), &mut rt.stderr());
    Ok(())
}

// A file to be made: a record's length and kind, so many zeros, and what another file holds.
struct Long {
    name: &'static str,
    length: u32,
    kind: u16,
    zeros: u64,
    behind: &'static str,
}

// Records that are passed over: the longest ring, and lengths up to the buffer's bytes in all and one more.
const PASSED: [Long; 4] = [
    Long {
        name: "long_ring",
        length: 131_084,
        kind: 2,
        zeros: 131_082,
        behind: "p4",
    },
    Long {
        name: "long_skipped",
        length: 200_000,
        kind: 7,
        zeros: 199_998,
        behind: "p4",
    },
    Long {
        name: "long_fits",
        length: 65_532,
        kind: 3,
        zeros: 65_530,
        behind: "p4",
    },
    Long {
        name: "long_over",
        length: 65_533,
        kind: 3,
        zeros: 65_531,
        behind: "p4",
    },
];

// Files that are refused. What stands behind counts towards the record where that is not there to its end.
const REFUSED: [Long; 6] = [
    Long {
        name: "long_counted",
        length: 131_084,
        kind: 2,
        zeros: 131_082,
        behind: "kind_16_later",
    },
    Long {
        name: "long_segment",
        length: 100_000,
        kind: 1,
        zeros: 99_998,
        behind: "p4",
    },
    Long {
        name: "long_kind",
        length: 100_000,
        kind: 16,
        zeros: 99_998,
        behind: "p4",
    },
    Long {
        name: "long_whole",
        length: 100_000,
        kind: 2,
        zeros: 99_766,
        behind: "p4",
    },
    Long {
        name: "long_cut_by_one",
        length: 100_000,
        kind: 2,
        zeros: 99_765,
        behind: "p4",
    },
    Long {
        name: "long_cut",
        length: u32::MAX,
        kind: 15,
        zeros: 70_000,
        behind: "p4",
    },
];

// At most so many zeros are written at once.
const CHUNK: u64 = 4096;

// The file, still open: where standard output is closed the file has its number, and the listing goes into the file.
// What stands behind is read before it is written, since that file may be this one by another name.
fn make_file(rt: &HostRuntime, long: &Long) -> io::Result<File> {
    let mut made = File::create(rt, long.name)?;
    let length = long.length.to_le_bytes();
    let kind = long.kind.to_le_bytes();
    made.write_all(&[length[0], length[1], length[2], length[3], kind[0], kind[1]])?;
    let zeros = [0u8; CHUNK as usize];
    for done in (0..long.zeros).step_by(CHUNK as usize) {
        made.write_all(&zeros[..CHUNK.min(long.zeros - done) as usize])?;
    }
    let behind = fs::read(rt, long.behind)?;
    made.write_all(&behind)?;
    Ok(made)
}

// Argument 0 is the program's own name.
fn main(rt: HostRuntime) -> io::Result<()> {
    for name in env::args(&rt)?.skip(1) {
        list_file(&rt, &name)?;
    }
    for long in PASSED.iter().chain(&REFUSED) {
        let _made = make_file(&rt, long)?;
        list_file(&rt, long.name)?;
    }
    Ok(())
}
