// Runs the least rotation on rings worked by hand and prints where it starts and the comparisons made.
#![tactic(auto)]

use rotation::{LengthsDiffer, Rotation};
use std::io;

fn start(rt: &impl Print, name: &str, xs: &[u64], ys: &[u64]) -> io::Result<()> {
    match rotation::minimum_rotation_index(xs, ys) {
        Ok(Rotation { start, comparisons }) => {
            println!(rt; "{name} starts at {start}, comparisons {comparisons}")
        }
        Err(LengthsDiffer) => println!(rt; "{name} has keys of unequal lengths"),
    }
}

fn main(rt: HostRuntime) -> io::Result<()> {
    let zeros = [0u64; 6];
    let twice = [2u64, 1, 2, 1];
    start(&rt, "2 1 2 1", &twice, &zeros[..4])?;
    let same = [5u64, 5];
    start(&rt, "5 5", &same, &zeros[..2])?;
    let alone = [7u64];
    start(&rt, "nothing", &alone[..0], &zeros[..0])?;
    start(&rt, "7 alone", &alone, &zeros[..1])?;
    let late = [3u64, 1, 2, 1, 1, 2];
    start(&rt, "3 1 2 1 1 2", &late, &zeros)?;
    let most = [0u64, 0, 1, 0, 0];
    start(&rt, "0 0 1 0 0", &most, &zeros[..5])?;
    let xs = [4u64, 4, 4];
    let ys = [9u64, 8, 9];
    start(&rt, "(4,9) (4,8) (4,9)", &xs, &ys)?;
    // The bits of 4.0 come before those of -1.0: keys are compared as unsigned numbers.
    let bits = [0xbff0_0000_0000_0000u64, 0x4010_0000_0000_0000];
    start(&rt, "bits of -1 and 4", &bits, &zeros[..2])?;
    start(&rt, "3 keys, 2 of them whole", &xs, &zeros[..2])
}
