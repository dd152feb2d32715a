// Runs the coordinate rule, the canonical bits and the angular order on cases worked by hand, and
// prints what they answer.
#![tactic(auto)]

use geometry::{Coord3D, NotACoordinate};
use std::cmp::Ordering;
use std::io;

// Number 1's rule of one coordinate.
fn rule(rt: &impl Print, name: &str, x: f64) -> io::Result<()> {
    if geometry::is_coordinate(x) {
        println!(rt; "coordinate {name} yes")
    } else {
        println!(rt; "coordinate {name} no")
    }
}

fn bits(rt: &impl Print, name: &str, x: f64) -> io::Result<()> {
    let bits = geometry::canonical_coordinate_bits(x);
    println!(rt; "bits {name} {bits:016x}")
}

fn at(x: f64, y: f64) -> Coord3D {
    Coord3D { x, y, z: 0.0 }
}

fn order(o: Ordering) -> &'static str {
    match o {
        Ordering::Less => "less",
        Ordering::Equal => "equal",
        Ordering::Greater => "greater",
    }
}

// The order of two targets around the centre (1, 1).
fn compare(rt: &impl Print, name: &str, a: Coord3D, b: Coord3D) -> io::Result<()> {
    match geometry::compare_angular(at(1.0, 1.0), a, b) {
        Ok(o) => {
            let answer = order(o);
            println!(rt; "compare {name} {answer}")
        }
        Err(NotACoordinate) => println!(rt; "compare {name} refused 1"),
    }
}

fn coordinates(rt: &impl Print) -> io::Result<()> {
    rule(rt, "1048576", 1048576.0)?;
    rule(rt, "-1048576", -1048576.0)?;
    rule(rt, "1048577", 1048577.0)?;
    rule(rt, "-1048577", -1048577.0)?;
    rule(rt, "0.5", 0.5)?;
    rule(rt, "-0.0", -0.0)?;
    rule(rt, "infinity", 1.0e308 * 10.0)?;
    rule(rt, "-infinity", -1.0e308 * 10.0)?;
    rule(rt, "NaN", 0.0 / 0.0)?;
    bits(rt, "0.0", 0.0)?;
    bits(rt, "-0.0", -0.0)?;
    bits(rt, "4", 4.0)?;
    bits(rt, "-1", -1.0)?;
    bits(rt, "NaN", 0.0 / 0.0)
}

fn comparisons(rt: &impl Print) -> io::Result<()> {
    compare(
        rt,
        "(2,1) (1,2): quadrant 0 before 1",
        at(2.0, 1.0),
        at(1.0, 2.0),
    )?;
    compare(
        rt,
        "(1,0) (0,1): quadrant 3 behind 2",
        at(1.0, 0.0),
        at(0.0, 1.0),
    )?;
    compare(
        rt,
        "(3,2) (2,3): counterclockwise",
        at(3.0, 2.0),
        at(2.0, 3.0),
    )?;
    compare(rt, "(2,3) (3,2): clockwise", at(2.0, 3.0), at(3.0, 2.0))?;
    compare(rt, "(2,2) (4,4): nearer", at(2.0, 2.0), at(4.0, 4.0))?;
    compare(rt, "(4,4) (2,2): farther", at(4.0, 4.0), at(2.0, 2.0))?;
    compare(rt, "(2,2) (2,2): the same", at(2.0, 2.0), at(2.0, 2.0))?;
    compare(
        rt,
        "(0.0,1) (-0.0,1): one point",
        at(0.0, 1.0),
        at(-0.0, 1.0),
    )?;
    compare(
        rt,
        "(1,1) (1,0): the centre is in quadrant 3",
        at(1.0, 1.0),
        at(1.0, 0.0),
    )?;
    compare(
        rt,
        "far corners: exact",
        at(1048576.0, 1048575.0),
        at(1048575.0, 1048574.0),
    )?;
    compare(rt, "(0.5,0) (1,0): a fraction", at(0.5, 0.0), at(1.0, 0.0))?;
    compare(rt, "(1,0) (NaN,0)", at(1.0, 0.0), at(0.0 / 0.0, 0.0))
}

fn main(rt: HostRuntime) -> io::Result<()> {
    coordinates(&rt)?;
    comparisons(&rt)
}
