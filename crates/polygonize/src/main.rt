// Writes the ring file of the segment file on standard input.
#![tactic(auto)]

fn main(rt: HostRuntime) {
    ring_output::polygonize(&mut rt.stdin(), &mut rt.stdout(), &mut rt.stderr());
}
