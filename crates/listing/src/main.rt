// Lists the segment file on standard input.
#![tactic(auto)]

fn main(rt: HostRuntime) {
    list_segments::list(&mut rt.stdin(), &mut rt.stdout(), &mut rt.stderr());
}
