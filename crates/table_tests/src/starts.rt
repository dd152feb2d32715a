// How many half-edges start at each node: the degrees of a graph in which nothing is marked.
ghost use Rattle.std.specs.Prelude.{◌≡◌, map};
ghost use Rattle.lists.specs.Lists.{upto};
ghost use Rattle.rules.specs.Limits.{limits};
ghost use Rattle.table_tests.specs.Tests.{starts_at};
ghost use Rattle.table_tests.specs.Given.{Starts};

use tables::MAX_NODES;

pub fn count_starts(halves: usize, dir_edges_src: &[u16]) -> [u16; MAX_NODES]
    requires { Starts limits halves dir_edges_src.now }
    ensures { result ≡ map (starts_at dir_edges_src.now halves) (upto limits.nodes) }
{
    let mut counts = [0u16; MAX_NODES];
    for h in 0..halves {
        let n = usize::from(dir_edges_src[h]);
        counts[n] += 1;
    }
    counts
}
