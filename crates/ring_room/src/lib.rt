// What a list of rings must pass before any of it is written.
#![tactic(auto)]

ghost use Rattle.std.specs.Prelude.{◌≡◌, ◌&&◌, ◌+◌, ◌≤◌, ltb, leb, length};
ghost use Rattle.lists.specs.Lists.{upto, all};
ghost use Rattle.ring_writing.specs.Rings.{writable_at, sizes_at};

use frames::{NODE_BYTES, RING_BYTES};

// The most nodes that a ring in a file may have.
const MAX_NODES: usize = 65_535;

// A ring that is not empty, not too long and within a list of so many nodes. Its first place and its
// length may have a sum that does not fit, so the length is taken from the list's.
fn is_writable(first: usize, size: usize, nodes: usize) -> bool
    ensures { result ≡ (ltb 0 size && (leb size 65535 && leb (first + size) nodes)) }
{
    if size == 0 {
        return false;
    }
    if MAX_NODES < size {
        return false;
    }
    if nodes < size {
        return false;
    }
    first <= nodes - size
}

// Each of the first `count` rings is.
pub fn all_writable(ring_first: &[usize], ring_length: &[usize], count: usize, nodes: usize) -> bool
    requires { (count ≤ length ring_first.now) × (count ≤ length ring_length.now) }
    ensures { result ≡ all (writable_at ring_first.now ring_length.now nodes) (upto count) }
{
    for i in 0..count {
        if !is_writable(ring_first[i], ring_length[i], nodes) {
            return false;
        }
    }
    true
}

// The records of the first `count` rings fit so many bytes. What is left of the bytes is counted down,
// and never a sum that might not fit.
pub fn bytes_fit(ring_length: &[usize], count: usize, room: usize) -> bool
    requires { count ≤ length ring_length.now }
    ensures { result ≡ leb (sizes_at ring_length.now (upto count)) room }
{
    let mut left = room;
    for size in &ring_length[..count] {
        if left < RING_BYTES {
            return false;
        }
        if (left - RING_BYTES) / NODE_BYTES < *size {
            return false;
        }
        left = left - RING_BYTES - NODE_BYTES * *size;
    }
    true
}
