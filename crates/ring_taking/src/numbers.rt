// Numbers out of bytes into lists.
ghost use Rattle.std.specs.Prelude.{◌≡◌, ◌+◌, ◌*◌, ◌≤◌, length};
ghost use Rattle.lists.specs.Buffer.{Put};
ghost use Rattle.ring_taking.specs.Taken.{words_from};

use frames::NODE_BYTES;

// So many node numbers into a list, from a place of it on.
pub fn copy_nodes(bytes: &[u8], at: usize, count: usize, nodes: &mut [u16], place: usize) -> usize
    requires { (at + 2 * count ≤ length bytes.now) × (place + count ≤ length nodes.old) }
    ensures { Put place (words_from bytes.now at count) nodes.old nodes.new result }
{
    for i in 0..count {
        nodes[place + i] = frames::le16(bytes, at + NODE_BYTES * i);
    }
    place + count
}
