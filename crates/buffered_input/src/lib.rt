// An input that is read through a buffer: what a read brings, what is kept of it for the next one, and
// bytes that are passed over without being held.
#![tactic(auto)]

ghost use Rattle.std.specs.Prelude.{◌≡◌, ◌+◌, ◌-◌, ◌<◌, ◌≤◌, length};
ghost use Rattle.buffered_input.specs.Reads.{is_open_lem, is_failed_lem, Brings, Dropped, Fronted};

use std::io::Read;

// Whether the input may have more: the last read brought some bytes, it met the end, or it failed.
#[derive(Clone, Copy)]
pub enum Source {
    Open,
    Ended,
    Failed,
}

// How many bytes came, and whether there may be more.
#[derive(Clone, Copy)]
pub struct Brought {
    pub got: usize,
    pub source: Source,
}

// Whether there may be more.
pub fn is_open(source: Source) -> bool
    ensures { result ≡ is_open_lem source }
{
    match source {
        Source::Open => true,
        Source::Ended => false,
        Source::Failed => false,
    }
}

// Whether a read failed.
pub fn is_failed(source: Source) -> bool
    ensures { result ≡ is_failed_lem source }
{
    match source {
        Source::Open => false,
        Source::Ended => false,
        Source::Failed => true,
    }
}

// One read, to the front of `room`. An empty room would make it look like the end.
pub fn read_some<R: Read>(input: &mut R, room: &mut [u8]) -> Brought
    requires { 0 < length room.old }
    ensures { Brings (length room.old) result }
{
    match input.read(room) {
        Err(_) => Brought {
            got: 0,
            source: Source::Failed,
        },
        Ok(0) => Brought {
            got: 0,
            source: Source::Ended,
        },
        Ok(got) => Brought {
            got,
            source: Source::Open,
        },
    }
}

// Reads so many bytes and holds none of them: each read writes over the last. Answers how many came;
// they are fewer where the input ended or a read failed. A `while`, since each read says how many are left.
pub fn drop_bytes<R: Read>(input: &mut R, buffer: &mut [u8], missing: usize) -> Brought
    requires { 0 < length buffer.old }
    ensures { Dropped missing result }
{
    let mut left = missing;
    while 0 < left {
        let room = left.min(buffer.len());
        let brought = read_some(input, &mut buffer[..room]);
        let source = brought.source;
        left -= brought.got;
        if !is_open(source) {
            return Brought {
                got: missing - left,
                source,
            };
        }
    }
    Brought {
        got: missing,
        source: Source::Open,
    }
}

// Moves n bytes from `from` on to the front.
fn move_front(buffer: &mut [u8], from: usize, n: usize)
    requires { from + n ≤ length buffer.old }
    ensures { Fronted from n buffer.old buffer.new }
{
    buffer.copy_within(from..from + n, 0);
}

// Of a filled buffer whose first bytes were used, the rest is kept, at its front. Answers how many
// bytes these are.
pub fn keep_rest(buffer: &mut [u8], used: usize, filled: usize) -> usize
    requires { (used ≤ filled) × (filled ≤ length buffer.old) }
    ensures { (result ≡ filled - used) × Fronted used result buffer.old buffer.new }
{
    let rest = filled - used;
    move_front(buffer, used, rest);
    rest
}
