// What a program writes: the front of a buffer to its output, and what failed to standard error.
#![tactic(auto)]

ghost use Rattle.std.specs.Prelude.{◌≤◌, length};

use std::io::Write;

// Says on standard error what failed. Nothing is written in its place.
pub fn complain<E: Write>(errors: &mut E, what: &[u8]) {
    let _ = errors.write_all(what);
}

// Writes the first bytes of a buffer.
pub fn write_front<W: Write, E: Write>(output: &mut W, errors: &mut E, buffer: &[u8], size: usize)
    requires { size ≤ length buffer.now }
{
    if output.write_all(&buffer[..size]).is_err() {
        complain(errors, b"write error\n");
    }
}
