// Numbers in decimal and texts, written into a lent buffer. Each function answers the place after what
// it wrote; every other byte of the buffer keeps its contents.
#![tactic(auto)]

ghost use Rattle.std.specs.Prelude.{◌≡◌, ◌+◌, ◌<◌, ◌≤◌, length};
ghost use Rattle.file_rules.specs.Decimal.{digit, decimal, signed_decimal};
ghost use Rattle.file_rules.specs.Lines.{labelled};
ghost use Rattle.lists.specs.Buffer.{Put};

// The byte of a digit.
fn digit_byte(n: u64) -> u8
    requires { n < 10 }
    ensures { result ≡ digit n }
{
    b'0' + n as u8
}

// How many digits n has. The turns are what is counted, so that no range could give them: a `while`.
fn digit_count(n: u64) -> usize
    ensures { result ≡ length (decimal n) }
{
    let mut count = 1;
    let mut rest = n;
    while 10 <= rest {
        rest = rest / 10;
        count += 1;
    }
    count
}

// n in decimal. The digits are found from the last to the first, so they are counted before. The `while`
// ends with the number that is left, not with a place.
pub fn put_number(out: &mut [u8], at: usize, n: u64) -> usize
    requires { at + length (decimal n) ≤ length out.old }
    ensures { Put at (decimal n) out.old out.new result }
{
    let after = at + digit_count(n);
    let mut place = after;
    let mut rest = n;
    while 10 <= rest {
        place -= 1;
        out[place] = digit_byte(rest % 10);
        rest = rest / 10;
    }
    out[at] = digit_byte(rest);
    after
}

// A text as it is.
pub fn put_text(out: &mut [u8], at: usize, text: &[u8]) -> usize
    requires { at + length text.now ≤ length out.old }
    ensures { Put at text.now out.old out.new result }
{
    let end = at + text.len();
    out[at..end].copy_from_slice(text);
    end
}

// A text and then a number.
pub fn put_labelled(out: &mut [u8], at: usize, label: &[u8], n: u64) -> usize
    requires { at + length (labelled label.now n) ≤ length out.old }
    ensures { Put at (labelled label.now n) out.old out.new result }
{
    let place = put_text(out, at, label);
    put_number(out, place, n)
}

// A minus sign where n is negative, and its size in decimal.
pub fn put_signed(out: &mut [u8], at: usize, n: i64) -> usize
    requires { at + length (signed_decimal n) ≤ length out.old }
    ensures { Put at (signed_decimal n) out.old out.new result }
{
    let size = n.unsigned_abs();
    if n < 0 {
        return put_labelled(out, at, b"-", size);
    }
    put_number(out, at, size)
}
