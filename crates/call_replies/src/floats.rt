// Floats by their bits and as they are printed.
ghost use Rattle.std.specs.Prelude.{◌≡◌, to_bits};
ghost use Rattle.std.specs.Float.{binary64};

use std::fmt;

// The bits of a float; one pattern for every NaN, since the language leaves a NaN's bits open.
pub fn float_bits(x: f64) -> u64
    ensures { result ≡ to_bits binary64 x }
{
    if x != x {
        return 0x7ff8_0000_0000_0000;
    }
    f64::to_bits(x)
}

// The whole number that a float without a sign is.
fn whole_of(size: f64) -> Option<u64> {
    if size > -1.0 && size < 18446744073709551616.0 {
        let n = std::num::truncating_f64_to_u64(size);
        if std::num::nearest_u64_to_f64(n) == size {
            return Some(n);
        }
    }
    None
}

// A float as it is printed: a whole number with its sign, -0.0 too; any other float by its bits.
#[derive(Clone, Copy)]
pub struct Printed(pub f64);

impl fmt::Display for Printed {
    fn fmt<W: fmt::Write>(&self, f: &mut fmt::Formatter<W>) -> fmt::Result {
        let x = self.0;
        if x.is_nan() {
            return write!(f, "nan");
        }
        let minus = if x.is_sign_negative() { "-" } else { "" };
        match whole_of(x.abs()) {
            Some(n) => write!(f, "{minus}{n}"),
            None => write!(f, "x{:016x}", float_bits(x)),
        }
    }
}
