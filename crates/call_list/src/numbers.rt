// Numbers as they are written: decimal with an optional minus sign, or `x` and the 16 hexadecimal
// digits of a float's bits.
ghost use Rattle.std.specs.Prelude.{◌≡◌, ℕ, ◌<◌, ◌≤◌, length, is_some, IsNone, Some};
ghost use Rattle.call_list.specs.Digits.{digit_of, Written};

// A decimal keeps its sign apart, so that `-0` can be told from `0`.
#[derive(Clone, Copy)]
pub enum Number {
    Whole { minus: bool, size: u64 },
    Bits(u64),
}

// A digit's value: 0 to 9, then a to f.
#[tactic(auto, unfolding(crate::specs::Digits::digit_of))]
fn digit_value(byte: u8) -> Option<u64>
    ensures digit { (d : ℕ) → result ≡ Some d → d ≡ digit_of byte }
    ensures none { IsNone result → digit_of byte ≡ 16 }
{
    match byte {
        b'0'..=b'9' => Some(u64::from(byte - b'0')),
        b'a'..=b'f' => Some(u64::from(byte - b'a') + 10),
        _ => None,
    }
}

// The number that digits write. One digit more has to fit in 64 bits, so a number stops growing at 2⁶⁰.
// Not `parse`: that takes a plus sign and numbers up to 2⁶⁴, and its clause doesn't say `Written`.
fn digits_in(digits: &[u8], base: u64) -> Option<u64>
    requires { base ≤ 16 }
    ensures { (n : ℕ) → result ≡ Some n → (0 < length digits.now) × Written base digits.now 0 (length digits.now) n }
{
    if digits.is_empty() {
        return None;
    }
    let mut value = 0;
    for byte in digits {
        let digit = digit_value(*byte).filter(|d| *d < base)?;
        if 0x1000_0000_0000_0000 <= value {
            return None;
        }
        value = value * base + digit;
    }
    Some(value)
}

// The number that a word writes.
pub fn number_in(word: &[u8]) -> Option<Number> {
    match word {
        [b'x', digits @ ..] if digits.len() == 16 => digits_in(digits, 16).map(Number::Bits),
        [b'-', digits @ ..] => {
            let size = digits_in(digits, 10)?;
            Some(Number::Whole { minus: true, size })
        }
        _ => {
            let size = digits_in(word, 10)?;
            Some(Number::Whole { minus: false, size })
        }
    }
}

// The number where there is one that is whole, has no minus sign, and is below the limit.
pub fn count_of(number: Option<Number>, limit: u64) -> Option<u64>
    ensures { (n : ℕ) → result ≡ Some n → n < limit }
{
    match number {
        Some(Number::Whole { minus: false, size }) if size < limit => Some(size),
        _ => None,
    }
}

// A whole number as a float; -0 is -0.0.
fn whole_float(minus: bool, size: u64) -> f64 {
    let float = std::num::nearest_u64_to_f64(size);
    if minus { -float } else { float }
}

// The number as a float, where there is one.
pub fn real_of(number: Option<Number>) -> Option<f64>
    ensures { is_some result ≡ is_some number }
{
    match number? {
        Number::Whole { minus, size } => Some(whole_float(minus, size)),
        Number::Bits(bits) => Some(segment_file::float_of(bits)),
    }
}
