ghost use Rattle.std.specs.Prelude.{◌≡◌, Some, fold};
ghost use Rattle.script_numbers.specs.declared.double.Reading.TheVariants.{Start};
ghost use Rattle.script_numbers.specs.Doubles.{more, ratio_of, on_digit, on_point, on_byte, step, value_in, magnitude_of, exact_of, double_of};

use script_words::text::{after, is_text};
use std::num::nearest_u64_to_f64;

// How far a Double has been read: its digits as a number, and how many stand behind the point.
#[derive(Clone, Copy)]
enum Reading {
    Start,
    Whole(u64),
    Point,
    Fraction(u64, u32),
}

// Two checked steps, as in `number`: one function for both would take the base and the value of the digit apart again.
fn more(number: u64, digit: u64) -> Option<u64>
    ensures { result ≡ more number digit }
{
    number.checked_mul(10)?.checked_add(digit)
}

// The Double nearest to number / 10^decimals. Both are Doubles exactly, so only the quotient
// rounds.
fn ratio(number: u64, decimals: u32) -> Option<f64>
    ensures { result ≡ ratio_of number decimals }
{
    if number > 0x20_0000_0000_0000 {
        return None;
    }
    if decimals > 15 {
        return None;
    }
    let scale = 10u64.pow(decimals);
    Some(nearest_u64_to_f64(number) / nearest_u64_to_f64(scale))
}

impl Reading {
    fn digit(self, digit: u8) -> Option<Reading>
        ensures { result ≡ on_digit self digit }
    {
        let digit = u64::from(digit);
        match self {
            Reading::Start => Some(Reading::Whole(digit)),
            Reading::Whole(number) => Some(Reading::Whole(more(number, digit)?)),
            Reading::Point => Some(Reading::Fraction(digit, 1)),
            Reading::Fraction(number, decimals) => Some(Reading::Fraction(
                more(number, digit)?,
                decimals.checked_add(1)?,
            )),
        }
    }

    fn point(self) -> Option<Reading>
        ensures { result ≡ on_point self }
    {
        match self {
            Reading::Start => Some(Reading::Point),
            Reading::Whole(number) => Some(Reading::Fraction(number, 0)),
            Reading::Point | Reading::Fraction(..) => None,
        }
    }

    fn next(self, byte: u8) -> Option<Reading>
        ensures { result ≡ on_byte self byte }
    {
        match byte {
            // The pattern shows a digit, and the difference is its value: `to_digit` would have a case that never comes.
            b'0'..=b'9' => self.digit(byte - b'0'),
            b'.' => self.point(),
            _ => None,
        }
    }

    fn value(self) -> Option<f64>
        ensures { result ≡ value_in self }
    {
        match self {
            Reading::Whole(number) => ratio(number, 0),
            Reading::Fraction(number, decimals) => ratio(number, decimals),
            Reading::Start | Reading::Point => None,
        }
    }
}

// The reading behind the last byte.
fn scanned(digits: &[u8]) -> Option<Reading>
    ensures { result ≡ fold step (Some Start) digits.now }
{
    digits
        .iter()
        .try_fold(Reading::Start, |reading, byte| reading.next(*byte))
}

fn magnitude(digits: &[u8]) -> Option<f64>
    ensures { result ≡ magnitude_of digits.now }
{
    scanned(digits)?.value()
}

// The Double nearest to a decimal number, with or without a minus and a point, or nan, inf or -inf.
// The digits make a number up to 2^53, with at most 15 of them behind the point.
#[tactic(auto, using(crate::proofs::Constants::nan_is, crate::proofs::Constants::inf_is, crate::proofs::Constants::minus_inf_is), unfolding(crate::specs::Doubles::exact_of))]
fn exact(word: &[u8]) -> Option<f64>
    ensures { result ≡ exact_of word.now }
{
    // A match on byte strings is proved byte by byte, with a case for each place where a word can differ.
    if is_text(word, b"nan") {
        return Some(f64::NAN);
    }
    if is_text(word, b"inf") {
        return Some(f64::INFINITY);
    }
    if is_text(word, b"-inf") {
        return Some(f64::NEG_INFINITY);
    }
    match after(word, b"-") {
        Some(digits) => magnitude(digits).map(|x| -x),
        None => magnitude(word),
    }
}

// The Double in a word; `other` is what the standard library reads of it, which counts where the digits are many or there is
// an exponent.
pub fn double(word: &[u8], other: Option<f64>) -> Option<f64>
    ensures { result ≡ double_of word.now other }
{
    exact(word).or(other)
}
