ghost use Rattle.std.specs.Prelude.{◌≡◌, ℕ, ◌<◌, ◌≤◌, Some};
ghost use Rattle.script_numbers.specs.Numbers.{digit_of, with_digit, numeral_of, below32, number_of, status_of, integer_of, signed_of, ReadsBack};

use script_words::text::after;

// The number with one more digit of the base, unless it leaves u64. Bases are 10 and 16: two `requires` of three functions
// here are as short as a type for them.
fn with_digit(base: u32, number: u64, byte: u8) -> Option<u64>
    requires low { 2 ≤ base }
    requires high { base ≤ 16 }
    ensures { result ≡ with_digit base number (digit_of byte) }
{
    let digit = char::from(byte).to_digit(base)?;
    number
        .checked_mul(u64::from(base))?
        .checked_add(u64::from(digit))
}

// The number in the digits of the base; none if there are no digits, or too many for u64.
fn numeral(digits: &[u8], base: u32) -> Option<u64>
    requires low { 2 ≤ base }
    requires high { base ≤ 16 }
    ensures { result ≡ numeral_of base digits.now }
{
    if digits.is_empty() {
        return None;
    }
    digits
        .iter()
        .try_fold(0, |number, byte| with_digit(base, number, *byte))
}

fn unsigned32(digits: &[u8], base: u32) -> Option<u32>
    requires low { 2 ≤ base }
    requires high { base ≤ 16 }
    ensures { result ≡ below32 (numeral_of base digits.now) }
{
    u32::try_from(numeral(digits, base)?).ok()
}

// A number of 32 bits in decimal.
pub fn number(word: &[u8]) -> Option<u32>
    ensures value { result ≡ number_of word.now }
    ensures back { ReadsBack word.now result }
{
    unsigned32(word, 10)
}

// A number of 32 bits in decimal, or in hexadecimal behind 0x.
#[tactic(auto, unfolding(crate::specs::Numbers::status_of))]
pub fn status(word: &[u8]) -> Option<u32>
    ensures { result ≡ status_of word.now }
{
    match after(word, b"0x") {
        Some(digits) => unsigned32(digits, 16),
        None => number(word),
    }
}

// A number in decimal, with or without a minus.
#[tactic(auto, unfolding(crate::specs::Numbers::integer_of))]
fn integer(word: &[u8]) -> Option<i128>
    ensures { result ≡ integer_of word.now }
{
    match after(word, b"-") {
        Some(digits) => Some(-i128::from(numeral(digits, 10)?)),
        None => Some(i128::from(numeral(word, 10)?)),
    }
}

// A signed number of 32 bits in decimal.
// One function for both sizes, at a `T: TryFrom<i128>`, could promise what that bound says, and not which numbers fit.
#[tactic(auto, unfolding(crate::specs::Numbers::signed_of, crate::specs::Numbers::integer_of))]
pub fn signed32(word: &[u8]) -> Option<i32>
    ensures { result ≡ signed_of 2147483648 word.now }
{
    i32::try_from(integer(word)?).ok()
}

// A signed number of 64 bits in decimal.
#[tactic(auto, unfolding(crate::specs::Numbers::signed_of, crate::specs::Numbers::integer_of))]
pub fn signed64(word: &[u8]) -> Option<i64>
    ensures { result ≡ signed_of 9223372036854775808 word.now }
{
    i64::try_from(integer(word)?).ok()
}
