ghost use Rattle.std.specs.Prelude.{◌≡◌};
ghost use Rattle.scripts.specs.Arguments.{value_of};

use script_numbers::double::double;
use script_numbers::number::signed32;
use script_words::text::{after, is_text};
use values::value::Value;

// empty, true, false, int32:N or double:X.
pub fn value(word: &[u8], other: Option<f64>) -> Option<Value>
    ensures { result ≡ value_of word.now other }
{
    // A match on byte strings is proved byte by byte, with a case for each place where a word can differ.
    if is_text(word, b"empty") {
        return Some(Value::Empty);
    }
    if is_text(word, b"true") {
        return Some(Value::Boolean(true));
    }
    if is_text(word, b"false") {
        return Some(Value::Boolean(false));
    }
    if let Some(number) = after(word, b"int32:") {
        return signed32(number).map(Value::Int32);
    }
    double(after(word, b"double:")?, other).map(Value::Double)
}
