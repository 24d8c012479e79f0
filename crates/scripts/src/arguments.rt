// The arguments of a command, from left to right.
ghost use Rattle.std.specs.Prelude.{◌≡◌, ◌<◌, length, Option};
ghost use Rattle.std.specs.Fn.{FnOnceReturnsAt};
ghost use Rattle.std.specs.Option.{ok_or};
ghost use Rattle.scripts.specs.Arguments.{left, TookWord, word_at, number_at, signed_at, double_at, status_at, time_at, count_at, either_at, switch_at, policy_at, value_at, end_at};

use crate::expected::Expected;
use crate::value::value;
use script_numbers::double::double;
use script_numbers::number::{number, signed32, signed64, status};
use script_words::text::is_text;
use script_words::words::Words;
use values::value::Value;

// The words that are not read yet; `other` is what the standard library reads of the command's Double.
#[derive(Clone, Copy)]
pub struct Arguments<'a> {
    pub words: Words<'a>,
    pub other: Option<f64>,
}

impl<'a> Arguments<'a> {
    // The next word. Empty where none is left, as the definitions have it: an Option would be unwrapped in each of them.
    pub fn word(&mut self) -> &'a [u8]
        ensures value { result.now ≡ word_at (left self.old) 0 }
        ensures took { TookWord self.old self.new }
    {
        self.words.next().unwrap_or(&[])
    }

    pub fn number(&mut self) -> Result<u32, Expected>
        ensures value { result ≡ number_at (left self.old) 0 }
        ensures took { TookWord self.old self.new }
    {
        number(self.word()).ok_or(Expected::Number)
    }

    pub fn signed(&mut self) -> Result<i32, Expected>
        ensures value { result ≡ signed_at (left self.old) 0 }
        ensures took { TookWord self.old self.new }
    {
        signed32(self.word()).ok_or(Expected::Signed)
    }

    pub fn double(&mut self) -> Result<f64, Expected>
        ensures value { result ≡ double_at (left self.old) 0 self.old.other }
        ensures took { TookWord self.old self.new }
    {
        double(self.word(), self.other).ok_or(Expected::Double)
    }

    pub fn value(&mut self) -> Result<Value, Expected>
        ensures value { result ≡ value_at (left self.old) 0 self.old.other }
        ensures took { TookWord self.old self.new }
    {
        value(self.word(), self.other).ok_or(Expected::Value)
    }

    // What is read of the next word, or the default where it is left out.
    fn or_default<T: Drop, F: FnOnce(&[u8]) -> Option<T>>(
        &mut self,
        default: T,
        expected: Expected,
        read: F,
    ) -> Result<T, Expected>
        requires { F.IsAlwaysCallable read }
        ensures absent { length (word_at (left self.old) 0) ≡ 0 → result ≡ Ok default }
        ensures given { 0 < length (word_at (left self.old) 0) → (r : Option T) × FnOnceReturnsAt F.FnOnce read (word_at (left self.old) 0) r × (result ≡ ok_or r expected) }
        ensures took { TookWord self.old self.new }
    {
        let word = self.word();
        if word.is_empty() {
            Ok(default)
        } else {
            read(word).ok_or(expected)
        }
    }

    // The status code, 0 where it is left out.
    pub fn status(&mut self) -> Result<u32, Expected>
        ensures value { result ≡ status_at (left self.old) 0 }
        ensures took { TookWord self.old self.new }
    {
        self.or_default(0, Expected::Status, status)
    }

    // The time, 0 where it is left out.
    pub fn time(&mut self) -> Result<i64, Expected>
        ensures value { result ≡ time_at (left self.old) 0 }
        ensures took { TookWord self.old self.new }
    {
        self.or_default(0, Expected::Time, signed64)
    }

    // The count, 1 where it is left out.
    pub fn count(&mut self) -> Result<u32, Expected>
        ensures value { result ≡ count_at (left self.old) 0 }
        ensures took { TookWord self.old self.new }
    {
        self.or_default(1, Expected::Number, number)
    }

    // Whether the next word is the first of the two texts, where it has to be one of them.
    fn either(&mut self, first: &[u8], second: &[u8], expected: Expected) -> Result<bool, Expected>
        ensures value { result ≡ either_at (left self.old) 0 first.now second.now expected }
        ensures took { TookWord self.old self.new }
    {
        let word = self.word();
        if is_text(word, first) {
            Ok(true)
        } else if is_text(word, second) {
            Ok(false)
        } else {
            Err(expected)
        }
    }

    // Whether it is on.
    pub fn switch(&mut self) -> Result<bool, Expected>
        ensures value { result ≡ switch_at (left self.old) 0 }
        ensures took { TookWord self.old self.new }
    {
        self.either(b"on", b"off", Expected::Switch)
    }

    // Whether the oldest is discarded.
    pub fn policy(&mut self) -> Result<bool, Expected>
        ensures value { result ≡ policy_at (left self.old) 0 }
        ensures took { TookWord self.old self.new }
    {
        self.either(b"oldest", b"newest", Expected::Policy)
    }

    // No word is left.
    pub fn end(&mut self) -> Result<(), Expected>
        ensures value { result ≡ end_at (left self.old) 0 }
        ensures took { TookWord self.old self.new }
    {
        if self.word().is_empty() {
            Ok(())
        } else {
            Err(Expected::End)
        }
    }
}
