ghost use Rattle.std.specs.Prelude.{◌≡◌};
ghost use Rattle.values.specs.Kinds.{kind_of, fitting};
ghost use Rattle.values.specs.Codes.{known_code};
ghost use Rattle.values.specs.Samples.{good_at};

use crate::code::UnknownCode;

// The kinds of value. Their codes, 1, 6 and 11, are the type codes of OPC UA Binary.
#[derive(Clone, Copy, PartialEq, Eq)]
pub enum Kind {
    Boolean,
    Int32,
    Double,
}

// A value is empty or of one kind.
#[derive(Clone, Copy, Default)]
pub enum Value {
    #[default]
    Empty,
    Boolean(bool),
    Int32(i32),
    Double(f64),
}

// A value with its status code (0 is Good) and its source time, in steps of 100 ns since 1601-01-01 UTC.
#[derive(Clone, Copy, Default)]
pub struct Sample {
    pub value: Value,
    pub status: u32,
    pub time: i64,
}

impl TryFrom<u32> for Kind {
    type Error = UnknownCode;

    ghost try_from_gives = { λ code r. r ≡ known_code (kind_of code) code };

    fn try_from(code: u32) -> Result<Self, UnknownCode> {
        match code {
            1 => Ok(Kind::Boolean),
            6 => Ok(Kind::Int32),
            11 => Ok(Kind::Double),
            _ => Err(UnknownCode(code)),
        }
    }
}

impl Value {
    // Whether the value is empty or of the kind.
    pub fn fits(&self, kind: Kind) -> bool
        ensures { result ≡ fitting kind self.now }
    {
        matches!(
            (kind, self),
            (_, Value::Empty)
                | (Kind::Boolean, Value::Boolean(_))
                | (Kind::Int32, Value::Int32(_))
                | (Kind::Double, Value::Double(_))
        )
    }
}

impl Sample {
    // A value with the status Good.
    pub fn good(value: Value, time: i64) -> Self
        ensures { result ≡ good_at value time }
    {
        Sample {
            value,
            status: 0,
            time,
        }
    }
}
