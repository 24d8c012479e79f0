ghost use Rattle.scripts.specs.Texts.{expected_text};

use std::fmt;

// What a line should have had where it could not be read.
#[derive(Clone, Copy)]
pub enum Expected {
    Command,
    Number,
    NumberOrMatch,
    Status,
    Signed,
    Time,
    Double,
    Value,
    Switch,
    Policy,
    Acknowledgement,
    End,
}

impl fmt::Display for Expected {
    ghost output = { λ e. expected_text e };

    fn fmt<W: fmt::Write>(&self, f: &mut fmt::Formatter<W>) -> fmt::Result {
        match self {
            Expected::Command => write!(f, "a command word"),
            Expected::Number => write!(f, "a number of 32 bits"),
            Expected::NumberOrMatch => write!(f, "a number of 32 bits or match"),
            Expected::Status => write!(f, "a number of 32 bits, in decimal or behind 0x"),
            Expected::Signed => write!(f, "a signed number of 32 bits"),
            Expected::Time => write!(f, "a signed number of 64 bits"),
            Expected::Double => write!(f, "a Double"),
            Expected::Value => write!(f, "empty, true, false, int32:N or double:X"),
            Expected::Switch => write!(f, "on or off"),
            Expected::Policy => write!(f, "oldest or newest"),
            Expected::Acknowledgement => write!(f, "SUB:NUMBER"),
            Expected::End => write!(f, "the end of the line"),
        }
    }
}
