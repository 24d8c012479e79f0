ghost use Rattle.std.specs.Prelude.{◌≡◌};
ghost use Rattle.values.specs.Codes.{known_code};
ghost use Rattle.values.specs.Filters.{trigger_of, deadband_of, measured, width_of, allowed};

use crate::code::UnknownCode;
use crate::value::Kind;

// What a change is looked for in: the status, also the value, also the time.
#[derive(Clone, Copy, PartialEq, Eq)]
pub enum Trigger {
    Status,
    StatusValue,
    StatusValueTimestamp,
}

// The deadband type.
#[derive(Clone, Copy, PartialEq, Eq)]
pub enum Deadband {
    None,
    Absolute,
}

// A data change filter.
#[derive(Clone, Copy)]
pub struct Filter {
    pub trigger: Trigger,
    pub deadband: Deadband,
    pub deadband_value: f64,
}

impl TryFrom<u32> for Trigger {
    type Error = UnknownCode;

    ghost try_from_gives = { λ code r. r ≡ known_code (trigger_of code) code };

    fn try_from(code: u32) -> Result<Self, UnknownCode> {
        match code {
            0 => Ok(Trigger::Status),
            1 => Ok(Trigger::StatusValue),
            2 => Ok(Trigger::StatusValueTimestamp),
            _ => Err(UnknownCode(code)),
        }
    }
}

impl TryFrom<u32> for Deadband {
    type Error = UnknownCode;

    ghost try_from_gives = { λ code r. r ≡ known_code (deadband_of code) code };

    fn try_from(code: u32) -> Result<Self, UnknownCode> {
        match code {
            0 => Ok(Deadband::None),
            1 => Ok(Deadband::Absolute),
            _ => Err(UnknownCode(code)),
        }
    }
}

impl Deadband {
    // Whether values of the kind have a distance that this type can limit.
    pub(crate) fn measures(self, kind: Kind) -> bool
        ensures { result ≡ measured self kind }
    {
        self == Deadband::None || kind != Kind::Boolean
    }

    // Whether a deadband value may stand with this type.
    pub(crate) fn allows(self, deadband_value: f64) -> bool
        ensures { result ≡ allowed self deadband_value }
    {
        match self {
            Deadband::None => true,
            Deadband::Absolute => deadband_value.is_finite() && !(deadband_value < 0.0),
        }
    }
}

impl Filter {
    // How far apart two numbers may lie without being a change: type None reads 0, whatever the value is.
    pub(crate) fn width(&self) -> f64
        ensures { result ≡ width_of self.now }
    {
        match self.deadband {
            Deadband::None => 0.0,
            Deadband::Absolute => self.deadband_value,
        }
    }
}
