ghost use Rattle.std.specs.Prelude.{◌≡◌};
ghost use Rattle.values.specs.Filters.{width_of};
ghost use Rattle.values.specs.Change.{changed, value_changed};

use crate::checked::CheckedFilter;
use crate::filter::{Deadband, Filter, Trigger};
use crate::number::Number;
use crate::value::{Sample, Value};

impl Filter {
    // One text over every kind of number.
    pub(crate) fn is_number_change<N: Number>(&self, last: N, new: N) -> bool
        ensures { result ≡ N.Number.beyond (width_of self.now) last new }
    {
        last.is_beyond(new, self.width())
    }

    pub(crate) fn is_value_change(&self, last: Value, new: Value) -> bool
        ensures { result ≡ value_changed (width_of self.now) last new }
    {
        match (last, new) {
            (Value::Empty, Value::Empty) => false,
            (Value::Boolean(a), Value::Boolean(b)) => a != b,
            (Value::Int32(a), Value::Int32(b)) => self.is_number_change(a, b),
            (Value::Double(a), Value::Double(b)) => self.is_number_change(a, b),
            _ => true,
        }
    }

    // Whether the new sample is a change against the last one.
    pub(crate) fn is_change(&self, last: &Sample, new: &Sample) -> bool
        ensures { result ≡ changed self.now last.now new.now }
    {
        if last.status != new.status {
            return true;
        }
        match self.trigger {
            Trigger::Status => false,
            Trigger::StatusValue => self.is_value_change(last.value, new.value),
            Trigger::StatusValueTimestamp => {
                (self.deadband == Deadband::None && last.time != new.time)
                    || self.is_value_change(last.value, new.value)
            }
        }
    }
}

impl CheckedFilter {
    // Whether the new sample is a change against the last one.
    pub fn is_change(&self, last: &Sample, new: &Sample) -> bool
        ensures { result ≡ changed self.now.filter last.now new.now }
    {
        self.filter.is_change(last, new)
    }
}
