// What the tests of several layers use.
use sources::fault::SourceFault;
use values::check::RequestedFilter;
use values::fault::{FilterFault, Refusal};
use values::value::{Sample, Value};

// What a layer refuses with.
pub trait Fault: Copy {
    fn refusal(&self) -> Refusal;
}

impl Fault for FilterFault {
    fn refusal(&self) -> Refusal {
        FilterFault::refusal(self)
    }
}

impl Fault for SourceFault {
    fn refusal(&self) -> Refusal {
        SourceFault::refusal(self)
    }
}

// The number and place of the refusal, if there is one.
pub fn refused<T: Drop, F: Fault>(res: Result<T, F>) -> Option<(u32, u32)> {
    let Refusal { number, place, .. } = res.err()?.refusal();
    Some((number, place))
}

pub fn requested(trigger: u32, deadband: u32, deadband_value: f64) -> RequestedFilter {
    RequestedFilter {
        trigger,
        deadband,
        deadband_value,
    }
}

pub fn good(value: Value) -> Sample {
    Sample::good(value, 0)
}
