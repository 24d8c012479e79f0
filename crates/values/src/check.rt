ghost use Rattle.std.specs.Prelude.{◌≡◌};
ghost use Rattle.values.specs.Check.{checked};

use crate::checked::CheckedFilter;
use crate::fault::FilterFault;
use crate::filter::{Deadband, Filter, Trigger};
use crate::value::Kind;

// A filter as a client asks for it: any numbers, since a refusal is what an unknown code is answered with.
#[derive(Clone, Copy)]
pub struct RequestedFilter {
    pub trigger: u32,
    pub deadband: u32,
    pub deadband_value: f64,
}

impl RequestedFilter {
    // The checked filter for values of the kind, or the first fault, at the given place.
    pub fn check(&self, kind: Kind, place: u32) -> Result<CheckedFilter, FilterFault>
        ensures { result ≡ checked self.now kind place }
    {
        let trigger = Trigger::try_from(self.trigger).map_err(
            |_| FilterFault::MonitoredItemFilterInvalid(place),
        )?;
        let deadband = Deadband::try_from(self.deadband).map_err(
            |_| FilterFault::DeadbandFilterInvalid(place),
        )?;
        if !deadband.allows(self.deadband_value) {
            return Err(FilterFault::DeadbandFilterInvalid(place));
        }
        if !deadband.measures(kind) {
            return Err(FilterFault::FilterNotAllowed(place));
        }
        Ok(CheckedFilter {
            filter: Filter {
                trigger,
                deadband,
                deadband_value: self.deadband_value,
            },
        })
    }
}
