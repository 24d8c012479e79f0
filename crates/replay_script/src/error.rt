use answers::fault::ServiceFault;
use sources::fault::SourceFault;
use std::fmt;
use values::fault::Refusal;

// Why a command has no answer: its call is refused, or there is no memory for a list of so many places.
#[derive(Clone, Copy)]
pub(crate) enum CallError {
    Refused(ServiceFault),
    NoMemory(usize),
}

// Both by hand: a derived `From` comes with `Error`, which wants `Debug` of each fault.
impl From<ServiceFault> for CallError {
    fn from(fault: ServiceFault) -> CallError {
        CallError::Refused(fault)
    }
}

impl From<SourceFault> for CallError {
    fn from(fault: SourceFault) -> CallError {
        CallError::Refused(ServiceFault::from(fault))
    }
}

impl fmt::Display for CallError {
    fn fmt<W: fmt::Write>(&self, f: &mut fmt::Formatter<W>) -> fmt::Result {
        match self {
            CallError::Refused(fault) => {
                let Refusal {
                    number,
                    layer,
                    place,
                } = fault.refusal();
                write!(f, "refused {number} {fault} {layer} {place}")
            }
            CallError::NoMemory(places) => write!(f, "no memory for a list of {places} places"),
        }
    }
}
