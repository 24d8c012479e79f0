use crate::waiting::WaitingQueue;
use values::checked::CheckedFilter;
use values::value::{Kind, Sample};

// The monitoring mode.
#[derive(Clone, Copy, PartialEq, Eq)]
pub enum Mode {
    Disabled,
    Sampling,
    Reporting,
}

// What is fixed from an item's creation.
#[derive(Clone, Copy)]
pub struct Identity {
    pub id: u32,
    pub subscription: u32,
    pub node: u32,
    pub kind: Kind,
}

// What a client chooses, revised and checked: the sampling interval is in ticks.
#[derive(Clone, Copy)]
pub struct Settings {
    pub client_handle: u32,
    pub filter: CheckedFilter,
    pub interval: u32,
    pub discard_oldest: bool,
}

// A monitored item. `countdown` is how many ticks there are to the next sampling, and `last_queued` the sample
// that was queued last since the item started.
#[derive(Clone, Copy)]
pub struct MonitoredItem {
    pub identity: Identity,
    pub settings: Settings,
    pub mode: Mode,
    pub countdown: u32,
    pub last_queued: Option<Sample>,
    pub queue: WaitingQueue,
}
