use values::check::RequestedFilter;

// What a client asks of a monitored item: any numbers. A negative sampling interval means the subscription's.
#[derive(Clone, Copy)]
pub struct MonitoringParameters {
    pub client_handle: u32,
    pub filter: RequestedFilter,
    pub sampling_interval: i32,
    pub queue_size: u32,
    pub discard_oldest: bool,
}
