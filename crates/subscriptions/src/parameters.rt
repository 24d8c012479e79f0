// What a client asks of a subscription: the publishing interval in milliseconds, the keep-alive and lifetime counts in
// publishing cycles, and how many notifications a message may carry, 0 for as many as fit.
#[derive(Clone, Copy, Default)]
pub struct SubscriptionParameters {
    pub milliseconds: i32,
    pub keep_alive: u32,
    pub lifetime: u32,
    pub limit: u32,
}

// What a client is told of a subscription: its revised publishing interval in ticks, and its revised counts.
#[derive(Clone, Copy, Debug, Default, PartialEq, Eq, PartialOrd, Ord, Hash)]
pub struct RevisedSubscription {
    pub interval: u32,
    pub keep_alive: u32,
    pub lifetime: u32,
}
